//! The bucket that was put last, with the text of the row's end. In the table of an access list nearly each bucket is the last one
//! again: its text isn't made once more.
ghost use Rattle.std.specs.Prelude.{◌≡◌, ◌++◌, true, codes, None, Some, OnOk, OnErr};
ghost use Rattle.std.specs.Fmt.{decimal};
ghost use Rattle.nk_field.specs.Packet.{FieldTable};
ghost use Rattle.nk_tabtext.specs.Remembered.{RemembersBucket, row_end_text};
ghost use Rattle.nk_tabtext.specs.Text.{bucket_text, target_text};

use crate::{number, rules, short};
use nk_field::Fields;
use nk_table::{Bucket, Target};
use std::alloc::{AllocError, Global};

/// The bucket that was put last, if one was, and the text of its row after the matches.
#[derive(Drop)]
pub(crate) struct LastBucket {
    bucket: Option<Bucket>,
    text: Vec<u8>,
}

impl LastBucket {
    /// None yet.
    pub(crate) fn new(alloc: Global) -> LastBucket
        ensures { (fs : FieldTable) → RemembersBucket fs result }
    {
        LastBucket {
            bucket: None,
            text: Vec::new(alloc),
        }
    }

    /// Puts the end of a row after a text: what the row does. A bucket becomes the last one.
    pub(crate) fn put_end(
        &mut self,
        out: &mut Vec<u8>,
        fs: &Fields,
        target: &Target,
    ) -> Result<(), AllocError>
        ensures text { RemembersBucket fs.now self.old → OnOk result
            (out.new.items ≡ out.old.items ++ row_end_text (target_text fs.now target.now)) }
        ensures last { RemembersBucket fs.now self.old
            → OnOk result (RemembersBucket fs.now self.new) }
    {
        match target {
            Target::Bucket(bucket) => self.put(out, fs, bucket),
            Target::Group(n) => put_group(out, *n),
            Target::Discard => {
                out.extend_from_slice(b"-> drop\n")?;
                Ok(())
            }
        }
    }

    /// Puts the end of a row with a bucket after a text.
    fn put(&mut self, out: &mut Vec<u8>, fs: &Fields, bucket: &Bucket) -> Result<(), AllocError>
        ensures text { RemembersBucket fs.now self.old → OnOk result
            (out.new.items ≡ out.old.items ++ row_end_text (bucket_text fs.now bucket.now)) }
        ensures last { RemembersBucket fs.now self.old
            → OnOk result (RemembersBucket fs.now self.new) }
    {
        self.make_last(fs, bucket)?;
        out.extend_from_slice(self.text.as_slice())
    }

    /// Makes a bucket the last one, if it isn't.
    #[inline(always)]
    fn make_last(&mut self, fs: &Fields, bucket: &Bucket) -> Result<(), AllocError>
        ensures bucket { OnOk result (self.new.bucket ≡ Some bucket.now) }
        ensures text { RemembersBucket fs.now self.old → OnOk result
            (self.new.text.items ≡ row_end_text (bucket_text fs.now bucket.now)) }
    {
        if self.is_last(bucket) {
            return Ok(());
        }
        self.set(fs, bucket)
    }

    /// Whether a bucket is the one that was put last.
    #[inline(always)]
    fn is_last(&self, bucket: &Bucket) -> bool
        ensures { result ≡ true → self.now.bucket ≡ Some bucket.now }
    {
        match &self.bucket {
            Some(last) => *last == *bucket,
            None => false,
        }
    }

    /// Makes another bucket the last one. Where memory runs out, no bucket is the last one.
    #[inline(never)]
    fn set(&mut self, fs: &Fields, bucket: &Bucket) -> Result<(), AllocError>
        ensures bucket { OnOk result (self.new.bucket ≡ Some bucket.now) }
        ensures text { OnOk result
            (self.new.text.items ≡ row_end_text (bucket_text fs.now bucket.now)) }
        ensures err { OnErr result (self.new.bucket ≡ None) }
    {
        self.bucket = None;
        self.text.clear();
        short::piece(&mut self.text, b"-> ")?;
        rules::bucket(&mut self.text, fs, bucket)?;
        self.text.push(b'\n')?;
        self.bucket = Some(bucket.copy()?);
        Ok(())
    }
}

/// Puts the end of a row with a group after a text.
fn put_group(out: &mut Vec<u8>, n: u64) -> Result<(), AllocError>
    ensures { OnOk result (out.new.items
        ≡ out.old.items ++ row_end_text (codes "group " ++ decimal n)) }
{
    out.extend_from_slice(b"-> group ")?;
    number(out, n)?;
    out.push(b'\n')?;
    Ok(())
}
