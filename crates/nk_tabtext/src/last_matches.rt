//! The matches of the row that was put last, with their text. Most rows begin with the matches of the row before: in the table of an
//! access list four of five matches stand there already, with three quarters of their bytes. Their text isn't made again.
ghost use Rattle.std.specs.Prelude.{◌≡◌, ◌&&◌, ◌==◌, ℕ, List, [], ◌∷◌, ◌++◌, take, IfOk, OnOk};
ghost use Rattle.nk_field.specs.Packet.{FieldTable};
ghost use Rattle.nk_tabtext.specs.Text.{is_tag};
ghost use Rattle.nk_tabtext.specs.Remembered.{BeginsWith, Remembers, as_printed, match_where, those};

use crate::rules;
use nk_field::{Fid, Fields};
use std::alloc::{AllocError, Global};

/// A match of a row, and how long the text is before it.
#[derive(Clone, Copy)]
pub(crate) struct PrintedMatch {
    /// The field, the value, and how many of its first digits count.
    matched: (Fid, u64, u8),
    /// How many bytes the matches before it take.
    start: usize,
}

/// The matches of the row that was put last, in the order in which they are printed, and their text.
#[derive(Drop)]
pub(crate) struct LastMatches {
    matches: Vec<PrintedMatch>,
    pub(crate) text: Vec<u8>,
}

impl LastMatches {
    /// None yet.
    pub(crate) fn new(alloc: Global) -> LastMatches
        ensures { (fs : FieldTable) → Remembers fs [] result }
    {
        let matches = Vec::new(alloc);
        let text = Vec::new(alloc);
        LastMatches { matches, text }
    }

    /// Makes these the last matches: those of the tag first. Where the row before begins with the same ones, their text stays as it is.
    pub(crate) fn set(
        &mut self,
        fs: &Fields,
        before: &[(Fid, u64, u8)],
        between: &(Fid, u64, u8),
        after: &[(Fid, u64, u8)],
    ) -> Result<(), AllocError>
        ensures { (ms : List (ℕ × ℕ × ℕ)) → Remembers fs.now ms self.old
            → OnOk result (Remembers fs.now
            (as_printed fs.now (before.now ++ between.now ∷ after.now)) self.new) }
    {
        let tagged = self.put_parted(fs, 0, before, between, after, true)?;
        let end = self.put_parted(fs, tagged, before, between, after, false)?;
        self.cut(end);
        Ok(())
    }

    /// Puts the row's matches of the tag, or the other ones, where so many matches of the row stand here. Returns how many stand here
    /// with them.
    fn put_parted(
        &mut self,
        fs: &Fields,
        place: usize,
        before: &[(Fid, u64, u8)],
        between: &(Fid, u64, u8),
        after: &[(Fid, u64, u8)],
        tag: bool,
    ) -> Result<usize, AllocError>
        ensures { (row : List (ℕ × ℕ × ℕ)) → BeginsWith fs.now row place self.old
            → IfOk result (λ n. BeginsWith fs.now
            (row ++ those fs.now tag (before.now ++ between.now ∷ after.now)) n self.new) }
    {
        let first = self.put_those(fs, place, before, tag)?;
        let middle = self.put_if(fs, first, between, tag)?;
        let end = self.put_those(fs, middle, after, tag)?;
        Ok(end)
    }

    /// Puts those of these matches that are of the tag, or the other ones.
    fn put_those(
        &mut self,
        fs: &Fields,
        from: usize,
        ms: &[(Fid, u64, u8)],
        tag: bool,
    ) -> Result<usize, AllocError>
        ensures { (row : List (ℕ × ℕ × ℕ)) → BeginsWith fs.now row from self.old
            → IfOk result (λ n. BeginsWith fs.now (row ++ those fs.now tag ms.now) n self.new) }
    {
        let mut place = from;
        for m in ms {
            place = self.put_if(fs, place, m, tag)?;
        }
        Ok(place)
    }

    /// Puts a match of the tag, if `tag` is true, and one of another field, if `tag` is false; else nothing changes.
    #[inline(always)]
    fn put_if(
        &mut self,
        fs: &Fields,
        place: usize,
        m: &(Fid, u64, u8),
        tag: bool,
    ) -> Result<usize, AllocError>
        ensures { (row : List (ℕ × ℕ × ℕ)) → BeginsWith fs.now row place self.old
            → IfOk result (λ n. BeginsWith fs.now
            (row ++ match_where (is_tag fs.now m.now.0) tag m.now) n self.new) }
    {
        let (f, _, _) = *m;
        if rules::is_the_tag(fs, f) == tag {
            self.put_match(fs, place, m)
        } else {
            Ok(place)
        }
    }

    /// Puts a match. What stands at its place is left alone where it is the same match.
    #[inline(always)]
    fn put_match(
        &mut self,
        fs: &Fields,
        place: usize,
        m: &(Fid, u64, u8),
    ) -> Result<usize, AllocError>
        ensures { (row : List (ℕ × ℕ × ℕ)) → BeginsWith fs.now row place self.old
            → IfOk result (λ n. BeginsWith fs.now (row ++ m.now ∷ []) n self.new) }
    {
        let count = self.matches.len();
        if place < count && are_same(&self.matches[place].matched, m) {
            return Ok(place + 1);
        }
        self.put_anew(fs, place, m)
    }

    /// Forgets what stands from a place on, and puts a match there.
    #[inline(never)]
    fn put_anew(
        &mut self,
        fs: &Fields,
        place: usize,
        m: &(Fid, u64, u8),
    ) -> Result<usize, AllocError>
        ensures { (row : List (ℕ × ℕ × ℕ)) → BeginsWith fs.now row place self.old
            → IfOk result (λ n. BeginsWith fs.now (row ++ m.now ∷ []) n self.new) }
    {
        self.cut(place);
        self.print(fs, m)?;
        Ok(self.matches.len())
    }

    /// Puts a match after the others, and its text after theirs.
    fn print(&mut self, fs: &Fields, m: &(Fid, u64, u8)) -> Result<(), AllocError>
        ensures { (ms : List (ℕ × ℕ × ℕ)) → Remembers fs.now ms self.old
            → OnOk result (Remembers fs.now (ms ++ m.now ∷ []) self.new) }
    {
        let start = self.text.len();
        self.matches.push(PrintedMatch { matched: *m, start })?;
        rules::one_match(&mut self.text, fs, m)?;
        Ok(())
    }

    /// Forgets the matches from a place on, with their text.
    fn cut(&mut self, place: usize)
        ensures { (fs : FieldTable) (ms : List (ℕ × ℕ × ℕ)) → Remembers fs ms self.old
            → Remembers fs (take place ms) self.new }
    {
        let count = self.matches.len();
        if count <= place {
            return;
        }
        let start = self.matches[place].start;
        self.text.truncate(start);
        self.matches.truncate(place);
    }
}

/// Whether two matches are the same.
fn are_same(a: &(Fid, u64, u8), b: &(Fid, u64, u8)) -> bool
    ensures { result ≡ ((a.now.0 == b.now.0 && a.now.1 == b.now.1) && a.now.2 == b.now.2) }
{
    *a == *b
}
