//! A table that has each item once and numbers the items: a unique table (Brace, Rudell, Bryant, "Efficient implementation of
//! a BDD package", DAC 1990).
ghost use Rattle.std.specs.Prelude.{◌≡◌, ◌+◌, ◌<◌, ◌^◌, ℕ, [], ◌∷◌, ◌++◌, if◌then◌else◌, eqb, length, slice_get, true, false, Some, IfOk, IfSome, OnOk, OnErr, IfNone, IsTrue};
ghost use Rattle.std.specs.Map.{lookup};
ghost use Rattle.std.specs.Option.{unwrap_or};
ghost use Rattle.nk_store.specs.UniqueTables.{items_of, holds_item, with_item, item_place, HasItemsOnce, IsLast, AreChained};

use crate::identity_hasher::IdentityHasher;
use std::alloc::{AllocError, Global};
use std::collections::HashMap;
use std::hash::BuildHasherDefault;
use std::marker::Model;

/// What has a number of its own making, by which a table finds it. Items that are equal have one number; items with one number
/// are found by going over them, so they should be few.
pub trait Digest: Eq {
    ghost number: { Self → ℕ };

    /// The number.
    fn digest(&self) -> u64
        ensures { result ≡ number self.now };

    ghost respects_eq: { (x y : Self) → IsTrue (Self.eq x y) → number x ≡ number y };
}

/// For each digest the index plus one of the last entry that has it, in 32 bits, since there is one for nearly every entry.
type Latest = HashMap<u64, u32, BuildHasherDefault<IdentityHasher>>;

/// An item, and the index plus one of the last entry before it whose item has the same digest, 0 where none has.
struct Entry<T> {
    item: T,
    earlier: usize,
}

impl<T: Drop> Drop for Entry<T> {
    fn drop(self) {
        let Self {
            item: _,
            earlier: _,
        } = self;
    }
}

/// Items, each once, in the order in which they came. Items whose digests collide form a chain.
pub struct UniqueTable<T: Digest> {
    entries: Vec<Entry<T>>,
    latest: Latest,
}

impl<T: Digest + Drop> Drop for UniqueTable<T> {
    fn drop(self) {
        let Self {
            entries: _,
            latest: _,
        } = self;
    }
}

impl<T: Digest> Model for UniqueTable<T> {
    ghost use Rattle.std.specs.Prelude.{List};
    ghost use Rattle.std.specs.Coded.{coded_list};
    ghost use Rattle.nk_store.specs.UniqueTables.{items_of, IsUniqueTable};

    ghost Value = { List T };

    ghost coded = { coded_list T.code };

    ghost view = { λ t. items_of t.entries.items };

    ghost invariant = { λ t. IsUniqueTable T.eq T.number t.entries.items t.latest.entries };
}

impl<T: Digest> UniqueTable<T> {
    /// No item; it takes no memory.
    pub fn new(alloc: Global) -> UniqueTable<T>
        ensures { result ≡ [] }
    {
        UniqueTable {
            entries: Vec::new(alloc),
            latest: HashMap::with_hasher(alloc, BuildHasherDefault::new()),
        }
    }

    /// The item at this index, which is below the length.
    #[inline]
    pub fn at(&self, index: usize) -> &T
        requires { index < length self.now }
        ensures { slice_get self.now index ≡ Some result.now }
    {
        &self.entries[index].item
    }

    /// How many items there are. No two of them are equal.
    pub fn len(&self) -> usize
        ensures len { result ≡ length self.now }
        ensures small { result < 2 ^ 63 }
        ensures unique { HasItemsOnce T.eq self.now }
    {
        self.entries.len()
    }

    /// The allocator that the table grows with.
    pub fn alloc(&self) -> Global {
        *self.entries.allocator()
    }
}

impl<T: Digest + Drop> UniqueTable<T> {
    /// The index of the item, which is put after the others where it isn't there. The only error is that memory ran out; then the
    /// table is as it was.
    #[inline]
    pub fn intern(&mut self, item: T) -> Result<usize, AllocError>
        ensures keys { OnOk result (self.new ≡ with_item T.eq self.old item) }
        ensures index { IfOk result (λ i. i ≡ item_place T.eq self.old item) }
        ensures within { IfOk result (λ i. i < length self.new) }
        ensures stored { IfOk result
            (λ i. (k : T) × (slice_get self.new i ≡ Some k) × (T.eq item k ≡ true)) }
        ensures err { OnErr result (self.new ≡ self.old) }
        ensures unique { HasItemsOnce T.eq self.new }
    {
        let digest = item.digest();
        let last = last_with(&self.latest, digest);
        if let Some(index) = find(self.entries.as_slice(), last, &item) {
            return Ok(index);
        }
        let index = self.entries.len();
        let entry = Entry {
            item,
            earlier: last,
        };
        push_entry(&mut self.entries, &mut self.latest, digest, entry)?;
        Ok(index)
    }
}

/// The index plus one of the last entry with a digest, 0 where none has it.
#[inline]
fn last_with(latest: &Latest, digest: u64) -> usize
    ensures { result ≡ unwrap_or (lookup (eqb digest) latest.now.entries) 0 }
{
    match latest.get(&digest) {
        Some(last) => *last as usize,
        None => 0,
    }
}

/// The index of an item, looked for along the chain of its digest, whose last entry is given by its index plus one.
#[inline]
fn find<T: Digest>(entries: &[Entry<T>], last: usize, item: &T) -> Option<usize>
    requires chained { AreChained T.number entries.now }
    requires last { IsLast T.number entries.now (length entries.now) (T.number item.now) last }
    ensures found { IfSome result
        (λ i. (k : T) × (slice_get (items_of entries.now) i ≡ Some k) × (T.eq item.now k ≡ true)) }
    ensures absent { IfNone result (holds_item T.eq (items_of entries.now) item.now ≡ false) }
{
    let mut next = last;
    while next > 0 {
        let entry = &entries[next - 1];
        if *item == entry.item {
            return Some(next - 1);
        }
        next = entry.earlier;
    }
    None
}

/// Puts an entry at the end and keeps it as the last one of its digest; where memory runs out all stays as it was. More entries than
/// 32 bits count are more than memory holds.
#[inline]
fn push_entry<T: Drop>(
    entries: &mut Vec<Entry<T>>,
    latest: &mut Latest,
    digest: u64,
    entry: Entry<T>,
) -> Result<(), AllocError>
    ensures entries { OnOk result (entries.new.items ≡ entries.old.items ++ entry ∷ []) }
    ensures latest { OnOk result ((d : ℕ) → lookup (eqb d) latest.new.entries
        ≡ (if eqb digest d then Some (length entries.old.items + 1)
        else lookup (eqb d) latest.old.entries)) }
    ensures unchanged { OnErr result (entries.new.items ≡ entries.old.items) }
    ensures kept { OnErr result (latest.new.entries ≡ latest.old.entries) }
{
    let Ok(last) = u32::try_from(entries.len() + 1) else {
        return Err(AllocError);
    };
    entries.push(entry)?;
    match latest.insert(digest, last) {
        Ok(_) => Ok(()),
        Err(_) => {
            entries.pop();
            Err(AllocError)
        }
    }
}
