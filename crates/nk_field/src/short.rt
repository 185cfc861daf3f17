//! A short list, kept in place up to two items, that contracts see as a list.
ghost use Rattle.std.specs.Prelude.{◌≡◌, ◌<◌, [], ◌∷◌, ◌++◌, length, IfOk, OnOk, OnErr, slice_index_or};
ghost use Rattle.std.specs.Cmp.Lexicographic.{pointwise, slice_cmp, slice_partial_cmp, lists_per, lists_equiv, lists_po, lists_total, lists_agrees, lists_ties};
ghost use Rattle.std.specs.Hash as fed;
ghost use Rattle.std.specs.Hash.{items_Alike};

use smallvec::SmallVec;
use std::alloc::{AllocError, Global};
use std::cmp::Ordering;
use std::default::MadeWith;
use std::hash::{Hash, Hasher};
use std::marker::Model;

/// A growing list of values. It keeps up to two of them in place, without memory of its own. A
/// contract sees it as the list of its items.
#[derive(Debug)]
pub struct Short<T> {
    vec: SmallVec<T, 2>,
}

impl<T: Drop> Drop for Short<T> {
    fn drop(self) {
        let Self { vec: _ } = self;
    }
}

impl<T> Model for Short<T> {
    ghost use Rattle.std.specs.Prelude.{List as Items};
    ghost use Rattle.std.specs.Coded.{coded_list};

    ghost Value = { Items T };

    ghost coded = { coded_list T.code };

    ghost view = { λ v. v.vec.items };
}

impl<T: MadeWith<Global> + Drop> Short<T> {
    /// The empty list; it takes no memory.
    pub fn new(alloc: Global) -> Short<T>
        ensures { result ≡ [] }
    {
        Short {
            vec: SmallVec::new(alloc),
        }
    }

    /// The empty list, with room for `capacity` values. The only error is that memory ran out.
    pub fn with_capacity(alloc: Global, capacity: usize) -> Result<Short<T>, AllocError>
        ensures { IfOk result (λ v. v ≡ []) }
    {
        let vec = SmallVec::with_capacity(alloc, capacity)?;
        Ok(Short { vec })
    }

    /// Puts a value at the end. Where memory runs out the list stays as it was.
    pub fn push(&mut self, value: T) -> Result<(), AllocError>
        ensures ok { OnOk result (self.new ≡ self.old ++ value ∷ []) }
        ensures err { OnErr result (self.new ≡ self.old) }
    {
        self.vec.push(value)?;
        Ok(())
    }
}

impl<T> Short<T> {
    /// The allocator that the list grows with.
    pub fn alloc(&self) -> Global {
        *self.vec.allocator()
    }

    /// How many items there are.
    pub fn len(&self) -> usize
        ensures { result ≡ length self.now }
    {
        self.vec.len()
    }

    /// The items in order.
    pub fn as_slice(&self) -> &[T]
        ensures { result.now ≡ self.now }
    {
        self.vec.as_slice()
    }

    /// The item at this index, which is below the length.
    pub fn at(&self, index: usize) -> &T
        requires { index < length self.now }
        ensures { result.now ≡ slice_index_or self.now index result.now }
    {
        &self.vec[index]
    }
}

impl<T: MadeWith<Global> + Copy> Short<T> {
    /// A copy of the list. The only error is that memory ran out.
    pub fn copy(&self) -> Result<Short<T>, AllocError>
        ensures { IfOk result (λ v. v ≡ self.now) }
    {
        let vec = SmallVec::from_slice(*self.vec.allocator(), self.vec.as_slice())?;
        Ok(Short { vec })
    }
}

impl<T: PartialEq> PartialEq for Short<T> {
    ghost eq = { pointwise T.eq };

    ghost laws = { lists_per T.laws };

    fn eq(&self, other: &Self) -> bool {
        self.as_slice() == other.as_slice()
    }
}

impl<T: Eq> Eq for Short<T> {
    ghost laws = { lists_equiv T.Eq.laws };
}

impl<T: Hash> Hash for Short<T> {
    ghost hash_input = { fed.slice T.hash_input };

    ghost respects_eq = { (items_Alike (record { fed = T.respects_eq })).fed };

    fn hash<H: Hasher>(&self, state: &mut H) {
        self.as_slice().hash(state);
    }
}

impl<T: PartialOrd> PartialOrd for Short<T> {
    ghost partial_cmp = { slice_partial_cmp T.partial_cmp };

    ghost laws = { lists_po T.PartialOrd.laws };

    fn partial_cmp(&self, other: &Self) -> Option<Ordering> {
        self.as_slice().partial_cmp(&other.as_slice())
    }
}

impl<T: Ord> Ord for Short<T> {
    ghost cmp = { slice_cmp T.cmp };

    ghost total = { lists_total T.total };

    ghost matches_partial_cmp = { lists_agrees T.matches_partial_cmp };

    ghost matches_eq = { lists_ties T.cmp T.matches_eq };

    fn cmp(&self, other: &Self) -> Ordering {
        self.as_slice().cmp(&other.as_slice())
    }
}
