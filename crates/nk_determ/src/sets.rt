//! Sets of labels, each once.
ghost use Rattle.std.specs.Prelude.{◌≡◌, ℕ, ◌+◌, ◌<◌, ◌^◌, true, [], List as Items, IfOk, OnOk, OnErr, length, slice_index_or};
ghost use Rattle.std.specs.List.Sorted.{IsStrictlyIncreasing};
ghost use Rattle.nk_determ.specs.Sets.{SetsGrow, IsSetOf, HasEachSetOnce, HasAscendingSets, holds, with_set, place_in};

use nk_field::List;
use nk_store::UniqueTable;
use std::alloc::{AllocError, Global};
use std::marker::Model;

/// The number of a set of labels.
#[derive(Clone, Copy, PartialEq, Eq, PartialOrd, Ord, Hash)]
pub struct SetId {
    place: usize,
}

impl Model for SetId {
    ghost Value = { ℕ };

    ghost view = { λ s. s.place };

    ghost inverse = { λ n. record { place = n } };
}

impl SetId {
    /// The number of a place among the sets, 0 being the first.
    pub fn new(place: usize) -> SetId
        ensures { result ≡ place }
    {
        SetId { place }
    }

    /// The place of a set.
    pub fn place(self) -> usize
        ensures { result ≡ self }
    {
        self.place
    }

    /// The target of the outs to this set in a set state's diagram: 1 + its number, since 0 is the end.
    pub fn target(self) -> u64
        requires { self + 1 < 2 ^ 64 }
        ensures { result ≡ self + 1 }
    {
        self.place as u64 + 1
    }

    /// The set that outs with this target lead to. The target isn't 0, which is the end.
    pub fn from_target(target: u64) -> SetId
        requires { 0 < target }
        ensures { result + 1 ≡ target }
    {
        SetId {
            place: (target - 1) as usize,
        }
    }
}

/// Sets of labels, as ascending lists, each once, numbered in the order in which they came.
pub struct Sets {
    sets: UniqueTable<List<u64>>,
}

impl Drop for Sets {
    fn drop(self) {
        let Self { sets: _ } = self;
    }
}

impl Model for Sets {
    ghost use Rattle.std.specs.Prelude.{ℕ, List as Items};
    ghost use Rattle.nk_determ.specs.Sets.{HasAscendingSets};

    ghost Value = { Items (Items ℕ) };

    ghost view = { λ s. s.sets };

    ghost invariant = { λ s. HasAscendingSets s.sets };
}

impl Sets {
    /// No set; it takes no memory.
    pub fn new(alloc: Global) -> Sets
        ensures { result ≡ [] }
    {
        Sets {
            sets: UniqueTable::new(alloc),
        }
    }

    /// The number of the set with these labels, which is added as the last one where it isn't there. The
    /// clauses name all sets that there are then. The only error is that memory ran out; then the sets
    /// stay as they were.
    pub fn intern(&mut self, labels: List<u64>) -> Result<SetId, AllocError>
        requires { IsStrictlyIncreasing labels }
        ensures grows { SetsGrow self.old self.new }
        ensures ok { IfOk result (λ i. IsSetOf self.new i labels) }
        ensures sets { OnOk result (self.new ≡ with_set self.old labels) }
        ensures err { OnErr result (self.new ≡ self.old) }
    {
        let place = self.sets.intern(labels)?;
        Ok(SetId { place })
    }

    /// The labels of a set, ascending.
    pub fn members(&self, s: SetId) -> &[u64]
        requires { s < length self.now }
        ensures is { result.now ≡ slice_index_or self.now s [] }
        ensures ascend { IsStrictlyIncreasing result.now }
    {
        self.sets.at(s.place).as_slice()
    }

    /// How many sets there are.
    pub fn len(&self) -> usize
        ensures { result ≡ length self.now }
    {
        self.sets.len()
    }

    /// States what holds of all sets, and does nothing: two numbers with equal members are one, and labels ascend.
    pub fn differ(&self)
        ensures differ { HasEachSetOnce self.now }
        ensures ascend { HasAscendingSets self.now }
    {
        let _count = self.sets.len();
    }

    /// The number that `intern` gives, for callers whose sets grow further: it is the first place of these
    /// labels in each list of sets that these grow to. The number after it fits in 64 bits, as a target
    /// needs. The only error is that memory ran out; no set is lost then.
    pub fn put(&mut self, labels: List<u64>) -> Result<SetId, AllocError>
        requires { IsStrictlyIncreasing labels }
        ensures grows { SetsGrow self.old self.new }
        ensures is { IfOk result
            (λ i. (later : Items (Items ℕ)) → SetsGrow self.new later → i ≡ place_in later labels) }
        ensures small { IfOk result (λ i. i + 1 < 2 ^ 64) }
        ensures there { OnOk result (holds self.new labels ≡ true) }
    {
        let s = self.intern(labels)?;
        self.differ();
        let _count = self.len();
        Ok(s)
    }
}
