//! Sets of labels with their packets, found by the set's number.
ghost use Rattle.std.specs.Prelude.{◌≡◌, ℕ, ◌<◌, [], nat_eq, length, take, Some, None, IfOk, IfSome, OnOk, OnErr};
ghost use Rattle.std.specs.List.{position_from};
ghost use Rattle.std.specs.Map.{lookup};
ghost use Rattle.nk_store.specs.StoreState.{Grows};
ghost use Rattle.nk_sets.specs.PacketSets.{IsSet};
ghost use Rattle.nk_determ.specs.Pairs.{Once};
ghost use Rattle.nk_goal.specs.Entries.{HaveSets, IsAdded, IsRest, IsMerged, with_packets};

use nk_apply::union;
use nk_determ::SetId;
use nk_field::List;
use nk_sets::minus;
use nk_store::{Id, Store};
use std::alloc::{AllocError, Global};
use std::collections::HashMap;
use std::marker::Model;

/// By a set the place of its entry.
type PlaceBySet = HashMap<SetId, usize>;

/// Sets of labels with packets, a set once, in the order in which the sets came. A contract sees them as the list of their entries.
pub struct Entries {
    pairs: Vec<(SetId, Id)>,
    places: PlaceBySet,
}

impl Drop for Entries {
    fn drop(self) {
        let Self {
            pairs: _,
            places: _,
        } = self;
    }
}

impl Model for Entries {
    ghost use Rattle.std.specs.Prelude.{ℕ, List as Items};
    ghost use Rattle.nk_determ.specs.Pairs.{Once};
    ghost use Rattle.nk_goal.specs.Entries.{ArePlaced};

    ghost Value = { Items (ℕ × ℕ) };

    ghost view = { λ e. e.pairs.items };

    ghost invariant = { λ e. ArePlaced e.places.entries e.pairs.items };
}

impl Entries {
    /// No entry; it takes no memory.
    pub fn new(alloc: Global) -> Entries
        ensures { result ≡ [] }
    {
        Entries {
            pairs: Vec::new(alloc),
            places: HashMap::new(alloc),
        }
    }

    /// The entries, in the order in which their sets came.
    pub fn as_slice(&self) -> &[(SetId, Id)]
        ensures { result.now ≡ self.now }
    {
        self.pairs.as_slice()
    }

    /// The entries as a list, in the order in which their sets came.
    pub fn into_list(self) -> List<(SetId, Id)>
        ensures { result ≡ self }
    {
        let Self { pairs, places: _ } = self;
        List::from_vec(pairs)
    }

    /// The packets under a set, if it has an entry.
    pub fn packets_of_set(&self, t: SetId) -> Option<Id>
        ensures { result ≡ lookup (nat_eq t) self.now }
    {
        match self.place(t) {
            Some(place) => Some(self.pairs[place].1),
            None => None,
        }
    }

    /// The place of a set's entry, if it has one.
    fn place(&self, t: SetId) -> Option<usize>
        ensures place { result ≡ position_from (λ p. nat_eq t p.0) 0 self.now }
        ensures within { IfSome result (λ k. k < length self.now) }
    {
        self.places.get(&t).copied()
    }

    /// Puts packets under a set, in place of those that stand there. The only error is that memory ran out; then the entries stay
    /// as they were.
    pub fn insert(&mut self, t: SetId, y: Id) -> Result<(), AllocError>
        ensures ok { OnOk result (self.new ≡ with_packets self.old t y) }
        ensures err { OnErr result (self.new ≡ self.old) }
    {
        match self.place(t) {
            Some(place) => {
                self.replace(place, t, y);
                Ok(())
            }
            None => self.push(t, y),
        }
    }

    /// Adds packets under a set. The only error is that memory ran out; then the entries stay as they were.
    pub fn add(&mut self, st: &mut Store, t: SetId, y: Id) -> Result<(), AllocError>
        requires pairs { HaveSets st.old self.old }
        requires packets { IsSet st.old y }
        ensures grows { Grows st.old st.new }
        ensures ok { OnOk result (IsAdded st.old self.old t y st.new self.new) }
        ensures err { OnErr result (self.new ≡ self.old) }
    {
        match self.place(t) {
            Some(place) => {
                let all = union(st, self.pairs[place].1, y)?;
                self.replace(place, t, all);
                Ok(())
            }
            None => self.push(t, y),
        }
    }

    /// Replaces the packets of the entry at a place, which is that of its set.
    fn replace(&mut self, place: usize, t: SetId, y: Id)
        requires { position_from (λ p. nat_eq t p.0) 0 self.old ≡ Some place }
        ensures { self.new ≡ with_packets self.old t y }
    {
        self.pairs[place] = (t, y);
    }

    /// Puts an entry of a set that has none after the others. The only error is that memory ran out; then the entries stay as they
    /// were.
    fn push(&mut self, t: SetId, y: Id) -> Result<(), AllocError>
        requires { position_from (λ p. nat_eq t p.0) 0 self.old ≡ None }
        ensures ok { OnOk result (self.new ≡ with_packets self.old t y) }
        ensures err { OnErr result (self.new ≡ self.old) }
    {
        self.pairs.reserve(1)?;
        self.places.insert(t, self.pairs.len())?;
        self.pairs.push((t, y)).unwrap();
        Ok(())
    }

    /// Adds the packets of one more level to the visited ones. The only error is that memory ran out; then the store has only grown,
    /// and the packets of the level's first entries are added, and of the others none.
    pub fn add_level(&mut self, st: &mut Store, level: &List<(SetId, Id)>) -> Result<(), AllocError>
        requires visited { HaveSets st.old self.old }
        requires once { Once self.old }
        requires level { HaveSets st.old level.now }
        ensures grows { Grows st.old st.new }
        ensures ok { OnOk result (IsMerged st.old self.old level.now st.new self.new) }
        ensures err { OnErr result
            ((k : ℕ) × IsMerged st.old self.old (take k level.now) st.new self.new) }
    {
        for k in 0..level.len() {
            let (t, y) = *level.at(k);
            self.add(st, t, y)?;
        }
        Ok(())
    }

    /// Those of the packets that don't stand under a set. The only error is that memory ran out.
    pub fn unvisited(&self, st: &mut Store, t: SetId, y: Id) -> Result<Id, AllocError>
        requires visited { HaveSets st.old self.now }
        requires packets { IsSet st.old y }
        ensures grows { Grows st.old st.new }
        ensures ok { IfOk result (λ r. IsRest st.old self.now t y st.new r) }
    {
        match self.place(t) {
            Some(place) => {
                let rest = minus(st, y, self.pairs[place].1)?;
                Ok(rest)
            }
            None => Ok(y),
        }
    }
}
