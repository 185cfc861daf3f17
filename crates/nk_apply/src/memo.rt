//! What a traversal has made of diagrams.
ghost use Rattle.std.specs.Prelude.{◌≡◌, ℕ, if◌then◌else◌, nat_eq, false, [], Some, None, OnOk, option_copied, reverse};
ghost use Rattle.std.specs.Map.{lookup};

use nk_field::List;
use nk_store::Id;
use std::alloc::{AllocError, Global};
use std::collections::HashMap;
use std::marker::Model;

/// How many entries are kept in a list before others go into a hash table. Most traversals visit
/// fewer diagrams, and would pay more for the memory of a hash table than for all their lookups.
const FEW: usize = 8;

/// What a traversal has made of diagrams, by diagram. A contract sees it as a list of entries. If
/// several entries have the same diagram, the first one counts.
pub struct Memo<V> {
    few: List<(Id, V)>,
    more: HashMap<Id, V>,
}

impl<V: Drop> Drop for Memo<V> {
    fn drop(self) {
        let Self { few: _, more: _ } = self;
    }
}

impl<V> Model for Memo<V> {
    ghost use Rattle.std.specs.Prelude.{ℕ, List, ◌++◌, reverse};
    ghost use Rattle.std.specs.Coded.{coded_list, coded×, coded_ℕ};

    ghost Value = { List (ℕ × V) };

    ghost coded = { coded_list (coded× coded_ℕ V.code) };

    ghost view = { λ m. reverse m.few ++ m.more.entries };
}

impl<V: Drop> Memo<V> {
    /// Of no diagram; it takes no memory.
    pub fn new(alloc: Global) -> Memo<V>
        ensures { result ≡ [] }
    {
        Memo {
            few: List::new(alloc),
            more: HashMap::new(alloc),
        }
    }

    /// What was made of a diagram, if it was visited before.
    pub fn get(&self, d: Id) -> Option<&V>
        ensures { option_copied result ≡ lookup (nat_eq d) self.now }
    {
        match latest(self.few.as_slice(), d) {
            Some(r) => Some(r),
            None => hashed(&self.more, d),
        }
    }

    /// Keeps what was made of a diagram. The only error is that memory ran out.
    pub fn insert(&mut self, d: Id, r: V) -> Result<(), AllocError>
        ensures found { OnOk result ((q : ℕ) → lookup (nat_eq q) self.new
            ≡ (if nat_eq d q then Some r else lookup (nat_eq q) self.old)) }
        ensures there { OnOk result (lookup (nat_eq d) self.new ≡ Some r) }
    {
        if is_next_few(self.few.as_slice(), d) {
            self.few.push((d, r))?;
            return Ok(());
        }
        self.more.insert(d, r)?;
        Ok(())
    }
}

/// What the hash table has for a diagram. An empty table isn't searched.
fn hashed<V>(more: &HashMap<Id, V>, d: Id) -> Option<&V>
    ensures { option_copied result ≡ lookup (nat_eq d) more.now.entries }
{
    if more.is_empty() {
        return None;
    }
    more.get(&d)
}

/// Whether a new entry of a diagram goes into this list. It does if the list is short, or if the list
/// has an entry of the diagram already.
fn is_next_few<V>(few: &[(Id, V)], d: Id) -> bool
    ensures { result ≡ false → lookup (nat_eq d) (reverse few.now) ≡ None }
{
    if few.len() < FEW {
        return true;
    }
    latest(few, d).is_some()
}

/// What the last entry of a diagram in the list says was made of it.
fn latest<V>(entries: &[(Id, V)], d: Id) -> Option<&V>
    ensures { option_copied result ≡ lookup (nat_eq d) (reverse entries.now) }
{
    for i in (0..entries.len()).rev() {
        if entries[i].0 == d {
            return Some(&entries[i].1);
        }
    }
    None
}
