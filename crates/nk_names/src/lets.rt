//! The policies of a text by name.
ghost use Rattle.std.specs.Prelude.{◌≡◌, ℕ, List as Items, ◌++◌, ◌∷◌, [], map, option_map, None, IfSome, OnErr, OnOk, ◌<◌, length};
ghost use Rattle.std.specs.Cmp.Lexicographic.{pointwise};
ghost use Rattle.std.specs.Bool.{nat_eq};
ghost use Rattle.std.specs.HashMap.{get_by};
ghost use Rattle.std.specs.List.{position_from};
ghost use Rattle.std.specs.Str.{bytes_eq};
ghost use Rattle.nk_names.specs.Meant.{policy_among};
ghost use Rattle.nk_names.specs.Shape.{shape_of};

use crate::named_policy::NamedPolicy;
use crate::shape::Shape;
use nk_field::List;
use std::alloc::{AllocError, Global};
use std::collections::HashMap;

/// Policies in the order of the text, each with its name, what is known of it, and its index by its name.
pub(crate) struct Lets {
    pub(crate) entries: Vec<(List<u8>, NamedPolicy)>,
    shapes: Vec<Shape>,
    places: HashMap<Vec<u8>, usize>,
    ghost shaped: { shapes.items ≡ map (λ e. shape_of e.1) entries.items },
    ghost placed: { (q : Items ℕ) → get_by (λ k. pointwise nat_eq q k.items) places
        ≡ position_from (λ e. bytes_eq e.0 q) 0 entries.items },
}

impl Drop for Lets {
    fn drop(self) {
        let Self {
            entries: _,
            shapes: _,
            places: _,
        } = self;
    }
}

impl Lets {
    /// No policy.
    pub(crate) fn new(alloc: Global) -> Lets
        ensures { result.entries.items ≡ [] }
    {
        Lets {
            entries: Vec::new(alloc),
            shapes: Vec::new(alloc),
            places: HashMap::new(alloc),
        }
    }

    /// The index of the policy with the name, if there is one.
    fn place(&self, name: &[u8]) -> Option<usize>
        ensures place { result ≡ position_from
            (λ e. bytes_eq e.0 name.now) 0 self.now.entries.items }
        ensures within { IfSome result (λ i. i < length self.now.entries.items) }
    {
        self.places.get(name).copied()
    }

    /// The policy with the name.
    pub(crate) fn policy(&self, name: &[u8]) -> Option<&NamedPolicy>
        ensures { option_map (λ p. p.now) result
            ≡ policy_among self.now.entries.items name.now }
    {
        match self.place(name) {
            Some(place) => Some(&self.entries[place].1),
            None => None,
        }
    }

    /// What is known of the policy with the name.
    pub(crate) fn shape(&self, name: &[u8]) -> Option<Shape>
        ensures { result ≡ option_map shape_of (policy_among self.now.entries.items name.now) }
    {
        match self.place(name) {
            Some(place) => Some(self.shapes[place]),
            None => None,
        }
    }

    /// The names with their policies, in the order of the text.
    pub(crate) fn into_list(self) -> List<(List<u8>, NamedPolicy)>
        ensures { result ≡ self.entries.items }
    {
        let Lets {
            entries,
            shapes: _,
            places: _,
        } = self;
        List::from_vec(entries)
    }

    /// One more policy, with a new name, after the others. Where memory ran out, nothing changed.
    pub(crate) fn add(
        &mut self,
        alloc: Global,
        name: &[u8],
        policy: NamedPolicy,
        shape: Shape,
    ) -> Result<(), AllocError>
        requires new { policy_among self.old.entries.items name.now ≡ None }
        requires shape { shape ≡ shape_of policy }
        ensures ok { OnOk result
            (self.new.entries.items ≡ self.old.entries.items ++ (name.now, policy) ∷ []) }
        ensures kept { OnErr result (self.new.entries.items ≡ self.old.entries.items) }
    {
        let key = Vec::from_slice(alloc, name)?;
        let own = List::from_vec(Vec::from_slice(alloc, name)?);
        self.entries.reserve(1)?;
        self.shapes.reserve(1)?;
        self.places.insert(key, self.entries.len())?;
        self.shapes.push(shape).unwrap();
        self.entries.push((own, policy)).unwrap();
        Ok(())
    }
}
