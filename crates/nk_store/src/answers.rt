//! Answers of operations that are kept.
ghost use Rattle.std.specs.Prelude.{◌≡◌, [], if◌then◌else◌, Some, OnOk, OnErr};
ghost use Rattle.std.specs.Map.{lookup};
ghost use Rattle.nk_store.specs.declared.operation.Key.{Key};
ghost use Rattle.nk_store.specs.Keys.{key_of, key_eq, with_answer};

use crate::identity_hasher::IdentityHasher;
use crate::node::Id;
use crate::operation::{Key, Operation};
use std::alloc::{AllocError, Global};
use std::collections::HashMap;
use std::hash::BuildHasherDefault;
use std::marker::Model;

/// Answers, each found by its operation and its diagrams. An operation on one diagram has it twice. The contract value has them
/// in the order of what they are found by, whatever order the map has.
#[derive(Drop)]
pub(crate) struct Answers {
    answers: HashMap<Key, Id, BuildHasherDefault<IdentityHasher>>,
}

impl Model for Answers {
    ghost use Rattle.std.specs.Prelude.{ℕ, List};
    ghost use Rattle.nk_store.specs.declared.operation.Key.{Key};
    ghost use Rattle.nk_store.specs.Keys.{arranged};

    ghost Value = { List (Key × ℕ) };

    ghost view = { λ s. arranged s.answers.entries };
}

impl Answers {
    /// No answer.
    pub(crate) fn new(alloc: Global) -> Answers
        ensures { result ≡ [] }
    {
        Answers {
            answers: HashMap::with_hasher(alloc, BuildHasherDefault::new()),
        }
    }

    /// The answer that was kept last for an operation and two diagrams.
    pub(crate) fn recall(&self, operation: Operation, a: Id, b: Id) -> Option<Id>
        ensures { result ≡ lookup (key_eq (key_of operation a b)) self.now }
    {
        self.answers.get(&key(operation, a, b)).copied()
    }

    /// Keeps an answer; where memory runs out, all stays as it was.
    pub(crate) fn keep(
        &mut self,
        operation: Operation,
        a: Id,
        b: Id,
        d: Id,
    ) -> Result<(), AllocError>
        ensures answers { OnOk result (self.new ≡ with_answer self.old (key_of operation a b) d) }
        ensures found { OnOk result ((q : Key) → lookup (key_eq q) self.new
            ≡ (if key_eq (key_of operation a b) q then Some d
            else lookup (key_eq q) self.old)) }
        ensures err { OnErr result (self.new ≡ self.old) }
    {
        self.answers.insert(key(operation, a, b), d)?;
        Ok(())
    }
}

/// What an answer is found by.
fn key(operation: Operation, left: Id, right: Id) -> Key
    ensures { result ≡ key_of operation left right }
{
    Key {
        operation,
        left,
        right,
    }
}
