//! What can be read and what can be written.
ghost use Rattle.std.specs.Prelude.{List, ℕ};
ghost use Rattle.std.specs.declared.option.Option.{Option};
ghost use Rattle.std.specs.Io.{ReadsAtMost};
ghost use Rattle.std.specs.Io.KnownBytes.{ReadConsumes};
ghost use Rattle.nk_io.specs.Faults.{HasCause, Takes};

use thiserror::Error;

/// A call failed, and the object's count of faults rose.
#[derive(Clone, Copy, Debug, PartialEq, Eq, Error)]
#[error("failed")]
pub struct Failed;

/// What gives bytes.
pub trait Source {
    /// The bytes that are left, where the object tells that.
    ghost left: { Self → Option (List ℕ) };

    /// How often a call has failed. It never falls.
    ghost faults: { Self → ℕ };

    /// Reads the next bytes into the front of the slice and says how many. Where the slice has
    /// room, 0 comes exactly where nothing is left.
    fn read(&mut self, into: &mut [u8]) -> Result<usize, Failed>
        ensures bound { ReadsAtMost result into.new }
        ensures bytes { ReadConsumes (left self.old) (left self.new) result into.new }
        ensures cause { HasCause (faults self.old) (faults self.new) result };
}

/// What takes bytes.
pub trait Sink {
    /// The bytes that were taken, where the object tells that.
    ghost taken: { Self → Option (List ℕ) };

    /// How often a call has failed. It never falls.
    ghost faults: { Self → ℕ };

    /// Takes bytes from the front of the piece and says how many: at least one, unless the piece is
    /// empty. A call that fails takes none.
    fn write(&mut self, bytes: &[u8]) -> Result<usize, Failed>
        ensures bytes { Takes (taken self.old) (taken self.new) result bytes.now }
        ensures cause { HasCause (faults self.old) (faults self.new) result };
}
