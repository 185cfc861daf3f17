//! An input piece by piece, with a count of its bytes so far.
ghost use Rattle.std.specs.Prelude.{◌≡◌, ◌<◌, ◌≤◌, length, IfOk, IfErr, OnOk};
ghost use Rattle.std.specs.Io.KnownBytes.{IsAtEnd};
ghost use Rattle.nk_io.specs.Piece.{longest, GivesPiece, IsNoneAtEnd, IsPieceCause};

use crate::Source;
use std::marker::Model;
use thiserror::Error;

/// The most bytes that one input may have.
pub const LONGEST: u64 = 16_777_216;

/// How many bytes of an input were taken so far, up to the last u64. A contract sees it as that number.
#[derive(Drop)]
pub struct Taken {
    count: u64,
}

impl Model for Taken {
    ghost use Rattle.std.specs.Prelude.{ℕ};

    ghost Value = { ℕ };

    ghost view = { λ t. t.count };
}

impl Taken {
    /// A count of no bytes.
    pub fn new() -> Self
        ensures { result ≡ 0 }
    {
        Taken { count: 0 }
    }

    /// How many bytes were taken, up to the last u64.
    pub fn count(&self) -> u64
        ensures { result ≡ self.now }
    {
        self.count
    }
}

/// Why no further piece was given.
#[derive(Clone, Copy, Debug, PartialEq, Eq, Error)]
pub enum PieceError {
    /// A call of the source failed.
    #[error("read fault")]
    ReadFault,
    /// The bytes so far are more than `LONGEST`.
    #[error("too long")]
    TooLong,
}

/// Reads the next bytes of the source into the front of the slice and says how many they are: 0 exactly
/// at the end. A call that fails is never taken for the end. Bytes that go past the limit are counted
/// too.
pub fn next_piece<S: Source>(
    source: &mut S,
    taken: &mut Taken,
    into: &mut [u8],
) -> Result<usize, PieceError>
    requires room { 0 < length into.now }
    ensures piece { IfOk result (GivesPiece (S.left source.old) (S.left source.new)
        taken.old taken.new into.new) }
    ensures end { IfOk result (IsNoneAtEnd (S.left source.old)) }
    ensures ended { IfOk result (λ n. n ≡ 0 → IsAtEnd (S.left source.new)) }
    ensures within { OnOk result (taken.new ≤ longest) }
    ensures same { OnOk result (S.faults source.new ≡ S.faults source.old) }
    ensures cause { IfErr result (IsPieceCause (S.left source.old) (S.left source.new)
        taken.old taken.new (S.faults source.old) (S.faults source.new) into.new) }
{
    match source.read(into) {
        Ok(count) => {
            taken.count = taken.count.saturating_add(count as u64);
            if taken.count > LONGEST {
                return Err(PieceError::TooLong);
            }
            Ok(count)
        }
        Err(_) => Err(PieceError::ReadFault),
    }
}
