//! What holds of a call that comes a second time.
ghost use Rattle.nk_algebra.specs.Again.{SecondCalls};

/// What an operation answered once it answers again, whatever was made in between: the same diagram, and the store stays
/// as it is, so no node is made. It does nothing.
pub fn second_calls()
    ensures { SecondCalls }
{}
