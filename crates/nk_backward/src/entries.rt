//! The entries of all levels as one list.
ghost use Rattle.std.specs.Prelude.{◌≡◌, ◌++◌, IfOk, OnOk};
ghost use Rattle.nk_backward.specs.Transitions.{explored_entries};

use nk_determ::{Levels, SetId};
use nk_field::List;
use nk_store::Id;
use std::alloc::{AllocError, Global};

/// The entries of all levels, in turn.
pub(crate) fn all_entries(alloc: Global, l: &Levels) -> Result<List<(SetId, Id)>, AllocError>
    ensures { IfOk result (λ es. es ≡ explored_entries l.now.levels) }
{
    let mut all = List::new(alloc);
    for k in 0..l.levels.len() {
        push_level(&mut all, l.levels.at(k).as_slice())?;
    }
    Ok(all)
}

/// Puts the entries of a level after others.
fn push_level(all: &mut List<(SetId, Id)>, level: &[(SetId, Id)]) -> Result<(), AllocError>
    ensures { OnOk result (all.new ≡ all.old ++ level.now) }
{
    for pair in level {
        all.push(*pair)?;
    }
    Ok(())
}
