//! The numbers of targets, where tags share those of their classes.
ghost use Rattle.std.specs.Prelude.{◌≡◌, ◌≤◌, Some, All, IfOk, length, map};
ghost use Rattle.nk_group.specs.Classed.{class_of, numbered_target, IsTagWithin};

use nk_field::List;
use std::alloc::{AllocError, Global};

/// The number of each target's tag, by place. The only error is that memory ran out.
pub fn class_targets(
    alloc: Global,
    table: &[Option<u64>],
    classes: &[u64],
) -> Result<List<Option<u64>>, AllocError>
    requires within { All (IsTagWithin (length classes.now)) table.now }
    ensures { IfOk result (λ r. r ≡ map (numbered_target classes.now) table.now) }
{
    let mut numbers = List::new(alloc);
    for tag in table {
        numbers.push(number_of(classes, *tag))?;
    }
    Ok(numbers)
}

/// The number of a tag's class, if there is a tag.
fn number_of(classes: &[u64], tag: Option<u64>) -> Option<u64>
    requires within { IsTagWithin (length classes.now) tag }
    ensures { result ≡ numbered_target classes.now tag }
{
    match tag {
        None => None,
        Some(t) => Some(class_number(classes, t)),
    }
}

/// The number of a tag's class.
fn class_number(classes: &[u64], t: u64) -> u64
    requires within { t ≤ length classes.now }
    ensures { result ≡ class_of classes.now t }
{
    if t == 0 { 0 } else { classes[t as usize - 1] }
}
