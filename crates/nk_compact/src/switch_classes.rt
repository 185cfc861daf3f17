//! Which classes have rows at which switch.
ghost use Rattle.std.specs.Prelude.{◌≡◌, ◌<◌, ◌≤◌, [], ◌∷◌, ◌++◌, All, IfOk, OnOk, length, map};
ghost use Rattle.nk_group.specs.declared.switch_tags.SwitchClasses.{SwitchClasses};
ghost use Rattle.nk_compact.specs.ClassesAtSwitches.{acting_of, class_among, classes_among, switch_classes_of};

use nk_field::List;
use nk_group::{ActingTag, ClassHere, SwitchClasses, SwitchTags};
use nk_store::Id;
use std::alloc::{AllocError, Global};

/// For each switch its classes with rows there: class 0, and each class to which one of the tags belongs that come there. These
/// tags act for it at the packets that are met under them, and the tag of its first member at all others.
pub fn classes_at_switches(
    alloc: Global,
    by_switch: &[SwitchTags],
    classes: &[u64],
    firsts: &[usize],
    met: &[Id],
) -> Result<List<SwitchClasses>, AllocError>
    requires tags { All (λ s. All (λ t. t ≤ length classes.now) s.tags) by_switch.now }
    requires met { length met.now ≡ length classes.now }
    requires firsts { All (λ i. i < length classes.now) firsts.now }
    ensures { IfOk result (λ r. r
        ≡ map (switch_classes_of classes.now met.now firsts.now) by_switch.now) }
{
    let mut all = List::new(alloc);
    for switch_entry in by_switch {
        let classes = classes_at(alloc, switch_entry.tags.as_slice(), classes, firsts, met)?;
        all.push(SwitchClasses {
            switch: switch_entry.switch,
            classes,
        })?;
    }
    Ok(all)
}

/// The classes to which these tags belong, class 0 in front.
fn classes_at(
    alloc: Global,
    tags: &[u64],
    classes: &[u64],
    firsts: &[usize],
    met: &[Id],
) -> Result<List<ClassHere>, AllocError>
    requires tags { All (λ t. t ≤ length classes.now) tags.now }
    requires met { length met.now ≡ length classes.now }
    requires firsts { All (λ i. i < length classes.now) firsts.now }
    ensures { IfOk result (λ r. r
        ≡ classes_among classes.now met.now firsts.now tags.now (length firsts.now)) }
{
    let mut here = List::new(alloc);
    here.push(start_class(alloc))?;
    for c in 0..firsts.len() {
        let class = c as u64 + 1;
        let acting = acting_tags(alloc, tags, classes, met, class)?;
        push_class(&mut here, acting, class, firsts[c] as u64 + 1)?;
    }
    Ok(here)
}

/// Class 0, which is tag 0 alone.
fn start_class(alloc: Global) -> ClassHere
    ensures { result ≡ record { class = 0; acting = []; other = 0 } }
{
    ClassHere {
        class: 0,
        acting: List::new(alloc),
        other: 0,
    }
}

/// Appends the class, if some tag acts for it.
fn push_class(
    here: &mut List<ClassHere>,
    acting: List<ActingTag>,
    class: u64,
    other: u64,
) -> Result<(), AllocError>
    ensures { OnOk result (here.new ≡ here.old ++ class_among acting class other) }
{
    if acting.is_empty() {
        return Ok(());
    }
    here.push(ClassHere {
        class,
        acting,
        other,
    })
}

/// Those of the tags that are of the class, each with its packets.
fn acting_tags(
    alloc: Global,
    tags: &[u64],
    classes: &[u64],
    met: &[Id],
    class: u64,
) -> Result<List<ActingTag>, AllocError>
    requires tags { All (λ t. t ≤ length classes.now) tags.now }
    requires met { length met.now ≡ length classes.now }
    ensures { IfOk result (λ r. r ≡ acting_of classes.now met.now class tags.now) }
{
    let mut acting = List::new(alloc);
    for t in tags {
        push_acting(&mut acting, *t, classes, met, class)?;
    }
    Ok(acting)
}

/// Appends the tag with its packets, if it is of the class.
fn push_acting(
    acting: &mut List<ActingTag>,
    t: u64,
    classes: &[u64],
    met: &[Id],
    class: u64,
) -> Result<(), AllocError>
    requires tag { t ≤ length classes.now }
    requires met { length met.now ≡ length classes.now }
    ensures { OnOk result (acting.new
        ≡ acting.old ++ acting_of classes.now met.now class (t ∷ [])) }
{
    if t == 0 || classes[t as usize - 1] != class {
        return Ok(());
    }
    acting.push(ActingTag {
        tag: t,
        packets: met[t as usize - 1],
    })
}
