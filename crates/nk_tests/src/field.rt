//! Eighteen fields, a packet over them, acts, a history of one, and how acts and lists compare.
use nk_field::{Act, Fid, Fields, FieldsError, History, List, Packet, Short, packet_text};
use std::alloc::{AllocError, Global};
use std::cmp::Ordering;
use std::hash::{DefaultHasher, Hash, Hasher};
use std::test::Fail;

/// What a hasher makes of a value.
fn hash_of<T: Hash>(value: &T) -> u64 {
    let mut state = DefaultHasher::new();
    value.hash(&mut state);
    state.finish()
}

/// How two values compare, if equality, both orders and the hash agree about them.
fn order_of<T: Ord + Hash>(a: &T, b: &T) -> Option<Ordering> {
    let order = a.cmp(b);
    let equal = order == Ordering::Equal;
    let hashed_alike = hash_of(a) == hash_of(b);
    if a.partial_cmp(b) == Some(order) && (a == b) == equal && hashed_alike == equal {
        Some(order)
    } else {
        None
    }
}

/// The names of the fields after `vlan`, as many as there can be.
const NAMES: [&str; 15] = [
    "a", "b", "c", "d", "e", "f", "g", "h", "i", "j", "k", "l", "m", "n", "o",
];

/// Whether a field of the name is refused for this reason.
fn is_refused(fields: &mut Fields, name: &str, error: FieldsError) -> bool {
    fields.add(name, 9) == Err(error)
}

/// The fields with `vlan` as the tag, which must be the first one declared.
fn with_vlan(alloc: Global) -> Result<Fields, Fail> {
    let mut fields = Fields::new(alloc)?;
    let tag = fields.add("vlan", 4095)?;
    fields.set_tag(tag);
    Ok(fields)
}

fn add_names(fields: &mut Fields) -> Result<(), FieldsError> {
    for name in NAMES {
        fields.add(name, 0)?;
    }
    Ok(())
}

/// A copy of eighteen fields, if one more is refused, and a name that is there already too.
fn eighteen_fields(alloc: Global) -> Result<Option<Fields>, Fail> {
    let mut fields = with_vlan(alloc)?;
    let is_twice = is_refused(&mut fields, "sw", FieldsError::FieldTwice);
    add_names(&mut fields)?;
    if is_twice && is_refused(&mut fields, "p", FieldsError::TooManyFields) {
        Ok(Some(fields.copy()?))
    } else {
        Ok(None)
    }
}

/// Whether these are the eighteen fields.
fn are_eighteen(fields: &Fields) -> bool {
    let (tag, last) = (Fid::new(2), Fid::new(17));
    (fields.len(), fields.declared(), fields.tag()) == (18, 16, Some(tag))
        && (fields.find("o"), fields.find("p")) == (Some(last), None)
        && fields.name(tag) == "vlan"
        && (fields.max(last), fields.max(tag)) == (0, 4095)
}

/// Whether a packet over the eighteen fields keeps two values, and without its tag the second one.
fn keeps_values(fields: &Fields) -> bool {
    let (tag, last) = (Fid::new(2), Fid::new(17));
    if fields.len() != 18 || fields.max(tag) != 4095 {
        return false;
    }
    let mut packet = Packet::zero();
    packet.set(fields, tag, 4095);
    packet.put(last, 5);
    let before = (packet.get(tag), packet.get(last));
    packet.erase_tag(fields);
    before == (4095, 5) && (packet.get(tag), packet.get(last)) == (0, 5)
}

fn eighteen_are_kept(alloc: Global) -> Result<bool, Fail> {
    match eighteen_fields(alloc)? {
        Some(fields) => Ok(are_eighteen(&fields) && keeps_values(&fields)),
        None => Ok(false),
    }
}

#[test]
fn a_packet_over_eighteen_fields(rt: HostRuntime) -> Result<(), Fail> {
    assert!(rt; eighteen_are_kept(rt.alloc())?);
    Ok(())
}

/// The switch, the port, `dst`, and `vlan` as the tag.
fn tagged_fields(alloc: Global) -> Result<Fields, Fail> {
    let mut fields = Fields::new(alloc)?;
    fields.add("dst", 3)?;
    let tag = fields.add("vlan", 7)?;
    fields.set_tag(tag);
    Ok(fields)
}

/// A packet with four values.
fn four_values() -> Packet {
    let mut packet = Packet::zero();
    packet.put(Fid::SWITCH, 1);
    packet.put(Fid::PORT, 2);
    packet.put(Fid::new(2), 3);
    packet.put(Fid::new(3), 5);
    packet
}

/// Whether the packet is printed so, with its tag or without.
fn is_printed(alloc: Global, with_tag: bool, text: &[u8]) -> Result<bool, Fail> {
    let fields = tagged_fields(alloc)?;
    Ok(packet_text(alloc, &fields, &four_values(), with_tag)?.as_slice() == text)
}

#[test]
fn a_packet_with_its_tag_and_without(rt: HostRuntime) -> Result<(), Fail> {
    let alloc = rt.alloc();
    assert!(rt; is_printed(alloc, true, b"sw=1,pt=2,dst=3,vlan=5")?);
    assert!(rt; is_printed(alloc, false, b"sw=1,pt=2,dst=3")?);
    Ok(())
}

/// An act with `sw` set after it.
fn with_switch(alloc: Global, act: &Act, value: u64) -> Result<Act, AllocError> {
    let set = Act::one(alloc, Fid::SWITCH, value)?;
    act.then(&set)
}

/// `pt:=2;sw:=1`.
fn port_and_switch(alloc: Global) -> Result<Act, AllocError> {
    let port = Act::one(alloc, Fid::PORT, 2)?;
    with_switch(alloc, &port, 1)
}

/// A copy of an act with `sw:=6` after it.
fn with_later_switch(alloc: Global, act: &Act) -> Result<Act, AllocError> {
    let both = with_switch(alloc, act, 6)?;
    both.copy()
}

/// Whether the act without its switch is `pt:=2`.
fn leaves_the_port(alloc: Global, act: &Act) -> Result<bool, AllocError> {
    let port = Act::one(alloc, Fid::PORT, 2)?;
    let left = act.without(alloc, Fid::SWITCH)?;
    Ok(left == port)
}

/// Whether a later value of the switch takes the place of the act's own.
fn later_stands(alloc: Global, first: &Act) -> Result<bool, AllocError> {
    let both = with_later_switch(alloc, first)?;
    if order_of(first, &both) != Some(Ordering::Less) || both.as_slice().len() != 2 {
        return Ok(false);
    }
    leaves_the_port(alloc, &both)
}

fn the_later_value_is_kept(alloc: Global) -> Result<bool, AllocError> {
    let first = port_and_switch(alloc)?;
    later_stands(alloc, &first)
}

#[test]
fn the_later_value_stands(rt: HostRuntime) -> Result<(), Fail> {
    assert!(rt; the_later_value_is_kept(rt.alloc())?);
    Ok(())
}

/// A history of one record that ends where the port is set to 2.
fn one_record(alloc: Global) -> Result<History, AllocError> {
    let start = Act::none(alloc).apply(&Packet::zero());
    let last = Act::one(alloc, Fid::PORT, 2)?.apply(&start);
    let mut records = List::new(alloc);
    records.push(start)?;
    Ok(History { records, last })
}

fn history_is_copied(alloc: Global) -> Result<bool, AllocError> {
    let history = one_record(alloc)?;
    let last = (history.last.get(Fid::SWITCH), history.last.get(Fid::PORT));
    Ok(last == (0, 2) && history.copy()? == history)
}

#[test]
fn a_history_of_an_act(rt: HostRuntime) -> Result<(), Fail> {
    assert!(rt; history_is_copied(rt.alloc())?);
    Ok(())
}

/// The list of 2 and 9.
fn two_values(alloc: Global) -> Result<List<u64>, AllocError> {
    Ok(List::from_vec([2, 9].to_vec(alloc)?))
}

/// The list of 2, 5 and 3, made of the first one.
fn three_values(alloc: Global) -> Result<List<u64>, AllocError> {
    let mut list = two_values(alloc)?.copy()?;
    list.push(3)?;
    if list.len() == 3 && !list.is_empty() {
        list.put(1, 5);
    }
    Ok(list)
}

/// Whether a copy of the list compares as the same.
fn is_as_its_copy(list: &List<u64>) -> Result<bool, AllocError> {
    Ok(order_of(list, &list.copy()?) == Some(Ordering::Equal))
}

/// Whether the list is below that of 2 and 9.
fn is_below_two_values(alloc: Global, list: &List<u64>) -> Result<bool, AllocError> {
    let before = two_values(alloc)?;
    Ok(order_of(&before, list) == Some(Ordering::Greater))
}

fn lists_compare(alloc: Global) -> Result<bool, AllocError> {
    let list = three_values(alloc)?;
    let compares = is_below_two_values(alloc, &list)? && is_as_its_copy(&list)?;
    let values = list.into_vec();
    Ok(compares && values.as_slice() == [2, 5, 3].as_slice())
}

fn second_is_put(alloc: Global) -> Result<bool, AllocError> {
    let list = three_values(alloc)?;
    Ok(list.len() == 3 && *list.at(1) == 5)
}

#[test]
fn lists_compare_as_slices_do(rt: HostRuntime) -> Result<(), Fail> {
    let alloc = rt.alloc();
    assert!(rt; second_is_put(alloc)?);
    assert!(rt; lists_compare(alloc)?);
    Ok(())
}

/// The short list of 9.
fn short_list(alloc: Global) -> Result<Short<u64>, AllocError> {
    let mut short = Short::new(alloc);
    short.push(9)?;
    Ok(short)
}

/// A copy of the list with 1 to 4 after it.
fn longer_list(short: &Short<u64>) -> Result<Short<u64>, AllocError> {
    let mut longer = short.copy()?;
    for value in 1..5u64 {
        longer.push(value)?;
    }
    Ok(longer)
}

fn short_is_as_its_copy(alloc: Global) -> Result<bool, AllocError> {
    let short = short_list(alloc)?;
    Ok(order_of(&short, &short.copy()?) == Some(Ordering::Equal))
}

fn longer_is_above(alloc: Global) -> Result<bool, AllocError> {
    let short = short_list(alloc)?;
    let longer = longer_list(&short)?;
    let is_above = order_of(&short, &longer) == Some(Ordering::Less);
    Ok(is_above && longer.len() == 5 && *longer.at(4) == 4)
}

#[test]
fn short_lists_compare_as_slices_do(rt: HostRuntime) -> Result<(), Fail> {
    let alloc = rt.alloc();
    assert!(rt; short_is_as_its_copy(alloc)?);
    assert!(rt; longer_is_above(alloc)?);
    Ok(())
}
