//! Switches with their tags, or with their classes of tags, and the diagrams of these.
use nk_field::List;
use nk_store::Id;

/// A switch with the tags that have rows there, ascending.
#[derive(Drop)]
pub struct SwitchTags {
    /// The switch's number.
    pub switch: u16,
    /// The tags, 0 among them.
    pub tags: List<u64>,
}

/// A tag with the diagram of what its states do at a switch.
#[derive(Clone, Copy)]
pub struct TagState {
    /// The tag.
    pub tag: u64,
    /// The diagram; its targets are 0 and 1 + the numbers of sets of labels.
    pub diagram: Id,
}

/// A switch with the diagrams of its tags.
#[derive(Drop)]
pub struct SwitchStates {
    /// The switch's number.
    pub switch: u16,
    /// The tags with their diagrams, in the order of the tags.
    pub tag_states: List<TagState>,
}

/// A tag with the packets at which its states act for its class.
#[derive(Clone, Copy)]
pub struct ActingTag {
    /// The tag.
    pub tag: u64,
    /// The packets, a set: those that are in it once their tag is set to 0.
    pub packets: Id,
}

/// A class of tags that has rows at a switch.
#[derive(Drop)]
pub struct ClassHere {
    /// The class's number, which stands in the packets for all its tags.
    pub class: u64,
    /// The tags that act for it at packets of theirs; where a packet is of several, the first of these acts.
    pub acting: List<ActingTag>,
    /// The tag that acts at each other packet.
    pub other: u64,
}

/// A switch with the classes that have rows there, in the order of the rows.
#[derive(Drop)]
pub struct SwitchClasses {
    /// The switch's number.
    pub switch: u16,
    /// The classes, class 0 among them.
    pub classes: List<ClassHere>,
}
