//! Laws of the texts of packets.
ghost use Rattle.nk_field.specs.Texts.{ReadsPrinted};

/// What is printed of a packet without the tag is read as the packet with tag 0, where no field's name but the tag's
/// has a comma. The values of the fields are below 2 to the 64, as those of `Fields` are.
pub fn printed_packets_are_read()
    ensures { ReadsPrinted }
{}
