//! The laws that join compilation with few tags with the reading of table texts.
ghost use Rattle.nk_compact_command.specs.TextTables.{CompactsInOrder, CompactsPrintable};

/// What compacting a name of a text's program prints is read back as itself, in all but one case: a switch with more groups
/// than the largest number of a text, 281,474,976,710,655.
pub fn compacted_tables_are_printable()
    ensures { CompactsPrintable }
{}

/// What compacting a name of a text's program prints is in order.
pub fn compacted_tables_are_in_order()
    ensures { CompactsInOrder }
{}
