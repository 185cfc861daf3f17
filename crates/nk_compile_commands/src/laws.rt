//! The laws that join compilation with the reading of table texts.
ghost use Rattle.nk_compile_commands.specs.TextTables.{CompilesInOrder, CompilesPrintable, PoliciesInOrder, PoliciesPrintable};

/// What compiling a name of a text's program prints is read back as itself, in all but one case: a switch with more groups
/// than the largest number of a text, 281,474,976,710,655.
pub fn compiled_tables_are_printable()
    ensures { CompilesPrintable }
{}

/// What compiling a name of a text's program prints is in order: groups ascend by number, matches and assignments by field.
pub fn compiled_tables_are_in_order()
    ensures { CompilesInOrder }
{}

/// What is printed for a policy without a name over such a program is read back as itself, in all but that case.
pub fn policies_tables_are_printable()
    ensures { PoliciesPrintable }
{}

/// What is printed for a policy without a name is in order.
pub fn policies_tables_are_in_order()
    ensures { PoliciesInOrder }
{}
