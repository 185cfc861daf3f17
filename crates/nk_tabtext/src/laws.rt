//! What reading has to do with printing, and with the declarations of programs.
ghost use Rattle.nk_tabtext.specs.Alike.{DeclaresAlike};
ghost use Rattle.nk_tabtext.specs.Progress.{ReadsAsWhole, StopsWithTexts};
ghost use Rattle.nk_tabtext.specs.ReadBack.{AnswersPrintable, ReadsPrintedTables};

/// What is printed of tables is read back as these tables, wherever they keep the rules of a text. Their fields, names
/// and largest values can be declared, a tag among them; each switch has a port and exactly one table, in the order of
/// the switches; groups ascend by number and have a bucket; matches and assignments ascend by field. A match is of a
/// field but the switch, with a value in its range; at least one digit of the value counts, at most as many as the
/// field's largest value has, and the digits after those are zeros.
pub fn printed_tables_are_read()
    ensures { ReadsPrintedTables }
{}

/// The tables that are read from any text are such tables.
pub fn read_tables_are_printable()
    ensures { AnswersPrintable }
{}

/// A table text's declarations have a fault exactly where the same declarations of any text, and so of a program, have
/// one, at the same line; without a fault they mean the same.
pub fn table_texts_declare_as_programs_do()
    ensures { DeclaresAlike }
{}

/// Read token by token, a text is what it is as a whole, or has the same first fault.
pub fn a_text_is_read_token_by_token()
    ensures { ReadsAsWhole }
{}

/// A reader has stopped exactly where no text goes on with the tokens.
pub fn a_reader_stops_where_no_text_goes_on()
    ensures { StopsWithTexts }
{}
