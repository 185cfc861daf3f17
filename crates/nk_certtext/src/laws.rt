//! Laws of reading the rows of a certificate: they are read by the grammar, and what is printed is read back.
ghost use Rattle.nk_certtext.specs.Printed.{PrintsPredicates, PrintsPrintable, ReadsPrintedFor};
ghost use Rattle.nk_certtext.specs.ReadBack.{HaveStartRows, IsMetBySmall, ReadsPrintedCertificates};

use nk_grammar::{
    a_program_and_a_certificate_are_read_together, certificate_texts_are_read,
    certified_texts_are_answered,
};
use nk_names::laws::{declared_fields_are_writable, printed_predicates_are_read_back};

/// What is printed of a certificate, after the text of any program and a line feed, is read as that program's
/// declarations and as rows that make that certificate. This holds for each certificate over the program's fields whose
/// predicates have values in range, are at most 256 deep and have no sum or sequence of exactly one part, of any size;
/// its later rows have at least one position, strictly ascending ones, and no two rows the same.
pub fn printed_certificates_are_read()
    ensures { ReadsPrintedCertificates }
{
    declared_fields_are_writable();
    printed_predicates_are_read_back();
    certificate_texts_are_read();
    a_program_and_a_certificate_are_read_together();
}

/// The certificate that is printed for two policies is one whose text is read back, and its rows have predicates, as
/// `nk_check::check` asks. What is printed of it, after the text of any program with their fields and a line feed, is read as that
/// program's declarations and as rows that make that certificate. The policies are numbered one after the other and have fewer
/// than 2 ^ 32 dups.
pub fn certificates_of_policies_are_read()
    ensures printable { PrintsPrintable }
    ensures predicates { PrintsPredicates }
    ensures read { ReadsPrintedFor }
{
    declared_fields_are_writable();
    printed_certificates_are_read();
}

/// The premises of that law can hold: a small certificate over the switch and the port, with its text.
pub fn a_small_certificate_is_printable()
    ensures { IsMetBySmall }
{}

/// The rows of each text with a certificate begin with a start row, as `read_cert` asks.
pub fn certified_texts_have_a_start_row()
    ensures { HaveStartRows }
{
    certified_texts_are_answered();
}
