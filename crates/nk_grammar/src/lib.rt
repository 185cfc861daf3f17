//! The grammar of program texts: declarations and policies, and certificates after them, read token by token.
//!
//! ```text
//! file    : decl*
//!         | decl* certificate start more*
//! decl    : field NAME NUMBER
//!         | tag NAME
//!         | switch NUMBER ports NUMBER { , NUMBER }
//!         | link NUMBER : NUMBER -> NUMBER : NUMBER
//!         | let NAME = pol
//!         | fabric NAME = pol
//!         | virtual NUMBER : NUMBER -> NUMBER : NUMBER by NAME
//! start   : row start : pol
//! more    : row NUMBER { NUMBER } : pol
//! pol     : term { + term }
//! term    : factor { ; factor }
//! factor  : atom { * }
//! atom    : ~ atom | id | drop | dup | NAME | NAME = NUMBER | NAME in NUMBER .. NUMBER
//!         | NAME := NUMBER | NUMBER : NUMBER => NUMBER : NUMBER | ( pol )
//! ```
//!
//! `file` reads texts without a certificate, `file_with_certificate` those with one; `TextParser` and `CertificateParser` read them token
//! by token, and keep nothing that is done.
//!
//! Several terms are one sum, and several factors one sequence; a single one is only itself. Several
//! `*` after one atom are one star. Parentheses have no node of their own in the tree. A `(` is open
//! until its `)`, and a `~` until the end of its atom; no more than 256 may be open at once.
#![tactic(auto)]

mod ast;
mod build;
mod certificate_parser;
mod certified;
mod decl;
mod frame;
mod laws;
mod parts;
mod place;
mod reader;
mod text;
mod text_parser;

pub use ast::{Ast, Asts};
pub use certificate_parser::{CertificateParser, file_with_certificate};
pub use decl::{CertRow, Completed, Decl, File, GrammarError};
pub use laws::{
    a_certified_reader_stops_at_the_first_fault, a_certified_text_has_one_tree,
    a_certified_text_is_read_token_by_token, a_program_and_a_certificate_are_read_together,
    a_program_stays_in_front_of_its_certificate, a_text_has_one_tree, certificate_texts_are_read,
    certificates_are_moved, certificates_are_read, certified_texts_are_answered,
    fields_of_texts_have_names, let_texts_are_read, lets_are_read, policies_are_read,
    texts_are_answered, texts_are_read, what_is_completed_is_written, what_is_read_is_a_policy,
    what_is_refused_goes_nowhere, what_is_taken_goes_on,
};
pub use text_parser::{TextParser, file};
