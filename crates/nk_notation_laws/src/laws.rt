//! What holds of every text with addresses.
ghost use Rattle.nk_notation_laws.specs.Laws.{BrokenQueriesAreLeft, CertificatesAreLeft, CompactsAreLeft, DifferencesAreLeft, FlightsAreLeft, HistoriesAreLeft, ImpactsAreLeft, InGivesBack, InIsIdempotent, OutRefusesNothing, PlainTextsAreLeft, PoliciesAreLeft, PrintedCertificatesAreLeft, PrintedPoliciesAreLeft, PrintedProgramsAreLeft, RefusalsAreLeft, TablesAreLeft, TracesAreLeft, UpdatesAreLeft, VirtualRefusalsAreLeft};

/// What `in` makes of a text, it leaves as it is, where it refuses nothing in the text.
pub fn in_is_idempotent()
    ensures { InIsIdempotent }
{}

/// `out` refuses nothing.
pub fn out_refuses_nothing()
    ensures { OutRefusesNothing }
{}

/// Whatever fields a command line names: `in` gives a text back from what `out` made of the text, exactly where `in` leaves the
/// text as it is.
pub fn in_gives_back()
    ensures { InGivesBack }
{}

/// A text that lexemes of nk make with plain numbers is left by `in` as it is: names, numbers, ranges, prefixes, ports and assignments.
pub fn plain_texts_are_left()
    ensures { PlainTextsAreLeft }
{}

/// The text of a `let` of a policy, as nk writes one, is left by `in` as it is.
pub fn policies_are_left()
    ensures { PoliciesAreLeft }
{}

/// So is the text of a certificate.
pub fn certificates_are_left()
    ensures { CertificatesAreLeft }
{}

/// So are the lines of a history and of the packet that it starts at.
pub fn histories_are_left()
    ensures { HistoriesAreLeft }
{}

/// So is the text of tables.
pub fn tables_are_left()
    ensures { TablesAreLeft }
{}

/// So is the text of a policy, as it is printed.
pub fn printed_policies_are_left()
    ensures { PrintedPoliciesAreLeft }
{}

/// So is the text of a certificate, as it is printed.
pub fn printed_certificates_are_left()
    ensures { PrintedCertificatesAreLeft }
{}

/// So is the text of each program that `gen` prints, for each size up to 1,000 and each seed.
pub fn printed_programs_are_left()
    ensures { PrintedProgramsAreLeft }
{}

/// So is what a trace prints: the histories with which a packet leaves, how many these are, and how many copies would go on.
pub fn traces_are_left()
    ensures { TracesAreLeft }
{}

/// So is what a flight prints: the histories that have left, how many these are, and how many copies are in flight.
pub fn flights_are_left()
    ensures { FlightsAreLeft }
{}

/// So is what an update prints: the histories that have left, each with the number and the version of its injection, the counts,
/// and how many plan steps are done.
pub fn updates_are_left()
    ensures { UpdatesAreLeft }
{}

/// So is the answer that tells the history that one of two policies alone has.
pub fn differences_are_left()
    ensures { DifferencesAreLeft }
{}

/// So is the answer that tells the history by which a query is broken.
pub fn broken_queries_are_left()
    ensures { BrokenQueriesAreLeft }
{}

/// So are the predicates of the packets that two policies differ on, as they are printed.
pub fn impacts_are_left()
    ensures { ImpactsAreLeft }
{}

/// So is the text of merged tables, with the comment lines that say why their tags are no single one.
pub fn compacts_are_left()
    ensures { CompactsAreLeft }
{}

/// So is what is said of a policy that is refused, with the history that ends off an edge port.
pub fn refusals_are_left()
    ensures { RefusalsAreLeft }
{}

/// So is what is said of a name that has no physical policy, with the packet or the history that shows it.
pub fn virtual_refusals_are_left()
    ensures { VirtualRefusalsAreLeft }
{}
