//! What is found of a certificate that no history breaks a query.
ghost use Rattle.std.specs.Prelude.{◌≡◌, true, IfOk};
ghost use Rattle.nk_policy.specs.Tree.{tree_of};
ghost use Rattle.nk_cert.specs.Verdicts.{HasPredicates};
ghost use Rattle.nk_cert.specs.Values.{certificate_value, finding_of};
ghost use Rattle.nk_query.specs.Asked.{Question, rest_are_predicates};
ghost use Rattle.nk_query.specs.Answers.{asked_in, asked_policy, IsFitFor, IsJudgedFor, IsQueryChecked};

use crate::asking::dropping;
use crate::error::QueryError;
use crate::naming::question;
use crate::query::Query;
use nk_cert::{Certificate, Verdict};
use nk_check::check_policies;
use nk_field::Fields;
use nk_names::Program;
use nk_policy::Pol;
use std::alloc::{AllocError, Global};

/// What is found of a certificate that the question of a query and `drop` give the same histories, whoever made it: that
/// each row meets its four parts, so that no history from a packet in range breaks the query; or the first row that fails
/// and the first part in which it does (a certificate is a bisimulation of two automata, row by row: Foster et al., POPL
/// 2015). Positions are the numbers of the question's dups, from 1 in text order; `drop` has none. The rows are looked at
/// as sets: positions need not ascend, and several rows may have one set. It is refused as `question` refuses; the only
/// other error is that memory ran out.
pub fn check_query(
    alloc: Global,
    program: &Program,
    query: &Query,
    certificate: &Certificate,
) -> Result<Verdict, QueryError>
    requires { HasPredicates (certificate_value certificate.now) }
    ensures { IsQueryChecked program.now (asked_in query.now)
        (certificate_value certificate.now) result }
{
    match question(alloc, program, query) {
        Ok(q) => Ok(verdict_of(alloc, &program.fields, &q, certificate)?),
        Err(e) => Err(e),
    }
}

/// What is found of a certificate that a question has no history.
fn verdict_of(
    alloc: Global,
    fields: &Fields,
    q: &Pol,
    certificate: &Certificate,
) -> Result<Verdict, AllocError>
    requires fit { IsFitFor fields.now (tree_of q.now) }
    requires predicates { HasPredicates (certificate_value certificate.now) }
    ensures { IfOk result (λ v. (x : Question) → rest_are_predicates x ≡ true
        → tree_of q.now ≡ asked_policy x
        → IsJudgedFor fields.now x (certificate_value certificate.now) (finding_of v)) }
{
    let nothing = dropping(alloc);
    check_policies(alloc, fields, q, &nothing, certificate)
}
