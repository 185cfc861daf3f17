//! Whether a history breaks a query.
ghost use Rattle.std.specs.Prelude.{◌≡◌, true, IfOk};
ghost use Rattle.nk_policy.specs.After.{drop_policy};
ghost use Rattle.nk_policy.specs.Tree.{tree_of};
ghost use Rattle.nk_query.specs.Asked.{Question, rest_are_predicates};
ghost use Rattle.nk_query.specs.Answers.{asked_in, asked_policy, IsFitFor, IsQueryResult, IsAsked};

use crate::error::QueryError;
use crate::naming::question;
use crate::query::{Answer, Query};
use nk_cert::{Compared, compare_policies};
use nk_field::Fields;
use nk_names::Program;
use nk_policy::{Pol, Pols};
use std::alloc::{AllocError, Global};

/// Whether a history of a policy, from any packet in range, located or not, breaks a query. Where none does, the answer
/// is the printed certificate that the question and `drop` give the same histories; else it is the least history that
/// breaks it (fewer records first, then the lesser start, then the records in turn, then the last packet). A waypoint is
/// passed where a history has it as its start packet, among its records or as its last packet (Anderson et al., POPL
/// 2014). It is refused as `question` refuses; the only other error is that memory ran out.
pub fn ask(alloc: Global, program: &Program, query: &Query) -> Result<Answer, QueryError>
    ensures { IsAsked program.now (asked_in query.now) result }
{
    match question(alloc, program, query) {
        Ok(q) => Ok(answer_of(alloc, &program.fields, &q)?),
        Err(e) => Err(e),
    }
}

/// Whether a question has a history.
fn answer_of(alloc: Global, fields: &Fields, q: &Pol) -> Result<Answer, AllocError>
    requires { IsFitFor fields.now (tree_of q.now) }
    ensures { IfOk result (λ a. (x : Question) → rest_are_predicates x ≡ true
        → tree_of q.now ≡ asked_policy x → IsQueryResult fields.now x a) }
{
    let nothing = dropping(alloc);
    match compare_policies(alloc, fields, q, &nothing)? {
        Compared::Related(certificate) => Ok(Answer::Holds(certificate)),
        Compared::Broken(found) => Ok(Answer::Breaks(found)),
    }
}

/// The policy that drops each packet.
#[tactic(auto, using(nk_policy::proofs::Trees::tree_of_sum))]
pub(crate) fn dropping(alloc: Global) -> Pol
    ensures { tree_of result ≡ drop_policy }
{
    Pol::Sum(Pols::new(Vec::new(alloc)))
}
