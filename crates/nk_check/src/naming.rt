//! What is found of a certificate of two named policies.
ghost use Rattle.std.specs.Prelude.{◌≡◌, ◌+◌, ◌<◌, ◌^◌, IfOk};
ghost use Rattle.nk_policy.specs.Policy.{marked_from, dups_of};
ghost use Rattle.nk_policy.specs.Tree.{tree_of};
ghost use Rattle.nk_policy.specs.Ranges.{IsOverFields};
ghost use Rattle.nk_names.specs.Complements.{NegatesPredicates};
ghost use Rattle.nk_cert.specs.Equality.{AreSame};
ghost use Rattle.nk_cert.specs.Verdicts.{HasPredicates, IsFinding, valid};
ghost use Rattle.nk_cert.specs.Values.{certificate_value, finding_of};
ghost use Rattle.nk_check.specs.Answers.{IsChecked};

use crate::checking::verdict_by;
use crate::error::CheckError;
use crate::laws::a_certificate_shows_equality;
use nk_cert::{Certificate, Verdict, both_written, number_after, owned_automaton};
use nk_determ::Sets;
use nk_field::Fields;
use nk_names::Program;
use nk_policy::Pol;
use nk_store::Store;
use std::alloc::{AllocError, Global};

/// What is found of a certificate of two named policies: that each row meets its four parts, or the first row that fails, and
/// the first part in which it does. The right policy's dups are numbered on from the left one's. Names that are no policy's
/// are refused; the only other error is that memory ran out. Where the certificate is valid, both policies give the same
/// histories on every packet in range.
pub fn check(
    alloc: Global,
    program: &Program,
    left: &str,
    right: &str,
    certificate: &Certificate,
) -> Result<Verdict, CheckError>
    requires { HasPredicates (certificate_value certificate.now) }
    ensures { IsChecked program.now left.now right.now (certificate_value certificate.now) result }
{
    match both_written(alloc, program, left, right)? {
        None => Err(CheckError::NoPolicy),
        Some(both) => {
            let (p, q) = both;
            Ok(check_both(alloc, &program.fields, p, q, certificate)?)
        }
    }
}

/// What is found of a certificate of two named policies, as `check` answers it. The policies of the program are dropped once
/// both are written out. Names that are no policy's are refused; the only other error is that memory ran out.
pub fn check_owned(
    alloc: Global,
    program: Program,
    left: &str,
    right: &str,
    certificate: &Certificate,
) -> Result<Verdict, CheckError>
    requires { HasPredicates (certificate_value certificate.now) }
    ensures { IsChecked program left.now right.now (certificate_value certificate.now) result }
{
    match both_written(alloc, &program, left, right)? {
        None => Err(CheckError::NoPolicy),
        Some(both) => {
            let (p, q) = both;
            let fields = program.into_fields();
            Ok(check_both(alloc, &fields, p, q, certificate)?)
        }
    }
}

/// What is found of a certificate of two policies, the right one's dups numbered on from the left one's. Both are dropped once their
/// automaton is made.
fn check_both(
    alloc: Global,
    fields: &Fields,
    p: Pol,
    q: Pol,
    certificate: &Certificate,
) -> Result<Verdict, AllocError>
    requires numbered { marked_from (tree_of p) 1 ≡ tree_of p }
    requires following { marked_from (tree_of q) (1 + dups_of (tree_of p)) ≡ tree_of q }
    requires few { 1 + dups_of (tree_of p) + dups_of (tree_of q) < 2 ^ 32 }
    requires left_complements { NegatesPredicates (tree_of p) }
    requires left_over { IsOverFields fields.now (tree_of p) }
    requires right_complements { NegatesPredicates (tree_of q) }
    requires right_over { IsOverFields fields.now (tree_of q) }
    requires predicates { HasPredicates (certificate_value certificate.now) }
    ensures found { IfOk result
        (λ v. IsFinding fields.now (tree_of p) (tree_of q) (certificate_value certificate.now)
        (finding_of v)) }
    ensures same { IfOk result
        (λ v. finding_of v ≡ valid → AreSame fields.now (tree_of p) (tree_of q)) }
{
    // This is a law: policies with a certificate give the same histories.
    a_certificate_shows_equality();
    let bound = number_after(&p);
    let mut st = Store::new(alloc, fields)?;
    let both = owned_automaton(&mut st, p, q)?;
    let mut ss = Sets::new(alloc);
    verdict_by(&mut st, &mut ss, both, bound as usize, certificate)
}
