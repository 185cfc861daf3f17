//! The text of a policy.
ghost use Rattle.std.specs.Prelude.{◌≡◌, ◌||◌, ◌++◌, IfOk, OnOk, codes, decimal};
ghost use Rattle.nk_policy.specs.Text.{pol_bytes, enclosed, name_of, is_sum as is_sum_tree, is_seq as is_seq_tree, is_star as is_star_tree};
ghost use Rattle.nk_policy.specs.Policy.{sum_of, seq_of};
ghost use Rattle.nk_policy.specs.Tree.{tree_of, trees_of};

use crate::policy::Pol;
use itoa::Buffer;
use nk_field::{Fid, Fields};
use std::alloc::{AllocError, Global};

/// The text of a policy, without names of policies, as the language's grammar reads it: fields by their names in
/// `fields`, numbers in decimal, and parentheses where the grammar wants them. The numbers of dups are not in it. The
/// only error is that memory ran out.
pub fn pol_text(alloc: Global, fields: &Fields, p: &Pol) -> Result<Vec<u8>, AllocError>
    ensures { IfOk result (λ text. text.items ≡ pol_bytes fields.now (tree_of p.now)) }
{
    let mut out = Vec::new(alloc);
    push_policy(&mut out, fields, p)?;
    Ok(out)
}

/// Appends the text of a policy.
#[cycle(text)]
#[tactic(auto, using(crate::proofs::Trees::tree_of_sum, crate::proofs::Trees::tree_of_seq))]
fn push_policy(out: &mut Vec<u8>, fields: &Fields, p: &Pol) -> Result<(), AllocError>
    ensures { OnOk result (out.new.items ≡ out.old.items ++ pol_bytes fields.now (tree_of p.now)) }
{
    match p {
        Pol::Test(f, n) => push_field(out, fields, *f, b"=", *n),
        Pol::Range(f, lo, hi) => push_range(out, fields, *f, (*lo, *hi)),
        Pol::Set(f, n) => push_field(out, fields, *f, b":=", *n),
        Pol::Sum(ps) => push_sum(out, fields, ps.as_slice()),
        Pol::Seq(ps) => push_seq(out, fields, ps.as_slice()),
        Pol::Not(q) => {
            out.extend_from_slice(b"~")?;
            push_inside(out, fields, q, is_sum(q) || is_seq(q))
        }
        Pol::Star(q) => {
            push_inside(out, fields, q, is_sum(q) || is_seq(q) || is_star(q))?;
            out.extend_from_slice(b"*")?;
            Ok(())
        }
        Pol::Dup(_) => {
            out.extend_from_slice(b"dup")?;
            Ok(())
        }
        Pol::Link(a, m, b, n, _) => push_link(out, (*a, *m), (*b, *n)),
    }
}

/// Appends the text of a policy, in parentheses where they are wanted.
#[cycle(text)]
fn push_inside(out: &mut Vec<u8>, fields: &Fields, p: &Pol, wanted: bool) -> Result<(), AllocError>
    ensures { OnOk result (out.new.items
        ≡ out.old.items ++ enclosed wanted (pol_bytes fields.now (tree_of p.now))) }
{
    if wanted {
        out.extend_from_slice(b"(")?;
        push_policy(out, fields, p)?;
        out.extend_from_slice(b")")?;
        return Ok(());
    }
    push_policy(out, fields, p)
}

/// Appends the text of a sum of these parts.
#[cycle(text)]
fn push_sum(out: &mut Vec<u8>, fields: &Fields, ps: &[Pol]) -> Result<(), AllocError>
    ensures { OnOk result (out.new.items
        ≡ out.old.items ++ pol_bytes fields.now (sum_of (trees_of ps.now))) }
{
    if ps.is_empty() {
        out.extend_from_slice(b"drop")?;
        return Ok(());
    }
    let mut before: &[u8] = b"";
    for q in ps {
        out.extend_from_slice(before)?;
        push_inside(out, fields, q, is_sum(q))?;
        before = b" + ";
    }
    Ok(())
}

/// Appends the text of a sequence of these parts.
#[cycle(text)]
fn push_seq(out: &mut Vec<u8>, fields: &Fields, ps: &[Pol]) -> Result<(), AllocError>
    ensures { OnOk result (out.new.items
        ≡ out.old.items ++ pol_bytes fields.now (seq_of (trees_of ps.now))) }
{
    if ps.is_empty() {
        out.extend_from_slice(b"id")?;
        return Ok(());
    }
    let mut before: &[u8] = b"";
    for q in ps {
        out.extend_from_slice(before)?;
        push_inside(out, fields, q, is_sum(q) || is_seq(q))?;
        before = b";";
    }
    Ok(())
}

/// Appends a field's name, an operator and a number.
fn push_field(
    out: &mut Vec<u8>,
    fields: &Fields,
    f: Fid,
    operator: &[u8],
    n: u64,
) -> Result<(), AllocError>
    ensures { OnOk result (out.new.items
        ≡ out.old.items ++ (name_of fields.now f ++ operator.now ++ decimal n)) }
{
    out.extend_from_slice(fields.name(f).as_bytes())?;
    out.extend_from_slice(operator)?;
    push_number(out, n)
}

/// Appends a field's name, `in` and the ends of a range, with `..` between.
fn push_range(
    out: &mut Vec<u8>,
    fields: &Fields,
    f: Fid,
    ends: (u64, u64),
) -> Result<(), AllocError>
    ensures { OnOk result (out.new.items
        ≡ out.old.items ++ (name_of fields.now f ++ codes " in " ++ decimal ends.0 ++ codes ".."
        ++ decimal ends.1)) }
{
    push_field(out, fields, f, b" in ", ends.0)?;
    out.extend_from_slice(b"..")?;
    push_number(out, ends.1)
}

/// Appends a link literal: its source and its target, each a switch and a port.
fn push_link(out: &mut Vec<u8>, source: (u16, u16), target: (u16, u16)) -> Result<(), AllocError>
    ensures { OnOk result (out.new.items
        ≡ out.old.items ++ (decimal source.0 ++ codes ":" ++ decimal source.1 ++ codes "=>"
        ++ decimal target.0 ++ codes ":" ++ decimal target.1)) }
{
    push_number(out, u64::from(source.0))?;
    out.extend_from_slice(b":")?;
    push_number(out, u64::from(source.1))?;
    out.extend_from_slice(b"=>")?;
    push_number(out, u64::from(target.0))?;
    out.extend_from_slice(b":")?;
    push_number(out, u64::from(target.1))
}

/// Appends a number's digits.
fn push_number(out: &mut Vec<u8>, n: u64) -> Result<(), AllocError>
    ensures { OnOk result (out.new.items ≡ out.old.items ++ decimal n) }
{
    let mut buffer = Buffer::new();
    out.extend_from_slice(buffer.format(n).as_bytes())?;
    Ok(())
}

/// Whether the policy is a sum with a part.
#[tactic(auto, using(crate::proofs::Trees::tree_of_sum, crate::proofs::Trees::tree_of_seq))]
fn is_sum(p: &Pol) -> bool
    ensures { result ≡ is_sum_tree (tree_of p.now) }
{
    match p {
        Pol::Sum(ps) => !ps.as_slice().is_empty(),
        _ => false,
    }
}

/// Whether the policy is a sequence with a part.
#[tactic(auto, using(crate::proofs::Trees::tree_of_sum, crate::proofs::Trees::tree_of_seq))]
fn is_seq(p: &Pol) -> bool
    ensures { result ≡ is_seq_tree (tree_of p.now) }
{
    match p {
        Pol::Seq(ps) => !ps.as_slice().is_empty(),
        _ => false,
    }
}

/// Whether the policy is a star.
fn is_star(p: &Pol) -> bool
    ensures { result ≡ is_star_tree (tree_of p.now) }
{
    match p {
        Pol::Star(_) => true,
        _ => false,
    }
}
