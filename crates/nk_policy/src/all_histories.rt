//! The histories of a policy without a star, one after another: the plain, slow way, for small policies.
ghost use Rattle.std.specs.Prelude.{◌≡◌, [], ◌∷◌, ◌++◌, ◌↔◌, IfOk, OnOk, Contains, if◌then◌else◌, slice_set};
ghost use Rattle.nk_policy.specs.Histories.{histories_from, histories_of_some, histories_of_all, histories_of, recorded, at_packet, IsFlat};
ghost use Rattle.nk_policy.specs.Meaning.{Gives};
ghost use Rattle.nk_policy.specs.Tree.{tree_of, trees_of};

use crate::policy::Pol;
use nk_field::{Act, Fid, History, List, Packet};
use std::alloc::{AllocError, Global};

/// All histories of the policy from a packet. A history that the policy gives in several ways may come several times.
/// The only error is that memory ran out.
pub fn histories(alloc: Global, p: &Pol, pk: &Packet) -> Result<Vec<History>, AllocError>
    requires flat { IsFlat (tree_of p.now) }
    ensures list { IfOk result (λ hs. hs.items ≡ histories_of (tree_of p.now) pk.now) }
    ensures exactly { IfOk result (λ hs. (h : History)
        → Contains hs.items h ↔ Gives (tree_of p.now) pk.now h.records h.last) }
{
    let mut out = Vec::new(alloc);
    let start = History {
        records: List::new(alloc),
        last: *pk,
    };
    push_histories(alloc, &mut out, p, &start)?;
    Ok(out)
}

/// Appends the histories that go on from one.
#[cycle(histories)]
#[tactic(auto, using(crate::proofs::Trees::tree_of_sum, crate::proofs::Trees::tree_of_seq))]
fn push_histories(
    alloc: Global,
    out: &mut Vec<History>,
    p: &Pol,
    h: &History,
) -> Result<(), AllocError>
    ensures { OnOk result (out.new.items ≡ out.old.items ++ histories_from (tree_of p.now) h.now) }
{
    match p {
        Pol::Test(f, n) => push_where(out, h, h.last.get(*f) == *n),
        Pol::Range(f, lo, hi) => {
            let value = h.last.get(*f);
            push_where(out, h, *lo <= value && value <= *hi)
        }
        Pol::Set(f, n) => {
            let last = with_field(alloc, &h.last, *f, *n)?;
            out.push(moved(h, last)?)?;
            Ok(())
        }
        Pol::Sum(ps) => push_some(alloc, out, ps.as_slice(), h),
        Pol::Seq(ps) => push_all(alloc, out, ps.as_slice(), h),
        Pol::Not(q) => {
            let mut inner = Vec::new(alloc);
            push_histories(alloc, &mut inner, q, h)?;
            push_where(out, h, inner.is_empty())
        }
        Pol::Star(_) => Ok(()),
        Pol::Dup(_) => {
            out.push(recorded(h)?)?;
            Ok(())
        }
        Pol::Link(a, m, b, n, _) => {
            if h.last.get(Fid::SWITCH) == u64::from(*a) && h.last.get(Fid::PORT) == u64::from(*m) {
                out.push(crossed(alloc, h, *b, *n)?)?;
            }
            Ok(())
        }
    }
}

/// Appends the histories that go on by one of the parts.
#[cycle(histories)]
fn push_some(
    alloc: Global,
    out: &mut Vec<History>,
    ps: &[Pol],
    h: &History,
) -> Result<(), AllocError>
    ensures { OnOk result (out.new.items
        ≡ out.old.items ++ histories_of_some (trees_of ps.now) h.now) }
{
    for q in ps {
        push_histories(alloc, out, q, h)?;
    }
    Ok(())
}

/// Appends the histories that go on by the parts in turn.
#[cycle(histories)]
fn push_all(
    alloc: Global,
    out: &mut Vec<History>,
    ps: &[Pol],
    h: &History,
) -> Result<(), AllocError>
    ensures { OnOk result (out.new.items
        ≡ out.old.items ++ histories_of_all (trees_of ps.now) h.now) }
{
    let mut current = Vec::new(alloc);
    current.push(h.copy()?)?;
    for q in ps {
        let mut next = Vec::new(alloc);
        for g in &current {
            push_histories(alloc, &mut next, q, g)?;
        }
        current = next;
    }
    for g in &current {
        out.push(g.copy()?)?;
    }
    Ok(())
}

/// Appends the history where it is wanted.
fn push_where(out: &mut Vec<History>, h: &History, wanted: bool) -> Result<(), AllocError>
    ensures { OnOk result (out.new.items ≡ out.old.items ++ (if wanted then h.now ∷ [] else [])) }
{
    if wanted {
        out.push(h.copy()?)?;
    }
    Ok(())
}

/// The packet with a field set.
fn with_field(alloc: Global, pk: &Packet, f: Fid, n: u64) -> Result<Packet, AllocError>
    ensures { IfOk result (λ x. x ≡ slice_set pk.now f n) }
{
    let act = Act::one(alloc, f, n)?;
    Ok(act.apply(pk))
}

/// The history that ends at another packet.
fn moved(h: &History, last: Packet) -> Result<History, AllocError>
    ensures { IfOk result (λ g. g ≡ at_packet h.now last) }
{
    let records = h.records.copy()?;
    Ok(History { records, last })
}

/// The history whose last packet is recorded.
fn recorded(h: &History) -> Result<History, AllocError>
    ensures { IfOk result (λ g. g ≡ recorded h.now) }
{
    let mut records = h.records.copy()?;
    records.push(h.last)?;
    Ok(History {
        records,
        last: h.last,
    })
}

/// The history after a link: its last packet is recorded, moved to the target, and recorded there.
fn crossed(alloc: Global, h: &History, b: u16, n: u16) -> Result<History, AllocError>
    ensures { IfOk result (λ g.
        g ≡ recorded (at_packet (recorded h.now) (slice_set (slice_set h.now.last 0 b) 1 n))) }
{
    let at_switch = with_field(alloc, &h.last, Fid::SWITCH, u64::from(b))?;
    let at_port = with_field(alloc, &at_switch, Fid::PORT, u64::from(n))?;
    let here = recorded(h)?;
    recorded(&moved(&here, at_port)?)
}
