//! By what number nodes, lists of numbers, and what answers are kept under are found: one number each, so that a hasher is called once.
ghost use Rattle.std.specs.Prelude.{◌≡◌};
ghost use Rattle.std.specs.Hash as fed;
ghost use Rattle.std.proofs.Common.{ap};
ghost use Rattle.nk_store.specs.Digests.{factor, odd, halves_mixed, folded, mixed, numbers_mixed, sets_mixed, parts_mixed, outs_mixed, digest, operation_number, key_mixed};
ghost use Rattle.nk_store.specs.Equal.{node_same, key_same, numbers_same};

use crate::node::{Id, Node, Out};
use crate::operation::{Key, Operation};
use crate::unique_table::Digest;
use nk_field::{Fid, List};
use std::hash::{Hash, Hasher};

impl Digest for Node {
    ghost number = { λ n. digest n };

    ghost respects_eq = { λ n m h. ap (λ k. digest k) (node_same n m h) };

    fn digest(&self) -> u64 {
        match self {
            Node::Leaf(outs) => outs_mixed(0, outs.as_slice()),
            Node::Case(f, parts) => parts_mixed(f.place() as u64, parts.as_slice()),
        }
    }
}

/// A list of numbers, as the labels of a set.
impl Digest for List<u64> {
    ghost number = { λ ns. numbers_mixed 0 ns };

    ghost respects_eq = { λ ns ms h. ap (λ k. numbers_mixed 0 k) (numbers_same ns ms h) };

    fn digest(&self) -> u64 {
        numbers_mixed(0, self.as_slice())
    }
}

/// Numbers mixed into a number.
fn numbers_mixed(n: u64, numbers: &[u64]) -> u64
    ensures { result ≡ numbers_mixed n numbers.now }
{
    let mut all = n;
    for number in numbers {
        all = mixed(all, *number, 0);
    }
    all
}

/// Outs mixed into a number.
fn outs_mixed(n: u64, outs: &[Out]) -> u64
    ensures { result ≡ outs_mixed n outs.now }
{
    let mut all = n;
    for o in outs {
        all = mixed(sets_mixed(all, o.act.as_slice()), o.target, 0);
    }
    all
}

/// Assignments mixed into a number.
fn sets_mixed(n: u64, sets: &[(Fid, u64)]) -> u64
    ensures { result ≡ sets_mixed n sets.now }
{
    let mut all = n;
    for (f, v) in sets {
        all = mixed(all, f.place() as u64, *v);
    }
    all
}

/// Parts mixed into a number.
fn parts_mixed(n: u64, parts: &[(u64, Id)]) -> u64
    ensures { result ≡ parts_mixed n parts.now }
{
    let mut all = n;
    for (end, c) in parts {
        all = mixed(all, *end, c.place() as u64);
    }
    all
}

/// Two numbers mixed into another. By sums and products with constants alone numbers that collide could be written down, and so
/// they could by the sum of a product's halves, which is the product modulo 2^64 - 1.
fn mixed(n: u64, a: u64, b: u64) -> u64
    ensures { result ≡ mixed n a b }
{
    folded(n.wrapping_add(a).wrapping_add(b), factor(a, b))
}

/// What a number is multiplied by, made of two others. It is odd, so no two numbers have the same product with it.
fn factor(a: u64, b: u64) -> u64
    ensures { result ≡ factor a b }
{
    odd(
        b.wrapping_mul(0x9e37_79b9_7f4a_7c15)
            .wrapping_add(a)
            .wrapping_add(0x243f_6a88_85a3_08d3),
    )
}

/// The odd number after twice another one.
fn odd(n: u64) -> u64
    ensures { result ≡ odd n }
{
    n.wrapping_mul(2).wrapping_add(1)
}

/// The halves of the product of two numbers as one, with the second number added.
fn folded(x: u64, y: u64) -> u64
    ensures { result ≡ folded x y }
{
    let product = x as u128 * y as u128;
    let low = (product % 0x1_0000_0000_0000_0000) as u64;
    halves_mixed((product >> 64) as u64, low).wrapping_add(y)
}

/// Two halves of a product as one. Neither half alone decides it, and it is not linear in both.
fn halves_mixed(high: u64, low: u64) -> u64
    ensures { result ≡ halves_mixed high low }
{
    high.wrapping_mul(odd(low)).wrapping_add(low)
}

impl Hash for Key {
    ghost hash_input = { λ k. fed.u64 (key_mixed k) };

    ghost respects_eq = { λ k q h. ap (λ x. fed.u64 (key_mixed x)) (key_same k q h) };

    fn hash<H: Hasher>(&self, state: &mut H) {
        state.write_u64(mixed(
            number(self.operation),
            self.left.place() as u64,
            self.right.place() as u64,
        ));
    }
}

/// The number of an operation.
fn number(operation: Operation) -> u64
    ensures { result ≡ operation_number operation }
{
    match operation {
        Operation::Union => 0,
        Operation::Both => 1,
        Operation::Negate => 2,
        Operation::Missing => 3,
        Operation::Seq => 4,
        Operation::Split => 5,
    }
}
