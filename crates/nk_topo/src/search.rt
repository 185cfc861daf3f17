//! Where things stand in ascending lists.
ghost use Rattle.std.specs.Prelude.{◌≡◌, ◌==◌, ◌<◌, ◌≤◌, false, nat_lt, length, position, map, AllPairs, IfSome, IfOk, IsTrue};
ghost use Rattle.std.specs.List.{prefix_len};
ghost use Rattle.nk_topo.specs.Topology.{starts_below, ascending, has_double};
ghost use Rattle.nk_topo.specs.Inside.{link_of};

use std::alloc::{AllocError, Global};

/// How many of the ascending numbers are below `n`.
pub(crate) fn place_in(numbers: &[u16], n: u16) -> usize
    requires { AllPairs (λ p q. p < q) numbers.now }
    ensures place { result ≡ prefix_len (λ m. nat_lt m n) numbers.now }
    ensures within { result ≤ length numbers.now }
{
    numbers.partition_point(|m| *m < n)
}

/// The index of `n` among the ascending numbers, if it is one of them.
pub(crate) fn find_in(numbers: &[u16], n: u16) -> Option<usize>
    requires { AllPairs (λ p q. p < q) numbers.now }
    ensures place { result ≡ position (λ m. m == n) numbers.now }
    ensures within { IfSome result (λ i. i < length numbers.now) }
{
    let place = place_in(numbers, n);
    if place < numbers.len() && numbers[place] == n {
        Some(place)
    } else {
        None
    }
}

/// Whether the link begins at a lower switch, or at a lower port of the same one.
fn begins_below(link: &(u16, u16, u16, u16), sw: u16, pt: u16) -> bool
    ensures { result ≡ starts_below sw pt (link_of link.now) }
{
    link.0 < sw || (link.0 == sw && link.1 < pt)
}

/// How many of the links, ascending by source, begin below the port.
pub(crate) fn link_place(links: &[(u16, u16, u16, u16)], sw: u16, pt: u16) -> usize
    requires { AllPairs (λ k l. IsTrue (starts_below l.from_switch l.from_port k))
        (map link_of links.now) }
    ensures place { result ≡ prefix_len (starts_below sw pt) (map link_of links.now) }
    ensures within { result ≤ length links.now }
{
    links.partition_point(|link| begins_below(link, sw, pt))
}

/// The numbers in ascending order.
pub(crate) fn sorted(alloc: Global, numbers: &[u16]) -> Result<Vec<u16>, AllocError>
    ensures numbers { IfOk result (λ v. v.items ≡ ascending numbers.now) }
    ensures climbs { IfOk result (λ v. AllPairs (λ p q. p ≤ q) v.items) }
    ensures doubles { IfOk result (λ v. has_double v.items ≡ has_double numbers.now) }
    ensures rises { IfOk result
        (λ v. has_double v.items ≡ false → AllPairs (λ p q. p < q) v.items) }
{
    let mut sorted = Vec::from_slice(alloc, numbers)?;
    sorted.sort_unstable();
    Ok(sorted)
}

/// Whether a number stands twice among sorted ones.
pub(crate) fn repeats(numbers: &[u16]) -> bool
    requires { AllPairs (λ p q. p ≤ q) numbers.now }
    ensures { result ≡ has_double numbers.now }
{
    for i in 1..numbers.len() {
        if numbers[i - 1] == numbers[i] {
            return true;
        }
    }
    false
}
