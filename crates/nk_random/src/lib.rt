//! Draws, each made from the one before it.
#![tactic(auto)]

ghost use Rattle.std.specs.Prelude.{◌≡◌, ◌<◌};
ghost use Rattle.nk_random.specs.Draws as draws;

/// The product of a draw and the multiplier is taken modulo this number.
const MODULUS: u64 = 2_147_483_647;

/// The draw that follows `draw`: 48,271 times it, modulo 2,147,483,647 (Park and Miller,
/// Communications of the ACM 31, 1988, with the multiplier of 36, 1993). Any number may be given.
pub fn next_draw(draw: u64) -> u64
    ensures value { result ≡ draws.next_draw draw }
    ensures bound { result < 2147483647 }
{
    48_271 * (draw % MODULUS) % MODULUS
}
