//! Laws of prefixes and of the blocks of an interval, and some worked by hand.
ghost use Rattle.std.specs.Prelude.{◌≡◌, ℕ, ◌+◌, ◌-◌, ◌*◌, ◌≤◌, ◌<◌, ◌%◌, ◌^◌, ◌==◌, ◌&&◌, true, nat_lt, nat_le, if◌then◌else◌, [], ◌∷◌, length, count_by, Contains};
ghost use Rattle.nk_prefix.specs.Prefix.{digits_of, agrees_to};
ghost use Rattle.nk_prefix.specs.Blocks.{fits, largest_fit, blocks_of, is_in_block, BlocksAscend, IsBlockOf};
ghost use Rattle.nk_prefix.specs.Worked.{DigitsByHand, UpToSeven, UpToNine};

/// A number is below the power of two of its digits, and no smaller power of two but 1 will do. A prefix of all digits
/// is the exact value, and one that begins at a multiple of its size is the values from there on, as many as its size.
pub fn prefixes_are_intervals()
    ensures below { (n : ℕ) → n < 2 ^ digits_of n }
    ensures fewest { (n d : ℕ) → 1 ≤ d → n < 2 ^ d → digits_of n ≤ d }
    ensures exact { (v digits n : ℕ) → agrees_to v digits digits n ≡ (n == v) }
    ensures aligned { (v len digits n : ℕ) → v % 2 ^ (digits - len) ≡ 0
        → agrees_to v len digits n ≡ (nat_le v n && nat_lt n (v + 2 ^ (digits - len))) }
{}

/// The block at a value is the largest that is aligned and doesn't go past the end.
pub fn blocks_are_largest()
    ensures fit { (v end digits : ℕ) → v ≤ end → fits v end (largest_fit v end digits) ≡ true }
    ensures most { (v end digits k : ℕ) → k ≤ digits → fits v end k ≡ true
        → k ≤ largest_fit v end digits }
{}

/// The blocks of an interval ascend and are disjoint, each within it, aligned, and with one shared digit or more unless
/// the interval is all values. There are at most two for each digit. A single value is one block of all digits.
pub fn blocks_are_aligned()
    ensures ascend { (lo hi max : ℕ) → BlocksAscend max lo (blocks_of lo hi max) }
    ensures each { (lo hi max : ℕ) (b : ℕ × ℕ) → hi ≤ max → Contains (blocks_of lo hi max) b
        → IsBlockOf lo hi max b }
    ensures few { (lo hi max : ℕ) → hi ≤ max → length (blocks_of lo hi max) ≤ 2 * digits_of max }
    ensures single { (v max : ℕ) → v ≤ max → blocks_of v v max ≡ (v, digits_of max) ∷ [] }
{}

/// A value in range is in exactly one block of an interval where the interval has it, and in none where it hasn't.
pub fn blocks_cover()
    ensures count { (lo hi max n : ℕ) → hi ≤ max → n ≤ max
        → count_by (is_in_block max n) (blocks_of lo hi max)
        ≡ (if nat_le lo n && nat_le n hi then 1 else 0) }
    ensures within { (lo hi max n : ℕ) (b : ℕ × ℕ) → hi ≤ max → n ≤ max
        → Contains (blocks_of lo hi max) b
        → is_in_block max n b ≡ true → (lo ≤ n) × (n ≤ hi) }
    ensures found { (lo hi max n : ℕ) → hi ≤ max → lo ≤ n → n ≤ hi
        → (b : ℕ × ℕ) × Contains (blocks_of lo hi max) b × (is_in_block max n b ≡ true) }
    ensures alone { (lo hi max n : ℕ) (b c : ℕ × ℕ) → Contains (blocks_of lo hi max) b
        → Contains (blocks_of lo hi max) c
        → is_in_block max n b ≡ true → is_in_block max n c ≡ true → b ≡ c }
    ensures apart { (lo hi lo' hi' max n : ℕ) (b c : ℕ × ℕ) → hi < lo' → hi' ≤ max → n ≤ max
        → hi ≤ max
        → Contains (blocks_of lo hi max) b → Contains (blocks_of lo' hi' max) c
        → is_in_block max n b ≡ true → is_in_block max n c ≡ true → ⊥ }
{}

/// Blocks that are worked out by hand.
pub fn worked_blocks()
    ensures digits { DigitsByHand }
    ensures seven { UpToSeven }
    ensures nine { UpToNine }
{}
