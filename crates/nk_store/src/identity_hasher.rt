//! A hasher that answers the number that it was given last.
ghost use Rattle.std.specs.Prelude.{◌≡◌, length};
ghost use Rattle.std.specs.Int.{w64, from_le_bytes};

use std::hash::Hasher;

/// Digests, and what answers are found by, are hashed by one number into which all is mixed: it is taken as it is.
#[derive(Clone, Copy)]
pub(crate) struct IdentityHasher {
    number: u64,
}

impl Default for IdentityHasher {
    ghost is_default = { λ s. s ≡ record { number = 0 } };

    fn default() -> IdentityHasher {
        IdentityHasher { number: 0 }
    }
}

impl Hasher for IdentityHasher {
    ghost use Rattle.nk_store.specs.Digests.{number_given};

    ghost write = { λ s bytes. record { number = number_given s.number bytes } };

    ghost finish = { λ s. s.number };

    #[inline(always)]
    fn finish(&self) -> u64 {
        self.number
    }

    #[inline(always)]
    fn write(&mut self, bytes: &[u8]) {
        if bytes.len() == 8 {
            self.number = number_of(bytes);
        }
    }
}

/// The number that eight bytes are, the lowest first.
#[inline(always)]
fn number_of(bytes: &[u8]) -> u64
    requires { length bytes.now ≡ 8 }
    ensures { result ≡ from_le_bytes w64 bytes.now }
{
    u64::from_le_bytes([
        bytes[0], bytes[1], bytes[2], bytes[3], bytes[4], bytes[5], bytes[6], bytes[7],
    ])
}
