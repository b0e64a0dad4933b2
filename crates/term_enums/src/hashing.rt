//! How keys, and nodes made of keys, are hashed, to find them.
ghost use Rattle.std.specs.Prelude.{◌≡◌, ◌≤◌, length};
ghost use Rattle.term_enums.specs.Hashing.{folded_product, word, write_words};

use std::hash::Hasher;

const MULTIPLIER: u64 = 0x9e37_79b9_7f4a_7c15;

/// Hashes keys that are numbers, and what is made of these: each number by one multiplication, and one of 16 bytes by
/// two.
///
/// The hasher that a table has by default reads a number byte by byte, which takes longer than all else that finding a
/// key takes.
#[derive(Clone, Copy, Drop)]
pub struct KeyHasher {
    state: u64,
}

impl Default for KeyHasher {
    ghost is_default = { λ s. s.state ≡ 0 };

    fn default() -> KeyHasher {
        KeyHasher { state: 0 }
    }
}

// The two halves of a product, joined.
#[inline(always)]
fn fold(a: u64, b: u64) -> u64
    ensures { result ≡ folded_product a b }
{
    let product = a as u128 * b as u128;
    (product & 0xFFFF_FFFF_FFFF_FFFF) as u64 ^ (product >> 64) as u64
}

// The number of these bytes, the first the highest.
#[inline(always)]
fn number(bytes: &[u8]) -> u64
    ensures { result ≡ word bytes.now }
{
    let mut number: u64 = 0;
    for byte in bytes {
        number = number.wrapping_mul(256).wrapping_add(*byte as u64);
    }
    number
}

impl Hasher for KeyHasher {
    ghost write = { write_words };

    ghost finish = { λ s. s.state };

    #[inline(always)]
    fn finish(&self) -> u64 {
        self.state
    }

    #[inline(always)]
    fn write(&mut self, bytes: &[u8]) {
        if bytes.len() <= 8 {
            self.state = fold(self.state ^ number(bytes), MULTIPLIER);
        } else {
            let (front, back) = bytes.split_at(8);
            let state = fold(self.state ^ number(front), MULTIPLIER);
            self.state = fold(state ^ number(back), MULTIPLIER);
        }
    }
}
