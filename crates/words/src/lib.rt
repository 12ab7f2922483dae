// Little-endian numbers of up to four bytes in a lent slice, and 32 bits as a signed number and back.
// Rests on nothing; every other crate rests on it.
#![tactic(auto)]

ghost use Rattle.std.specs.Prelude.{◌≡◌, ◌*◌, ◌/◌, ◌≤◌, drop, take};
ghost use Rattle.std.specs.Int.{w32};
ghost use Rattle.std.proofs.Common.{of_z, to_z};
ghost use Rattle.words.specs.Words.{number, outside};

// The little-endian number that a part's bytes are; of a longer part, that of its first four. The tests stand one after the other, since a `match` over
// the lengths would be a jump through a table for each element.
#[tactic(auto, using(crate::proofs::Words::number_four, crate::proofs::Words::past))]
pub fn word(part: &[u8]) -> u32
    ensures { result ≡ number 4 part.now }
{
    if let [a] = *part {
        return u32::from(a);
    }
    if let [a, b] = *part {
        return u32::from_le_bytes([a, b, 0, 0]);
    }
    if let [a, b, c, d, ..] = *part {
        return u32::from_le_bytes([a, b, c, d]);
    }
    if let [a, b, c] = *part {
        return u32::from_le_bytes([a, b, c, 0]);
    }
    0
}

// The number of the `width` bytes at a place, or of as many as stand there; four count at most.
#[tactic(auto, using(crate::proofs::Words::number_past))]
pub fn word_at(s: &[u8], at: usize, width: u8) -> u32
    ensures { result ≡ number 4 (take width (drop at s.now)) }
{
    let Some(rest) = s.get(at..) else {
        return 0;
    };
    let n = rest.len().min(usize::from(width));
    word(&rest[..n])
}

// 32 bits as the signed number that they are.
pub fn signed(bits: u32) -> i32
    ensures { result ≡ to_z w32 bits }
{
    bits.cast_signed()
}

// A signed number as its 32 bits.
pub fn bits(z: i32) -> u32
    ensures { result ≡ of_z w32 z }
{
    z.cast_unsigned()
}

// Whether 32 bits are no offset below a size: a negative number, or one too large.
#[tactic(auto, using(std::proofs::lemmas::Bool::Decides::nat_tests), unfolding(crate::specs::Words::outside))]
pub fn is_outside(size: u32, bits: u32) -> bool
    ensures { result ≡ outside size bits }
{
    0x8000_0000 <= bits || size <= bits
}

// How often b goes into a; 0 times where b is 0.
pub fn over(a: usize, b: usize) -> usize
    ensures value { result ≡ a / b }
    ensures b_bound { result * b ≤ a }
{
    a.checked_div(b).unwrap_or(0)
}
