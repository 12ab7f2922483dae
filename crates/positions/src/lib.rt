// Positions: VCF counts the first base as 1, BCF as 0. Each has a type of its own, so that the two never meet in one sum.
// Rests on nothing but the language's own casts of signed numbers.
#![tactic(auto)]

ghost use Rattle.std.specs.Prelude.{◌≡◌};
ghost use Rattle.positions.specs.Positions.{pos_of, pos_bits, one_based, zero_based};

// A position as VCF writes it: the first base is 1.
#[derive(Clone, Copy, Debug, PartialEq, Eq)]
pub struct VcfPosition(pub i32);

// A position as BCF stores it: the first base is 0.
#[derive(Clone, Copy, Debug, PartialEq, Eq)]
pub struct BcfPosition(pub i32);

// One more, in 32 bits.
#[tactic(auto, unfolding(crate::specs::Positions::one_based))]
impl From<BcfPosition> for VcfPosition {
    ghost from_gives = { λ p v. v.0 ≡ one_based p.0 };

    fn from(p: BcfPosition) -> VcfPosition {
        VcfPosition(p.0.wrapping_add(1))
    }
}

// One less, in 32 bits.
#[tactic(auto, unfolding(crate::specs::Positions::zero_based))]
impl From<VcfPosition> for BcfPosition {
    ghost from_gives = { λ p b. b.0 ≡ zero_based p.0 };

    fn from(p: VcfPosition) -> BcfPosition {
        BcfPosition(p.0.wrapping_sub(1))
    }
}

// The position that 32 bits are, as POS stands in a record.
#[tactic(auto, unfolding(crate::specs::Positions::pos_of))]
pub fn from_bits(bits: u32) -> BcfPosition
    ensures { result ≡ pos_of bits }
{
    BcfPosition(bits.cast_signed())
}

// The 32 bits of a position, as POS stands in a record.
#[tactic(auto, unfolding(crate::specs::Positions::pos_bits))]
pub fn to_bits(p: BcfPosition) -> u32
    ensures { result ≡ pos_bits p }
{
    p.0.cast_unsigned()
}

// The VCF position of a BCF position: one more, in 32 bits.
pub fn to_vcf(p: BcfPosition) -> VcfPosition
    ensures { result.0 ≡ one_based p.0 }
{
    VcfPosition::from(p)
}

// The BCF position of a VCF position: one less, in 32 bits.
pub fn to_bcf(p: VcfPosition) -> BcfPosition
    ensures { result.0 ≡ zero_based p.0 }
{
    BcfPosition::from(p)
}
