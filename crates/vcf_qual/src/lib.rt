// QUAL as text: a dot when missing, digits when it is a whole number from 0 to 16,777,215. Its bits are taken apart by whole numbers.
// Rests on pieces.
#![tactic(auto)]

ghost use Rattle.std.specs.Prelude.{◌≡◌, ◌^◌, ◌≤◌, ◌<◌, length};
ghost use Rattle.std.proofs.lemmas.List.Edits.{sets};
ghost use Rattle.pieces.specs.Pieces.{after};
ghost use Rattle.vcf_qual.specs.Qual.{whole_of, printable, qual_text};

// QUAL's missing mark.
const MISSING: u32 = 0x7F800001;

// The whole number from 0 to 16,777,215 that 32 float bits are; none where they are anything else.
pub fn whole_of(bits: u32) -> Option<u32>
    ensures { result ≡ whole_of bits }
{
    if bits % 2147483648 == 0 {
        return Some(0);
    }
    if 2147483648 <= bits {
        return None;
    }
    let exponent = bits / 8388608 % 256;
    if exponent < 127 {
        return None;
    }
    if 150 < exponent {
        return None;
    }
    let one = 2u32.pow(150 - exponent);
    let significand = 8388608 + bits % 8388608;
    if significand % one == 0 {
        return Some(significand / one);
    }
    None
}

// Whether QUAL can be printed.
pub fn is_printable(qual: u32) -> bool
    ensures { result ≡ printable qual }
{
    qual == MISSING || whole_of(qual).is_some()
}

// QUAL's text, put at a place as far as the buffer goes; the place after it. Of a QUAL that cannot be printed nothing is put.
pub fn put_qual(buf: &mut [u8], at: usize, qual: u32) -> usize
    ensures next { result ≡ after at (length (qual_text qual)) }
    ensures written { buf.new ≡ sets buf.old at (qual_text qual) }
{
    if qual == MISSING {
        return pieces::put_byte(buf, at, b'.');
    }
    match whole_of(qual) {
        Some(n) => pieces::put_number(buf, at, u64::from(n)),
        None => at,
    }
}
