// Pieces of text put one after the other into a lent buffer, each as far as the buffer goes: put into a buffer of no bytes, they are measured.
// Rests on stores for a part's bytes and on decimal for a number's text.
#![tactic(auto)]

ghost use Rattle.std.specs.Prelude.{◌≡◌, [], ◌∷◌, length};
ghost use Rattle.std.proofs.lemmas.List.Edits.{sets};
ghost use Rattle.decimal.specs.Decimal.{decimal};
ghost use Rattle.pieces.specs.Pieces.{after};

// The place after so many bytes.
#[tactic(auto, using(crate::proofs::Put::after_min))]
pub fn past(at: usize, n: usize) -> usize
    ensures { result ≡ after at n }
{
    at.saturating_add(n)
}

// One byte, where the buffer reaches; the place after it.
#[tactic(auto, using(std::proofs::lemmas::List::set_past))]
pub fn put_byte(buf: &mut [u8], at: usize, b: u8) -> usize
    ensures next { result ≡ after at 1 }
    ensures written { buf.new ≡ sets buf.old at (b ∷ []) }
{
    if at < buf.len() {
        buf[at] = b;
    }
    past(at, 1)
}

// A part's bytes, as far as the buffer goes; the place after them all.
#[tactic(auto, using(crate::proofs::Put::filled_cut))]
pub fn put_part(buf: &mut [u8], at: usize, part: &[u8]) -> usize
    ensures next { result ≡ after at (length part.now) }
    ensures written { buf.new ≡ sets buf.old at part.now }
{
    let n = buf.len().saturating_sub(at).min(part.len());
    stores::put(buf, at, &part[..n]);
    past(at, part.len())
}

// The decimal text of a number, as far as the buffer goes; the place after it all.
#[tactic(auto, using(decimal::proofs::Decimal::twenty, crate::proofs::Digits::place_after_text, crate::proofs::Digits::text_first))]
pub fn put_number(buf: &mut [u8], at: usize, n: u64) -> usize
    ensures next { result ≡ after at (length (decimal n)) }
    ensures written { buf.new ≡ sets buf.old at (decimal n) }
{
    let mut digits = [0u8; 20];
    let count = decimal::put_decimal(&mut digits, 0, n).unwrap_or(0);
    put_part(buf, at, &digits[..count])
}
