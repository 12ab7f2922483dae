// Numbers as decimal text, and single bytes, put at a place of a lent buffer.
// Rests on words, for the way in which definitions choose.
#![tactic(auto)]

ghost use Rattle.std.specs.Prelude.{◌≡◌, [], ◌∷◌, length};
ghost use Rattle.decimal.specs.Decimal.{decimal, placed, PlaceInside};
ghost use Rattle.stores.specs.Stores.{filled};

// How many digits a number has: what is to be stored is known before the first byte of it.
#[tactic(auto, using(crate::proofs::Decimal::digits_of, crate::proofs::Decimal::one_digit))]
fn digits_in(n: u64) -> usize
    ensures { result ≡ length (decimal n) }
{
    // Most numbers of an answer have one digit.
    if n < 10 {
        return 1;
    }
    n.checked_ilog10().map_or(1, |more| more as usize + 1)
}

// Stores the text of a number into a part of as many bytes as it has digits, the last digit first.
#[tactic(auto, using(crate::proofs::Decimal::low_turn, crate::proofs::Decimal::low_all))]
fn store(text: &mut [u8], n: u64)
    requires { length text.old ≡ length (decimal n) }
    ensures { text.new ≡ decimal n }
{
    let mut rest = n;
    for i in (0..text.len()).rev() {
        text[i] = b'0' + (rest % 10) as u8;
        rest /= 10;
    }
}

// The text of a number, put at a place: the place after it, or none and nothing written where it has no room.
#[tactic(auto, using(stores::proofs::Room::rooms, crate::proofs::Stores::placed_short, crate::proofs::Stores::placed_room))]
pub fn put_decimal(buf: &mut [u8], at: usize, n: u64) -> Option<usize>
    ensures told { result ≡ placed (length buf.old) at (decimal n) }
    ensures inside { PlaceInside (length buf.old) result }
    ensures written { buf.new ≡ filled buf.old at (decimal n) }
{
    let count = digits_in(n);
    if stores::has_room(buf.len(), at, count) {
        store(&mut buf[at..at + count], n);
        return Some(at + count);
    }
    None
}

// One byte, put at a place: the place after it, or none and nothing written where it has no room.
pub fn put_byte(buf: &mut [u8], at: usize, b: u8) -> Option<usize>
    ensures told { result ≡ placed (length buf.old) at (b ∷ []) }
    ensures inside { PlaceInside (length buf.old) result }
    ensures written { buf.new ≡ filled buf.old at (b ∷ []) }
{
    if buf.len() <= at {
        return None;
    }
    buf[at] = b;
    Some(at + 1)
}
