// Bytes and numbers as hexadecimal capitals, stored into a lent buffer where they have room.
// Rests on stores for what a buffer is afterwards.
#![tactic(auto)]

ghost use Rattle.std.specs.Prelude.{◌≡◌, ◌*◌, ◌<◌, length};
ghost use Rattle.stores.specs.Stores.{fits, filled};
ghost use Rattle.capitals.specs.Capitals.{capital, capitals, eight};

// The character of a digit.
#[tactic(auto, using(std::proofs::lemmas::Bool::Decides::nat_tests), unfolding(crate::specs::Capitals::capital))]
fn capital_of(d: u8) -> u8
    requires { d < 16 }
    ensures { result ≡ capital d }
{
    if d < 10 { 0x30 + d } else { 0x37 + d }
}

// Fills a text with the hexadecimal capitals of bytes.
#[tactic(auto, using(crate::proofs::Turns::text_turn, crate::proofs::Turns::text_end))]
fn fill(text: &mut [u8], part: &[u8])
    requires { length text.old ≡ 2 * length part.now }
    ensures { text.new ≡ capitals part.now }
{
    for (i, b) in part.iter().enumerate() {
        text[2 * i] = capital_of(*b / 16);
        text[2 * i + 1] = capital_of(*b % 16);
    }
}

// Stores the hexadecimal capitals of bytes at a place, and says whether there was room; where there is none, nothing is stored.
#[tactic(auto, using(stores::proofs::Room::fits_short, stores::proofs::Room::fits_room, stores::proofs::Room::filled_short, stores::proofs::Room::filled_part, crate::proofs::Turns::length_capitals))]
pub fn put_capitals(buf: &mut [u8], at: usize, part: &[u8]) -> bool
    ensures told { result ≡ fits (length buf.old) at (length (capitals part.now)) }
    ensures written { buf.new ≡ filled buf.old at (capitals part.now) }
{
    let has_room = at <= buf.len() && part.len() <= (buf.len() - at) / 2;
    if has_room {
        fill(&mut buf[at..at + 2 * part.len()], part);
    }
    has_room
}

// Stores the eight digits of a number at a place, and says whether there was room; where there is none, nothing is stored.
#[tactic(auto, using(crate::proofs::Turns::length_capitals), unfolding(crate::specs::Capitals::high_first))]
pub fn put_eight(buf: &mut [u8], at: usize, n: u32) -> bool
    ensures told { result ≡ fits (length buf.old) at 8 }
    ensures written { buf.new ≡ filled buf.old at (eight n) }
{
    put_capitals(buf, at, &n.to_be_bytes())
}
