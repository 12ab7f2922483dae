// Stores into a lent buffer: a part's bytes, and a number's bytes, low byte first, where they have room.
// Rests on words for what a number's bytes are.
#![tactic(auto)]

ghost use Rattle.std.specs.Prelude.{◌≡◌, length};
ghost use Rattle.words.specs.Words.{bytes};
ghost use Rattle.stores.specs.Stores.{fits, filled};

// Whether so many bytes from a place on lie in a buffer of `room` bytes.
#[tactic(auto, using(std::proofs::lemmas::Bool::Decides::nat_tests), unfolding(crate::specs::Stores::fits))]
pub fn has_room(room: usize, at: usize, n: usize) -> bool
    ensures { result ≡ fits room at n }
{
    if room < at {
        return false;
    }
    n <= room - at
}

// Copies a part's bytes over as many others, one after the other: the library's own copy would want a `memmove` of whoever links the archive, and for
// the few bytes of a person's part the call takes longer than the copy.
#[tactic(auto, using(words::proofs::Stores::fills, crate::proofs::Turns::part_next, crate::proofs::Turns::part_end))]
fn copy(over: &mut [u8], part: &[u8])
    requires { length over.old ≡ length part.now }
    ensures { over.new ≡ part.now }
{
    for (i, byte) in over.iter_mut().enumerate() {
        *byte = part[i];
    }
}

// Stores a part at a place, and says whether there was room; where there is none, nothing is stored.
#[tactic(auto, using(crate::proofs::Room::rooms))]
pub fn put(buf: &mut [u8], at: usize, part: &[u8]) -> bool
    ensures told { result ≡ fits (length buf.old) at (length part.now) }
    ensures written { buf.new ≡ filled buf.old at part.now }
{
    if !has_room(buf.len(), at, part.len()) {
        return false;
    }
    copy(&mut buf[at..at + part.len()], part);
    true
}

// Fills a part with the low bytes of a number, low byte first.
#[tactic(auto, using(words::proofs::Stores::fills, crate::proofs::Turns::bytes_next, crate::proofs::Turns::bytes_none))]
fn fill_low(part: &mut [u8], v: u32)
    ensures { part.new ≡ bytes (length part.old) v }
{
    let mut rest = v;
    for byte in part.iter_mut() {
        *byte = (rest % 256) as u8;
        rest /= 256;
    }
}

// Stores the low bytes of a number, as many as its width, at a place, and says whether there was room; where there is none, nothing is stored.
#[tactic(auto, using(words::proofs::Words::length_bytes, crate::proofs::Room::rooms))]
pub fn put_number(buf: &mut [u8], at: usize, width: u8, v: u32) -> bool
    ensures told { result ≡ fits (length buf.old) at width }
    ensures written { buf.new ≡ filled buf.old at (bytes width v) }
{
    let n = usize::from(width);
    if !has_room(buf.len(), at, n) {
        return false;
    }
    fill_low(&mut buf[at..at + n], v);
    true
}
