// Lines of hexadecimal digits: the facts of the first line, the people of a choice's line, and the bytes of a record's line.
// Rests on words, for the way in which definitions choose.
#![tactic(auto)]

ghost use Rattle.std.specs.Prelude.{◌≡◌, true, ◌+◌, ◌*◌, ◌<◌, ◌≤◌, drop, get_or, length, take, IfOk};
ghost use Rattle.hexadecimal.specs.Hexadecimal.{digit, digits, byte, line_bytes, big, facts_of, eights, choice_of, choice_answered, PeopleInside, frame_of, answered, BytesInside, stored, counted};

mod characters; // the value of each character as a digit

use characters::Values;
use facts::Facts;

// The most digits that a record's line may have, and a choice's: as many people as such a record has bytes.
const MOST_DIGITS: usize = 60000;

const MOST_CHOICE_DIGITS: usize = 240000;

// A line that is not what it has to be, or a buffer that is too short for it.
#[derive(Clone, Copy, Debug, PartialEq, Eq)]
pub enum LineError {
    Bad,
    NoRoom,
}

// Whether each character of a line is a digit.
fn all_digits(values: &Values, line: &[u8]) -> bool
    ensures { result ≡ digits line.now }
{
    line.iter().all(|c| values.digit(*c) < 16)
}

// The byte of the two digits at a place.
#[tactic(auto, using(crate::proofs::Digits::digit_below), unfolding(crate::specs::Hexadecimal::byte))]
fn byte_at(values: &Values, line: &[u8], at: usize) -> u8
    requires { (at + 1 < length line.now) × (digits line.now ≡ true) }
    ensures { result ≡ byte (get_or line.now at 0) (get_or line.now (at + 1) 0) }
{
    values.digit(line[at]) * 16 + values.digit(line[at + 1])
}

// The number of the eight digits at a place.
#[tactic(auto, using(crate::proofs::Digits::eight_at))]
fn number_at(values: &Values, line: &[u8], at: usize) -> u32
    requires { (at + 7 < length line.now) × (digits line.now ≡ true) }
    ensures { result ≡ big (take 8 (drop at line.now)) }
{
    let a = byte_at(values, line, at);
    let b = byte_at(values, line, at + 2);
    let c = byte_at(values, line, at + 4);
    let d = byte_at(values, line, at + 6);
    u32::from_be_bytes([a, b, c, d])
}

// The facts that the first line gives: its four numbers, or none where it is not 32 digits.
#[tactic(auto, using(std::proofs::lemmas::Bool::Decides::nat_tests), unfolding(crate::specs::Hexadecimal::facts_of))]
pub fn facts_of(line: &[u8]) -> Option<Facts>
    ensures { result ≡ facts_of line.now }
{
    if line.len() != 32 {
        return None;
    }
    let values = Values::new();
    if !all_digits(&values, line) {
        return None;
    }
    Some(Facts {
        strings: number_at(&values, line, 0),
        contigs: number_at(&values, line, 8),
        people: number_at(&values, line, 16),
        gt: number_at(&values, line, 24),
    })
}

// How many values a line of at most `most` digits has, `width` digits each, where a buffer has room for them: a bad line is told before a short buffer.
#[tactic(auto, using(std::proofs::lemmas::Bool::Decides::nat_tests), unfolding(crate::specs::Hexadecimal::counted))]
fn values_in(
    values: &Values,
    line: &[u8],
    most: usize,
    width: usize,
    room: usize,
) -> Result<usize, LineError>
    requires { 0 < width }
    ensures value { result ≡ counted most width room line.now }
    ensures sound { IfOk result (λ n. (n ≤ room) × (length line.now ≡ n * width) × (digits line.now ≡ true)) }
{
    if most < line.len() || line.len() % width != 0 || !all_digits(values, line) {
        return Err(LineError::Bad);
    }
    let n = line.len() / width;
    if room < n {
        return Err(LineError::NoRoom);
    }
    Ok(n)
}

// Fills a part with the people of a line of digits.
#[tactic(auto, using(words::proofs::Stores::fills, crate::proofs::Digits::eights_next, crate::proofs::Digits::eights_end))]
fn store_people(values: &Values, line: &[u8], part: &mut [u32])
    requires { (length line.now ≡ length part.old * 8) × (digits line.now ≡ true) }
    ensures { part.new ≡ eights (length part.old) line.now }
{
    for (i, person) in part.iter_mut().enumerate() {
        *person = number_at(values, line, 8 * i);
    }
}

// A choice's line: its people stored from the buffer's start on, and how many they are; a bad line is told before a short buffer, and neither writes.
pub fn read_choice(line: &[u8], choice: &mut [u32]) -> Result<usize, LineError>
    ensures told { result ≡ choice_answered (length choice.old) (choice_of line.now) }
    ensures inside { PeopleInside (length choice.old) result }
    ensures written { choice.new ≡ stored choice.old (choice_of line.now) }
{
    let values = Values::new();
    let n = values_in(&values, line, MOST_CHOICE_DIGITS, 8, choice.len())?;
    store_people(&values, line, &mut choice[..n]);
    Ok(n)
}

// Fills a part with the bytes of a line of digits.
#[tactic(auto, using(words::proofs::Stores::fills, crate::proofs::Digits::paired_turn, crate::proofs::Digits::paired_end))]
fn store(values: &Values, line: &[u8], part: &mut [u8])
    requires { (length line.now ≡ length part.old * 2) × (digits line.now ≡ true) }
    ensures { part.new ≡ line_bytes line.now }
{
    for (i, byte) in part.iter_mut().enumerate() {
        *byte = byte_at(values, line, 2 * i);
    }
}

// A record's line: its bytes stored from the buffer's start on, and how many they are; a bad line is told before a short buffer, and neither writes.
pub fn decode(line: &[u8], buf: &mut [u8]) -> Result<usize, LineError>
    ensures told { result ≡ answered (length buf.old) (frame_of line.now) }
    ensures inside { BytesInside (length buf.old) result }
    ensures written { buf.new ≡ stored buf.old (frame_of line.now) }
{
    let values = Values::new();
    let n = values_in(&values, line, MOST_DIGITS, 2, buf.len())?;
    store(&values, line, &mut buf[..n]);
    Ok(n)
}
