// Lines of an input that comes in pieces: one line taken at a time, or what a piece has of it, into a lent buffer.
// Rests on stores for what a buffer is afterwards.
#![tactic(auto)]

ghost use Rattle.std.specs.Prelude.{◌≡◌, ◌+◌, ◌-◌, ◌≤◌, length};
ghost use Rattle.std.proofs.lemmas.List.Edits.{sets};
ghost use Rattle.lines.specs.Lines.{line_length, fitting, taken, taken_into, TakenInside, taken_told};

// A line that is there, of `len` bytes, and the place after its feed; or the piece has ended before the line did, and `held` bytes of it are held.
#[derive(Clone, Copy, Debug, PartialEq, Eq)]
pub enum Taken {
    Line { len: usize, next: usize },
    Part { held: usize },
}

// How many bytes of a line are there.
pub fn count_of(t: Taken) -> usize
    ensures { result ≡ (taken_told t).0 }
{
    match t {
        Taken::Line { len, next: _ } => len,
        Taken::Part { held } => held,
    }
}

// How many bytes stand before the first line feed, or before the end where there is none.
#[tactic(auto, using(crate::proofs::Lines::line_inside))]
fn line_length(rest: &[u8]) -> usize
    ensures told { result ≡ line_length rest.now }
    ensures inside { result ≤ length rest.now }
{
    rest.iter().position(|b| *b == b'\n').unwrap_or(rest.len())
}

// Holds more bytes of a line after those that are held, as many as there is room for, and answers how many are held then.
#[tactic(auto, using(stores::proofs::Room::filled_front), unfolding(crate::specs::Lines::fitting))]
fn hold(line: &mut [u8], held: usize, part: &[u8]) -> usize
    ensures told { result ≡ held + length (fitting line.old held part.now) }
    ensures inside { result ≤ held + (length line.old - held) }
    ensures written { line.new ≡ sets line.old held (fitting line.old held part.now) }
{
    let n = line.len().saturating_sub(held).min(part.len());
    stores::put(line, held, &part[..n]);
    held + n
}

// The next line from a place of a piece on, or what the piece has of it, after the bytes of it that are held. All of them stand at the buffer's start
// then, as far as they have room: a line that is longer than the buffer fills it.
#[tactic(auto, using(std::proofs::lemmas::List::take_rest, crate::proofs::Next::taken_past, crate::proofs::Next::into_past, crate::proofs::Next::line_there, crate::proofs::Next::part_there, crate::proofs::Next::into_is))]
pub fn take(line: &mut [u8], held: usize, piece: &[u8], at: usize) -> Taken
    ensures told { result ≡ taken line.old held piece.now at }
    ensures inside { TakenInside (held + (length line.old - held)) (length piece.now) result }
    ensures written { line.new ≡ taken_into line.old held piece.now at }
{
    let Some(rest) = piece.get(at..) else {
        return Taken::Part { held };
    };
    let n = line_length(rest);
    let len = hold(line, held, &rest[..n]);
    if n < rest.len() {
        let next = at + n + 1;
        return Taken::Line { len, next };
    }
    Taken::Part { held: len }
}
