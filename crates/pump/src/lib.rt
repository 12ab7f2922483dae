// What moves a line program's bytes: a piece read, what waits written, and what goes wrong outside told on standard error.
// Rests on stores for what has room. Of what is read or written these promise ranges; and of a reader or a writer that tells its bytes, which ones.
#![tactic(auto)]

ghost use Rattle.std.specs.Prelude.{ltb, length};
ghost use Rattle.stores.specs.Stores.{fits};
ghost use Rattle.pump.specs.Pump.{PieceInside, PieceTaken, WroteInside, WaitingWritten, RoomMade, RoomWritten};

use std::io;
use std::io::{Read, Write};

#[cfg(test)]
mod tests;

// The next piece of the input: so many bytes of it; none, where the input has ended; or a read that failed, which is told.
#[derive(Clone, Copy, Debug, PartialEq, Eq)]
pub enum Piece {
    Bytes(usize),
    End,
    Failed,
}

// Tells on standard error that a buffer is too short.
pub fn say_no_room<E: Write>(errors: &mut E) {
    say(errors, b"a buffer is too short");
}

// Tells a line on standard error.
pub fn say<E: Write>(errors: &mut E, text: &[u8]) {
    let _ = errors.write_all(text);
    let _ = errors.write_all(b"\n");
}

// Tells on standard error what failed, and why in the system's words, without the number that std puts behind them.
fn say_failed<E: Write>(errors: &mut E, what: &str, error: io::Error) {
    let mut text = [0u8; 256];
    let mut room = &mut text[..];
    let _ = write!(room, "{error}");
    let left = room.len();
    let n = text.len().saturating_sub(left);
    let words = str::from_utf8(&text[..n]).unwrap_or("");
    let why = match words.split_once(" (os error ") {
        Some((before, _)) => before,
        None => words,
    };
    let _ = writeln!(errors, "{what}: {why}");
}

// Reads the next piece of standard input. Where it has ended, a line of which bytes are held gets the feed that it lacks.
pub fn next_piece<R: Read, E: Write>(
    input: &mut R,
    errors: &mut E,
    piece: &mut [u8],
    held: usize,
) -> Piece
    ensures inside { PieceInside (length piece.old) result }
    ensures taken { PieceTaken (R.remaining input.old) (R.remaining input.new) held piece.new result }
{
    let n = match input.read(piece) {
        Ok(n) => n,
        Err(error) => {
            say_failed(errors, "standard input", error);
            return Piece::Failed;
        }
    };
    if 0 < n {
        return Piece::Bytes(n);
    }
    if held == 0 {
        return Piece::End;
    }
    if piece.len() == 0 {
        return Piece::End;
    }
    piece[0] = b'\n';
    Piece::Bytes(1)
}

// Writes the text that waits at the start of a buffer to standard output, and says whether all of it was written; where it was not, that is told.
pub fn write_waiting<W: Write, E: Write>(
    output: &mut W,
    errors: &mut E,
    out: &[u8],
    waiting: usize,
) -> bool
    ensures inside { WroteInside (ltb (length out.now) waiting) result }
    ensures written { WaitingWritten (W.contents output.old) (W.contents output.new) out.now waiting result }
{
    if out.len() < waiting {
        say_no_room(errors);
        return false;
    }
    match output.write_all(&out[..waiting]) {
        Ok(()) => true,
        Err(error) => {
            say_failed(errors, "standard output", error);
            false
        }
    }
}

// Makes room for so many bytes behind what waits: that is written where there is less. Answers how many bytes wait then, or nothing where the write
// failed, which is told.
pub fn make_room<W: Write, E: Write>(
    output: &mut W,
    errors: &mut E,
    out: &[u8],
    waiting: usize,
    room: usize,
) -> Option<usize>
    ensures inside { RoomMade (fits (length out.now) waiting room) waiting result }
    ensures written { RoomWritten (fits (length out.now) waiting room) (W.contents output.old) (W.contents output.new) out.now waiting result }
{
    if stores::has_room(out.len(), waiting, room) {
        return Some(waiting);
    }
    if write_waiting(output, errors, out, waiting) {
        return Some(0);
    }
    None
}
