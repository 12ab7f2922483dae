// The run of a program that answers an input's lines one after the other: each is read, answered and written, until the input or the program ends.
// Rests on lines for where a line ends, and on pump for how bytes come and go.
#![tactic(auto)]

ghost use Rattle.std.specs.Prelude.{ℕ, ◌≡◌, ◌<◌, ◌≤◌, true, List, [], ◌++◌, length, take, IfSome};
ghost use Rattle.std.specs.Io.KnownBytes.{Appends};
ghost use Rattle.lines.proofs.Pieces.{Whole};
ghost use Rattle.runs.specs.Runs.{Stepped, Finished, Ended, said_of, Ran};
ghost use Rattle.runs.specs.Engine.{left, Answered, Moved};

use lines::Taken;
use pump::Piece;
use std::io::{Read, Write};

// A program that puts its answer to each line behind the text that waits to be written.
pub trait Program {
    // What it says of all the lines that are still to come, and of the input's end.
    ghost says: { Self → List (List ℕ) → List ℕ };

    // The room that any answer has.
    const ROOM: usize;

    // Puts the answer to a line behind what waits, and answers how much waits then; or a buffer is too short, and nothing is put.
    fn step(&mut self, line: &[u8], out: &mut [u8], waiting: usize) -> Option<usize>
        ensures { Stepped (says self.old) (says self.new) line.now out.old out.new waiting result };

    // Puts what the end of the input is answered behind what waits, and answers how much waits then; or a buffer is too short, and nothing is put.
    fn finish(&mut self, out: &mut [u8], waiting: usize) -> Option<usize>
        ensures { Finished (says self.old) out.old out.new waiting result };

    // Whether it has ended, so that nothing more is said whatever the input still has.
    fn is_ended(&self) -> bool
        ensures { Ended (says self.now) result };
}

// How many bytes of a line are held, and how many of text wait.
#[derive(Clone, Copy)]
struct Kept {
    held: usize,
    waiting: usize,
}

// Answers a line, and makes room for the next answer. Answers how much waits then; or a buffer was too short or a write failed, which is told.
fn answer<P: Program, W: Write, E: Write>(
    program: &mut P,
    line: &[u8],
    out: &mut [u8],
    waiting: usize,
    output: &mut W,
    errors: &mut E,
) -> Option<usize>
    ensures { IfSome result (λ n. Answered (P.says program.old) (P.says program.new) line.now (take waiting out.old) (take n out.new) (W.contents output.old) (W.contents output.new)) }
{
    let Some(n) = program.step(line, out, waiting) else {
        pump::say_no_room(errors);
        return None;
    };
    pump::make_room(output, errors, out, n, P::ROOM)
}

// Answers the lines of a piece one after the other, after the bytes of a line that are held, until the piece or the program ends. Or a buffer was too
// short or a write failed, which is told.
fn answer_piece<P: Program, W: Write, E: Write>(
    program: &mut P,
    piece: &[u8],
    line: &mut [u8],
    out: &mut [u8],
    kept: Kept,
    output: &mut W,
    errors: &mut E,
) -> Option<Kept>
    requires { (0 < length line.old) × (kept.held ≤ length line.old) × Whole (take kept.held line.old) }
    ensures held { IfSome result (λ k. (k.held ≤ length line.new) × Whole (take k.held line.new)) }
    ensures moved { IfSome result (λ k. Moved (λ more. left (P.says program.old) line.old out.old kept (piece.now ++ more)) (left (P.says program.new) line.new out.new k) (W.contents output.old) (W.contents output.new)) }
{
    let mut held = kept.held;
    let mut waiting = kept.waiting;
    let mut at = 0;
    // Where the next line begins is known only once this one is taken.
    while !program.is_ended() {
        match lines::take(line, held, piece, at) {
            Taken::Line { len, next } => {
                waiting = answer(program, &line[..len], out, waiting, output, errors)?;
                held = 0;
                at = next;
            }
            Taken::Part { held } => return Some(Kept { held, waiting }),
        }
    }
    Some(Kept { held: 0, waiting })
}

// Answers the input's end, and writes all that waits. Says whether all of it was written; where it was not, that is told.
fn finish<P: Program, W: Write, E: Write>(
    program: &mut P,
    out: &mut [u8],
    waiting: usize,
    output: &mut W,
    errors: &mut E,
) -> bool
    ensures { result ≡ true → Appends (W.contents output.old) (W.contents output.new) (take waiting out.old ++ P.says program.old []) }
{
    let Some(n) = program.finish(out, waiting) else {
        pump::say_no_room(errors);
        return false;
    };
    pump::write_waiting(output, errors, out, n)
}

// Runs a program over an input: reads it piece by piece, takes its lines, and writes what the program says of them and of the input's end. Says whether
// the run came to its end; where a read or a write failed, or a buffer is too short, that is told, and it ends there.
pub fn run<P: Program, R: Read, W: Write, E: Write>(
    program: &mut P,
    input: &mut R,
    output: &mut W,
    errors: &mut E,
    piece: &mut [u8],
    line: &mut [u8],
    out: &mut [u8],
) -> bool
    ensures { Ran (said_of (P.says program.old) (length line.old)) (R.remaining input.old) (W.contents output.old) (W.contents output.new) result }
{
    if piece.is_empty() || line.is_empty() {
        pump::say_no_room(errors);
        return false;
    }
    let mut kept = Kept {
        held: 0,
        waiting: 0,
    };
    // A proved loop has to end, and nothing says that the input does: it counts more pieces than any run reads.
    for _ in 0..u64::MAX {
        if program.is_ended() {
            return finish(program, out, kept.waiting, output, errors);
        }
        let n = match pump::next_piece(input, errors, piece, kept.held) {
            Piece::Bytes(n) => n,
            Piece::End => return finish(program, out, kept.waiting, output, errors),
            Piece::Failed => return false,
        };
        match answer_piece(program, &piece[..n], line, out, kept, output, errors) {
            Some(then) => kept = then,
            None => return false,
        }
    }
    false
}
