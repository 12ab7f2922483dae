// The line program: reads hexadecimal frames from standard input, a line each, and writes an answer line for each record.
// What is said of a line is frames', and how an input is run over is runs'; this ties the one to the other.
#![tactic(auto)]

ghost use Rattle.frames.specs.Steps.{text_from};
ghost use Rattle.frames.specs.Printed.{printed};
ghost use Rattle.runs.specs.Runs.{Ran};

use frames::Stage;
use runs::Program;
use std::io::{Read, Write};

// Where the input stands, and the bytes of a record of it: the longest that a line holds has room.
#[derive(Drop)]
struct Answering {
    stage: Stage,
    frame: [u8; 30000],
}

impl Program for Answering {
    ghost says = { λ a. text_from a.stage };

    const ROOM: usize = 2048;

    fn step(&mut self, line: &[u8], out: &mut [u8], waiting: usize) -> Option<usize> {
        let next = frames::step(self.stage, line, &mut self.frame, out, waiting)?;
        self.stage = next.stage;
        Some(next.waiting)
    }

    fn finish(&mut self, out: &mut [u8], waiting: usize) -> Option<usize> {
        let next = frames::finish(self.stage, out, waiting)?;
        self.stage = next.stage;
        Some(next.waiting)
    }

    #[tactic(auto, using(crate::proofs::Says::ended_says))]
    fn is_ended(&self) -> bool {
        frames::is_ended(self.stage)
    }
}

// Tells that the first line was bad, where it was.
fn tell_bad<E: Write>(stage: Stage, errors: &mut E) {
    if frames::is_ended(stage) {
        pump::say(
            errors,
            b"bcflines: the first line has to be 32 hexadecimal digits: strings, contigs, people and GT offset, eight each",
        );
    }
}

// Answers an input, and tells where its first line is bad. Says whether all of the answer was written; where it was not, that is told.
pub fn answer<R: Read, W: Write, E: Write>(input: &mut R, output: &mut W, errors: &mut E) -> bool
    ensures { Ran printed (R.remaining input.old) (W.contents output.old) (W.contents output.new) result }
{
    let mut piece = [0u8; 65536];
    // One character more than a line may have: a longer one is then known to be bad.
    let mut line = [0u8; 60001];
    let mut out = [0u8; 65536];
    let mut program = Answering {
        stage: Stage::First,
        frame: [0u8; 30000],
    };
    let written = runs::run(
        &mut program,
        input,
        output,
        errors,
        &mut piece,
        &mut line,
        &mut out,
    );
    if written {
        tell_bad(program.stage, errors);
    }
    written
}

fn main(rt: HostRuntime) {
    answer(&mut rt.stdin(), &mut rt.stdout(), &mut rt.stderr());
}
