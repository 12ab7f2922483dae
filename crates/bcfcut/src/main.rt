// The cutting program: reads hexadecimal frames from standard input, a line each, and writes those of the release.
// What is said of a line is cuts', and how an input is run over is runs'; this ties the one to the other.
#![tactic(auto)]

ghost use Rattle.cuts.specs.Steps.{text_from};
ghost use Rattle.cuts.specs.Printed.{printed};
ghost use Rattle.runs.specs.Runs.{Ran};

use cuts::{BadLine, Stage};
use runs::Program;
use std::io::{Read, Write};

// Where the input stands, the people of the choice, and the bytes of a record and of the one of the chosen people: any that a line holds have room.
#[derive(Drop)]
struct Cutting {
    stage: Stage,
    choice: [u32; 30000],
    frame: [u8; 30000],
    chosen: [u8; 30000],
}

impl Program for Cutting {
    ghost says = { λ c. text_from c.choice c.stage };

    const ROOM: usize = 60001;

    fn step(&mut self, line: &[u8], out: &mut [u8], waiting: usize) -> Option<usize> {
        let next = cuts::step(
            self.stage,
            line,
            &mut self.choice,
            &mut self.frame,
            &mut self.chosen,
            out,
            waiting,
        )?;
        self.stage = next.stage;
        Some(next.waiting)
    }

    fn finish(&mut self, out: &mut [u8], waiting: usize) -> Option<usize> {
        let next = cuts::finish(self.stage, out, waiting)?;
        self.stage = next.stage;
        Some(next.waiting)
    }

    #[tactic(auto, using(crate::proofs::Says::ended_says))]
    fn is_ended(&self) -> bool {
        cuts::ended_by(self.stage).is_some()
    }
}

// Tells which line was bad, where one was.
fn tell_bad<E: Write>(stage: Stage, errors: &mut E) {
    match cuts::ended_by(stage) {
        Some(BadLine::First) => pump::say(
            errors,
            b"bcfcut: the first line has to be 32 hexadecimal digits: strings, contigs, people and GT offset, eight each",
        ),
        Some(BadLine::Second) => pump::say(
            errors,
            b"bcfcut: the second line has to be the people chosen, eight hexadecimal digits each, at most 30,000 of them",
        ),
        None => {}
    }
}

// Cuts an input, and tells where its first or second line is bad. Says whether all of the release was written; where it was not, that is told.
pub fn cut<R: Read, W: Write, E: Write>(input: &mut R, output: &mut W, errors: &mut E) -> bool
    ensures { Ran printed (R.remaining input.old) (W.contents output.old) (W.contents output.new) result }
{
    let mut piece = [0u8; 65536];
    // One character more than a choice's line may have, and so than any: a longer one is then known to be bad.
    let mut line = [0u8; 240001];
    let mut out = [0u8; 131072];
    let mut program = Cutting {
        stage: Stage::First,
        choice: [0u32; 30000],
        frame: [0u8; 30000],
        chosen: [0u8; 30000],
    };
    let written = runs::run(
        &mut program,
        input,
        output,
        errors,
        &mut piece,
        &mut line,
        &mut out,
    );
    if written {
        tell_bad(program.stage, errors);
    }
    written
}

fn main(rt: HostRuntime) {
    cut(&mut rt.stdin(), &mut rt.stdout(), &mut rt.stderr());
}
