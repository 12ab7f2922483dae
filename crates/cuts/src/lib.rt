// What the cutting program says of one line: the chosen record's whole text, into a lent buffer; the first line of the release; and its step from
// line to line.
// Rests on choose for the chosen record, on capitals for its text, and on frames for the text of what is refused.
#![tactic(auto)]

ghost use Rattle.std.specs.Prelude.{◌≡◌, ◌+◌, ◌≤◌, length, take, Some};
ghost use Rattle.std.proofs.lemmas.List.Edits.{sets};
ghost use Rattle.frames.specs.Frames.{TextInside};
ghost use Rattle.frames.specs.Steps.{next, StepInside};
ghost use Rattle.cuts.specs.Cuts.{record_text, cut_record, kept_record, roomy, record_room, line_room, cut, cut_out, cut_from, cut_kept};
ghost use Rattle.cuts.specs.Engine.{followed};
ghost use Rattle.cuts.specs.Release.{release_line, release_said, release_said_in};
ghost use Rattle.cuts.specs.Cuts.{cut_line, kept_frame};
ghost use Rattle.cuts.specs.Steps.{stage_after, line_text, stage_chosen, text_chosen, choice_after, frame_after, chosen_after, step_room, stepped, stepped_out, finished, finished_out, people_of, ended};
ghost use Rattle.cuts.specs.declared.Stage.TheVariants.{First, Choice, Records};
ghost use Rattle.frames.specs.Text.{bad_line};
ghost use Rattle.hexadecimal.specs.Hexadecimal.{choice_of, frame_of, stored};
ghost use Rattle.words.specs.Pick.{pick};

use facts::Facts;
use frames::Next;
use hexadecimal::LineError;

// The room that any record of a line has, any answer, and any choice.
const RECORD_ROOM: usize = 30000;

const LINE_ROOM: usize = 60001;

const CHOICE_ROOM: usize = 30000;

// Where the input stands: before its first line, before the choice, among the records' lines, with so many people chosen, or past a first or a second
// line that is bad or absent.
#[derive(Clone, Copy)]
pub enum Stage {
    First,
    Choice(Facts),
    Records { facts: Facts, people: usize },
    BadFirst,
    BadChoice,
}

// Which line has ended it, being bad or absent: the first, or the second.
#[derive(Clone, Copy, Debug, PartialEq, Eq)]
pub enum BadLine {
    First,
    Second,
}

// Whether bytes follow the record at the start of a slice, by the record's own lengths.
#[tactic(auto, unfolding(crate::specs::Engine::followed))]
fn is_followed(bytes: &[u8]) -> bool
    ensures { result ≡ followed bytes.now }
{
    match fixed::blocks_of(bytes) {
        Ok(blocks) => blocks.length < bytes.len(),
        Err(_) => false,
    }
}

// Says a record's text.
fn say_text(out: &mut [u8], bytes: &[u8]) -> Option<usize>
    requires { (length bytes.now ≤ record_room) × (line_room ≤ length out.old) }
    ensures value { result ≡ Some (length (record_text bytes.now)) }
    ensures text_inside { TextInside (length out.old) result }
    ensures out_after { out.new ≡ sets out.old 0 (record_text bytes.now) }
{
    let n = bytes.len() * 2;
    capitals::put_capitals(out, 0, bytes);
    out[n] = b'\n';
    Some(n + 1)
}

// Says the answer to a record's bytes. A record that bytes follow is read and not chosen from, so that none is read twice.
fn say_record(
    out: &mut [u8],
    bytes: &[u8],
    facts: Facts,
    choice: &[u32],
    chosen: &mut [u8],
) -> Option<usize>
    requires { (length bytes.now ≤ record_room) × (record_room ≤ length chosen.old) × (line_room ≤ length out.old) }
    ensures value { result ≡ Some (length (cut_record facts choice.now bytes.now)) }
    ensures text_inside { TextInside (length out.old) result }
    ensures out_after { out.new ≡ sets out.old 0 (cut_record facts choice.now bytes.now) }
    ensures chosen_after { chosen.new ≡ kept_record facts choice.now chosen.old bytes.now }
{
    if is_followed(bytes) {
        return match record::read(bytes, facts) {
            Ok(_) => frames::say_bad(out),
            Err(r) => frames::say_refusal(out, r),
        };
    }
    match choose::choose(bytes, facts, choice, chosen) {
        Ok(n) => say_text(out, &chosen[..n]),
        Err(r) => frames::say_refusal(out, r),
    }
}

// Whether any record has room in the buffers, and any answer.
#[tactic(auto, unfolding(crate::specs::Cuts::roomy))]
fn is_roomy(frame: &[u8], chosen: &[u8], out: &[u8]) -> bool
    ensures { result ≡ roomy frame.now chosen.now out.now }
{
    RECORD_ROOM <= frame.len() && RECORD_ROOM <= chosen.len() && LINE_ROOM <= out.len()
}

// The answer to a record's line, the whole text, at the start of `out`, and its length; the record's bytes go to the start of `frame`, those of
// the record of the chosen people to the start of `chosen`. Or no room, and nothing said.
pub fn cut_line(
    line: &[u8],
    facts: Facts,
    choice: &[u32],
    frame: &mut [u8],
    chosen: &mut [u8],
    out: &mut [u8],
) -> Option<usize>
    ensures told { result ≡ cut frame.old chosen.old out.old facts choice.now line.now }
    ensures inside { TextInside (length out.old) result }
    ensures written { out.new ≡ cut_out frame.old chosen.old out.old facts choice.now line.now }
    ensures decoded { frame.new ≡ cut_from frame.old chosen.old out.old line.now }
    ensures kept { chosen.new ≡ cut_kept frame.old chosen.old out.old facts choice.now line.now }
{
    if !is_roomy(frame, chosen, out) {
        return None;
    }
    match hexadecimal::decode(line, frame) {
        Ok(n) => say_record(out, &frame[..n], facts, choice, chosen),
        Err(LineError::Bad) => frames::say_bad(out),
        Err(LineError::NoRoom) => None,
    }
}

// The first line of the release, at the start of `out`: the header's facts with the people that were chosen; or no room, and nothing written.
#[tactic(auto, unfolding(crate::specs::Release::release_said, crate::specs::Release::release_said_in))]
pub fn release_line(facts: Facts, people: u32, out: &mut [u8]) -> Option<usize>
    ensures told { result ≡ release_said (length out.old) facts people }
    ensures inside { TextInside (length out.old) result }
    ensures written { out.new ≡ release_said_in out.old facts people }
{
    if out.len() < 33 {
        return None;
    }
    capitals::put_eight(out, 0, facts.strings);
    capitals::put_eight(out, 8, facts.contigs);
    capitals::put_eight(out, 16, people);
    capitals::put_eight(out, 24, facts.gt);
    out[32] = b'\n';
    Some(33)
}

// How many people of the choice the stage counts; none before the choice is there.
pub fn people_of(stage: Stage) -> usize
    ensures { result ≡ people_of stage }
{
    match stage {
        Stage::Records { people, .. } => people,
        _ => 0,
    }
}

// The line that has ended it, so that nothing more is said whatever the input still has; or nothing has.
pub fn ended_by(stage: Stage) -> Option<BadLine>
    ensures { result ≡ ended stage }
{
    match stage {
        Stage::BadFirst => Some(BadLine::First),
        Stage::BadChoice => Some(BadLine::Second),
        Stage::First | Stage::Choice(_) | Stage::Records { .. } => None,
    }
}

// Whether each buffer has the room that a step may need.
#[tactic(auto, unfolding(crate::specs::Steps::step_room))]
fn has_step_room(
    choice: usize,
    frame: usize,
    chosen: usize,
    out: usize,
    waiting: usize,
    stage: Stage,
) -> bool
    ensures { result ≡ step_room choice frame chosen out waiting stage }
{
    CHOICE_ROOM <= choice
        && people_of(stage) <= choice
        && RECORD_ROOM <= frame
        && RECORD_ROOM <= chosen
        && stores::has_room(out, waiting, LINE_ROOM)
}

// Says `bad` behind what waits; the input stands then where it is said to.
fn bad_step(stage: Stage, out: &mut [u8], waiting: usize) -> Option<Next<Stage>>
    requires { waiting + line_room ≤ length out.old }
    ensures value { result ≡ next stage (waiting + length bad_line) }
    ensures step_inside { StepInside (length out.old) result }
    ensures out_after { out.new ≡ sets out.old waiting bad_line }
{
    let n = frames::say_bad(&mut out[waiting..])?;
    Some(Next {
        stage,
        waiting: waiting + n,
    })
}

// The step of the first line.
#[tactic(auto, unfolding(crate::specs::Steps::stage_after, crate::specs::Steps::line_text))]
fn first_step(line: &[u8], out: &mut [u8], waiting: usize) -> Option<Next<Stage>>
    requires { waiting + line_room ≤ length out.old }
    ensures value { result ≡ next (stage_after First line.now) (waiting + length (line_text line.now First line.now)) }
    ensures step_inside { StepInside (length out.old) result }
    ensures out_after { out.new ≡ sets out.old waiting (line_text line.now First line.now) }
{
    match hexadecimal::facts_of(line) {
        Some(facts) => Some(Next {
            stage: Stage::Choice(facts),
            waiting,
        }),
        None => bad_step(Stage::BadFirst, out, waiting),
    }
}

// The release's first line, behind what waits.
fn release_step(facts: Facts, people: usize, out: &mut [u8], waiting: usize) -> Option<Next<Stage>>
    requires { (people ≤ record_room) × (waiting + line_room ≤ length out.old) }
    ensures value { result ≡ next (Records facts people) (waiting + length (release_line facts people)) }
    ensures step_inside { StepInside (length out.old) result }
    ensures out_after { out.new ≡ sets out.old waiting (release_line facts people) }
{
    let n = release_line(facts, people as u32, &mut out[waiting..])?;
    Some(Next {
        stage: Stage::Records { facts, people },
        waiting: waiting + n,
    })
}

// The step of the choice's line.
fn choice_step(
    line: &[u8],
    facts: Facts,
    choice: &mut [u32],
    out: &mut [u8],
    waiting: usize,
) -> Option<Next<Stage>>
    requires { (record_room ≤ length choice.old) × (waiting + line_room ≤ length out.old) }
    ensures value { result ≡ next (stage_chosen facts (choice_of line.now)) (waiting + length (text_chosen facts (choice_of line.now))) }
    ensures step_inside { StepInside (length out.old) result }
    ensures out_after { out.new ≡ sets out.old waiting (text_chosen facts (choice_of line.now)) }
    ensures choice_after { choice.new ≡ stored choice.old (choice_of line.now) }
{
    match hexadecimal::read_choice(line, choice) {
        Ok(people) => release_step(facts, people, out, waiting),
        Err(LineError::Bad) => bad_step(Stage::BadChoice, out, waiting),
        Err(LineError::NoRoom) => None,
    }
}

// The step of a record's line.
fn record_step(
    line: &[u8],
    facts: Facts,
    choice: &[u32],
    frame: &mut [u8],
    chosen: &mut [u8],
    out: &mut [u8],
    waiting: usize,
    people: usize,
) -> Option<Next<Stage>>
    requires { (record_room ≤ length frame.old) × (record_room ≤ length chosen.old) × (waiting + line_room ≤ length out.old) × (people ≤ length choice.now) }
    ensures value { result ≡ next (Records facts people) (waiting + length (cut_line facts (take people choice.now) line.now)) }
    ensures step_inside { StepInside (length out.old) result }
    ensures out_after { out.new ≡ sets out.old waiting (cut_line facts (take people choice.now) line.now) }
    ensures frame_after { frame.new ≡ stored frame.old (frame_of line.now) }
    ensures chosen_after { chosen.new ≡ kept_frame facts (take people choice.now) chosen.old (frame_of line.now) }
{
    let n = cut_line(
        line,
        facts,
        &choice[..people],
        frame,
        chosen,
        &mut out[waiting..],
    )?;
    Some(Next {
        stage: Stage::Records { facts, people },
        waiting: waiting + n,
    })
}

// The step of a line: its answer's text is put behind what waits in `out`; the people of a choice at the start of `choice`, a record's bytes at the start
// of `frame`, those of the record of the chosen people at the start of `chosen`. Or no room, and nothing is put.
#[tactic(auto, using(crate::proofs::Steps::step_rooms), unfolding(crate::specs::Steps::stepped, crate::specs::Steps::stepped_out, crate::specs::Steps::stage_after, crate::specs::Steps::line_text, crate::specs::Steps::choice_after, crate::specs::Steps::frame_after, crate::specs::Steps::chosen_after))]
pub fn step(
    stage: Stage,
    line: &[u8],
    choice: &mut [u32],
    frame: &mut [u8],
    chosen: &mut [u8],
    out: &mut [u8],
    waiting: usize,
) -> Option<Next<Stage>>
    ensures told { result ≡ stepped (step_room (length choice.old) (length frame.old) (length chosen.old) (length out.old) waiting stage) waiting choice.old stage line.now }
    ensures inside { StepInside (length out.old) result }
    ensures written { out.new ≡ stepped_out (step_room (length choice.old) (length frame.old) (length chosen.old) (length out.old) waiting stage) waiting out.old choice.old stage line.now }
    ensures people { choice.new ≡ pick (step_room (length choice.old) (length frame.old) (length chosen.old) (length out.old) waiting stage) (choice_after choice.old stage line.now) choice.old }
    ensures decoded { frame.new ≡ pick (step_room (length choice.old) (length frame.old) (length chosen.old) (length out.old) waiting stage) (frame_after frame.old stage line.now) frame.old }
    ensures kept { chosen.new ≡ pick (step_room (length choice.old) (length frame.old) (length chosen.old) (length out.old) waiting stage) (chosen_after choice.old chosen.old stage line.now) chosen.old }
{
    let roomy = has_step_room(
        choice.len(),
        frame.len(),
        chosen.len(),
        out.len(),
        waiting,
        stage,
    );
    if !roomy {
        return None;
    }
    match stage {
        Stage::First => first_step(line, out, waiting),
        Stage::Choice(facts) => choice_step(line, facts, choice, out, waiting),
        Stage::Records { facts, people } => {
            record_step(line, facts, choice, frame, chosen, out, waiting, people)
        }
        Stage::BadFirst | Stage::BadChoice => Some(Next { stage, waiting }),
    }
}

// The end of the input: `bad` is put behind what waits where a first or second line is absent. Or no room, and nothing is put.
#[tactic(auto, using(stores::proofs::Room::room_there), unfolding(crate::specs::Steps::finished, crate::specs::Steps::finished_out, crate::specs::Steps::stage_at_end, crate::specs::Steps::end_text))]
pub fn finish(stage: Stage, out: &mut [u8], waiting: usize) -> Option<Next<Stage>>
    ensures told { result ≡ finished (length out.old) waiting stage }
    ensures inside { StepInside (length out.old) result }
    ensures written { out.new ≡ finished_out out.old waiting stage }
{
    if !stores::has_room(out.len(), waiting, LINE_ROOM) {
        return None;
    }
    match stage {
        Stage::First => bad_step(Stage::BadFirst, out, waiting),
        Stage::Choice(_) => bad_step(Stage::BadChoice, out, waiting),
        Stage::Records { .. } | Stage::BadFirst | Stage::BadChoice => Some(Next { stage, waiting }),
    }
}
