// What the line program says of one line: the answer's whole text, into a lent buffer; and its step from line to line.
// Rests on hexadecimal and decimal for the text, and on record and tally for what is said.
#![tactic(auto)]

ghost use Rattle.std.specs.Prelude.{[], ◌∷◌, ◌++◌, ◌≡◌, ◌+◌, ◌*◌, ◌≤◌, length};
ghost use Rattle.std.proofs.lemmas.List.Edits.{sets};
ghost use Rattle.frames.specs.Text.{spaced, line, bad_line, no_line};
ghost use Rattle.frames.specs.Frames.{accepted_line, record_line, said, said_in, line_said, line_said_in, TextInside, decoded, answer_line, text_room};
ghost use Rattle.frames.specs.Steps.{next, stage_after, line_text, step_room, frame_room, stepped, stepped_out, stepped_frame, finished, finished_out, StepInside, ended};
ghost use Rattle.frames.specs.declared.Stage.TheVariants.{First, Records, Ended};
ghost use Rattle.hexadecimal.specs.Hexadecimal.{frame_of, stored};

use facts::Facts;
use fixed::Site;
use genotypes::Gt;
use hexadecimal::LineError;
use record::Reading;
use values::Refusal;

// The room that any answer has, and any record that a line holds.
const TEXT_ROOM: usize = 2048;

const FRAME_ROOM: usize = 30000;

// Where the input stands: before its first line, among the records' lines, or past a first line that is bad or absent.
#[derive(Clone, Copy)]
pub enum Stage {
    First,
    Records(Facts),
    Ended,
}

// After a line: where the input stands then, and how many bytes of text wait.
#[derive(Clone, Copy, Debug, PartialEq, Eq)]
pub struct Next<S> {
    pub stage: S,
    pub waiting: usize,
}

// Puts each number after a space, from a place on, and answers the place after them.
#[tactic(auto, unfolding(crate::specs::Text::spaced))]
fn put_numbers(out: &mut [u8], from: usize, numbers: &[u64]) -> usize
    requires { from + length numbers.now * 21 ≤ length out.old }
    ensures value { result ≡ from + length (spaced numbers.now) }
    ensures upper_bound { result ≤ from + length numbers.now * 21 }
    ensures out_after { out.new ≡ sets out.old from (spaced numbers.now) }
{
    let mut at = from;
    for n in numbers {
        out[at] = b' ';
        at = decimal::put_decimal(out, at + 1, *n).unwrap_or(0);
    }
    at
}

// Puts a whole line at the buffer's start: a word of two letters, two runs of numbers, a line feed. Answers its length.
#[tactic(auto, using(crate::proofs::Texts::line_stored, crate::proofs::Texts::length_line))]
fn put_line(out: &mut [u8], a: u8, b: u8, head: &[u64], more: &[u64]) -> usize
    requires { (length head.now + length more.now ≤ 71) × (2048 ≤ length out.old) }
    ensures value { result ≡ length (line a b (head.now ++ more.now)) }
    ensures upper_bound { result ≤ 2048 }
    ensures out_after { out.new ≡ sets out.old 0 (line a b (head.now ++ more.now)) }
{
    out[0] = a;
    out[1] = b;
    let middle = put_numbers(out, 2, head);
    let last = put_numbers(out, middle, more);
    out[last] = b'\n';
    last + 1
}

// Puts `bad` at the buffer's start.
fn put_bad(out: &mut [u8]) -> usize
    requires { 2048 ≤ length out.old }
    ensures { (result ≡ 4) × (out.new ≡ sets out.old 0 bad_line) }
{
    out[..4].copy_from_slice(b"bad\n");
    4
}

// Puts `no` with a refusal's number and place.
fn put_refusal(out: &mut [u8], r: Refusal) -> usize
    requires { 2048 ≤ length out.old }
    ensures value { result ≡ length (no_line (r.number ∷ r.place ∷ [])) }
    ensures upper_bound { result ≤ 2048 }
    ensures out_after { out.new ≡ sets out.old 0 (no_line (r.number ∷ r.place ∷ [])) }
{
    let numbers = [r.number as u64, r.place as u64];
    put_line(out, b'n', b'o', &numbers, &[])
}

// Says `bad` at the buffer's start: its length; or no room, and nothing said.
#[tactic(auto, unfolding(crate::specs::Frames::said, crate::specs::Frames::said_in))]
pub fn say_bad(out: &mut [u8]) -> Option<usize>
    ensures told { result ≡ said (length out.old) bad_line }
    ensures inside { TextInside (length out.old) result }
    ensures written { out.new ≡ said_in out.old bad_line }
{
    if out.len() < TEXT_ROOM {
        return None;
    }
    Some(put_bad(out))
}

// Says `no` with a refusal's number and place at the buffer's start: its length; or no room, and nothing said.
#[tactic(auto, unfolding(crate::specs::Frames::said, crate::specs::Frames::said_in))]
pub fn say_refusal(out: &mut [u8], r: Refusal) -> Option<usize>
    ensures told { result ≡ said (length out.old) (no_line (r.number ∷ r.place ∷ [])) }
    ensures inside { TextInside (length out.old) result }
    ensures written { out.new ≡ said_in out.old (no_line (r.number ∷ r.place ∷ [])) }
{
    if out.len() < TEXT_ROOM {
        return None;
    }
    Some(put_refusal(out, r))
}

// Puts `ok` with what is said of an accepted record.
#[tactic(auto, using(tally::proofs::Parts::calls_of_length, crate::proofs::Answers::accepted_many, crate::proofs::Answers::accepted_few))]
fn put_accepted(out: &mut [u8], bytes: &[u8], site: Site, gt: Gt) -> usize
    requires { 2048 ≤ length out.old }
    ensures value { result ≡ length (accepted_line site gt bytes.now) }
    ensures upper_bound { result ≤ 2048 }
    ensures out_after { out.new ≡ sets out.old 0 (accepted_line site gt bytes.now) }
{
    let alleles = site.alleles;
    if 64 < alleles {
        let numbers = [
            site.length as u64,
            alleles as u64,
            site.infos as u64,
            site.formats as u64,
            site.people as u64,
        ];
        return put_line(out, b'o', b'k', &numbers, &[]);
    }
    let calls = tally::calls_of(bytes, gt, site.people);
    let counts = calls.counts;
    let numbers = [
        site.length as u64,
        alleles as u64,
        site.infos as u64,
        site.formats as u64,
        site.people as u64,
        calls.without,
    ];
    let n = alleles as usize + 1;
    put_line(out, b'o', b'k', &numbers, &counts[..n])
}

// Puts the answer to a record's bytes at the buffer's start.
#[tactic(auto, unfolding(crate::specs::Frames::record_line))]
fn put_record(out: &mut [u8], bytes: &[u8], facts: Facts) -> usize
    requires { 2048 ≤ length out.old }
    ensures value { result ≡ length (record_line facts bytes.now) }
    ensures upper_bound { result ≤ 2048 }
    ensures out_after { out.new ≡ sets out.old 0 (record_line facts bytes.now) }
{
    let Reading { site, gt } = match record::read(bytes, facts) {
        Ok(reading) => reading,
        Err(r) => return put_refusal(out, r),
    };
    if site.length < bytes.len() {
        return put_bad(out);
    }
    put_accepted(out, bytes, site, gt)
}

// The answer to a record's line, the whole text, at the start of `out`, and its length; the record's bytes go to the start of `frame`. Or no room,
// and nothing said.
pub fn answer_line(line: &[u8], facts: Facts, frame: &mut [u8], out: &mut [u8]) -> Option<usize>
    ensures told { result ≡ line_said (length frame.old) (length out.old) facts line.now }
    ensures inside { TextInside (length out.old) result }
    ensures written { out.new ≡ line_said_in (length frame.old) out.old facts line.now }
    ensures decoded { frame.new ≡ decoded frame.old (length out.old) line.now }
{
    if out.len() < TEXT_ROOM {
        return None;
    }
    match hexadecimal::decode(line, frame) {
        Ok(n) => Some(put_record(out, &frame[..n], facts)),
        Err(LineError::Bad) => Some(put_bad(out)),
        Err(LineError::NoRoom) => None,
    }
}

// Whether any record has room in its buffer, and any answer after the text that waits.
#[tactic(auto, unfolding(crate::specs::Steps::step_room))]
fn has_step_room(frame: usize, out: usize, waiting: usize) -> bool
    ensures { result ≡ step_room frame out waiting }
{
    FRAME_ROOM <= frame && stores::has_room(out, waiting, TEXT_ROOM)
}

// Says `bad` behind what waits, and that it ends there.
fn bad_step(out: &mut [u8], waiting: usize) -> Option<Next<Stage>>
    requires { waiting + text_room ≤ length out.old }
    ensures value { result ≡ next Ended (waiting + length bad_line) }
    ensures step_inside { StepInside (length out.old) result }
    ensures out_after { out.new ≡ sets out.old waiting bad_line }
{
    let n = put_bad(&mut out[waiting..]);
    Some(Next {
        stage: Stage::Ended,
        waiting: waiting + n,
    })
}

// The step of the first line.
#[tactic(auto, unfolding(crate::specs::Steps::stage_after, crate::specs::Steps::line_text))]
fn first_step(line: &[u8], out: &mut [u8], waiting: usize) -> Option<Next<Stage>>
    requires { waiting + text_room ≤ length out.old }
    ensures value { result ≡ next (stage_after First line.now) (waiting + length (line_text First line.now)) }
    ensures step_inside { StepInside (length out.old) result }
    ensures out_after { out.new ≡ sets out.old waiting (line_text First line.now) }
{
    match hexadecimal::facts_of(line) {
        Some(facts) => Some(Next {
            stage: Stage::Records(facts),
            waiting,
        }),
        None => bad_step(out, waiting),
    }
}

// The step of a record's line.
fn record_step(
    line: &[u8],
    facts: Facts,
    frame: &mut [u8],
    out: &mut [u8],
    waiting: usize,
) -> Option<Next<Stage>>
    requires { (frame_room ≤ length frame.old) × (waiting + text_room ≤ length out.old) }
    ensures value { result ≡ next (Records facts) (waiting + length (answer_line facts line.now)) }
    ensures step_inside { StepInside (length out.old) result }
    ensures out_after { out.new ≡ sets out.old waiting (answer_line facts line.now) }
    ensures frame_after { frame.new ≡ stored frame.old (frame_of line.now) }
{
    let n = answer_line(line, facts, frame, &mut out[waiting..])?;
    Some(Next {
        stage: Stage::Records(facts),
        waiting: waiting + n,
    })
}

// The step of a line: its answer's text is put behind what waits in `out`, a record's bytes at the start of `frame`. Or no room, and nothing is put.
#[tactic(auto, using(crate::proofs::Steps::step_rooms), unfolding(crate::specs::Steps::stepped, crate::specs::Steps::stepped_out, crate::specs::Steps::stepped_frame, crate::specs::Steps::stage_after, crate::specs::Steps::line_text))]
pub fn step(
    stage: Stage,
    line: &[u8],
    frame: &mut [u8],
    out: &mut [u8],
    waiting: usize,
) -> Option<Next<Stage>>
    ensures told { result ≡ stepped (length frame.old) (length out.old) waiting stage line.now }
    ensures inside { StepInside (length out.old) result }
    ensures written { out.new ≡ stepped_out (length frame.old) out.old waiting stage line.now }
    ensures decoded { frame.new ≡ stepped_frame frame.old (length out.old) waiting stage line.now }
{
    if !has_step_room(frame.len(), out.len(), waiting) {
        return None;
    }
    match stage {
        Stage::First => first_step(line, out, waiting),
        Stage::Records(facts) => record_step(line, facts, frame, out, waiting),
        Stage::Ended => Some(Next { stage, waiting }),
    }
}

// The end of the input: `bad` is put behind what waits where a first line is absent. Or no room, and nothing is put.
#[tactic(auto, using(stores::proofs::Room::room_there), unfolding(crate::specs::Steps::finished, crate::specs::Steps::finished_out, crate::specs::Steps::stage_at_end, crate::specs::Steps::end_text))]
pub fn finish(stage: Stage, out: &mut [u8], waiting: usize) -> Option<Next<Stage>>
    ensures told { result ≡ finished (length out.old) waiting stage }
    ensures inside { StepInside (length out.old) result }
    ensures written { out.new ≡ finished_out out.old waiting stage }
{
    if !stores::has_room(out.len(), waiting, TEXT_ROOM) {
        return None;
    }
    match stage {
        Stage::First => bad_step(out, waiting),
        Stage::Records(_) | Stage::Ended => Some(Next { stage, waiting }),
    }
}

// Whether a bad or absent first line has ended it, so that nothing more is said whatever the input still has.
pub fn is_ended(stage: Stage) -> bool
    ensures { result ≡ ended stage }
{
    matches!(stage, Stage::Ended)
}
