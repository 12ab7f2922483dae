// A build's state as 266 numbers that a caller of another language keeps between turns, and what a turn tells and leaves there.
// Rests on build for the state and on c_answers for answers.
#![tactic(auto)]

ghost use Rattle.std.specs.Prelude.{◌≡◌, length};
ghost use Rattle.stores.specs.Stores.{filled};
ghost use Rattle.c_state.specs.Kept.{stage_of, state_numbers, no_state, state_of, turn_answer, turn_numbers, fresh_answer, fresh_numbers};

use build::{Builder, Stage, Turned};
use facts::Facts;

// The stage of a rank; past the last one nothing is taken any more.
#[tactic(auto, unfolding(crate::specs::Kept::stage_of))]
fn stage_of(rank: u32) -> Stage
    ensures { result ≡ stage_of rank }
{
    match rank {
        0 => Stage::Fresh,
        1 => Stage::Begun,
        2 => Stage::Named,
        3 => Stage::Alleles,
        4 => Stage::Filtered,
        5 => Stage::Infos,
        6 => Stage::Formats,
        _ => Stage::Ended,
    }
}

// A state that takes no turn.
fn no_state() -> Builder
    ensures { result ≡ no_state }
{
    Builder {
        facts: Facts {
            strings: 0,
            contigs: 0,
            people: 0,
            gt: 0,
        },
        at: 0,
        border: 0,
        alleles: 0,
        infos: 0,
        formats: 0,
        stage: Stage::Ended,
        keys: [0u32; 256],
    }
}

// The state that 266 numbers hold; fewer hold one that takes no turn.
#[tactic(auto, unfolding(crate::specs::Kept::state_of))]
pub fn state_of(numbers: &[u32]) -> Builder
    ensures { result ≡ state_of numbers.now }
{
    if numbers.len() < 266 {
        return no_state();
    }
    let facts = Facts {
        strings: numbers[0],
        contigs: numbers[1],
        people: numbers[2],
        gt: numbers[3],
    };
    let stage = stage_of(numbers[9]);
    let mut keys = [0u32; 256];
    keys.copy_from_slice(&numbers[10..266]);
    Builder {
        facts,
        at: numbers[4],
        border: numbers[5],
        alleles: (numbers[6] % 65536) as u16,
        infos: (numbers[7] % 65536) as u16,
        formats: (numbers[8] % 256) as u8,
        stage,
        keys,
    }
}

// Stores a state's numbers, where they have room.
fn put_state(numbers: &mut [u32], state: Builder)
    ensures { numbers.new ≡ filled numbers.old 0 (state_numbers state) }
{
    if numbers.len() < 266 {
        return;
    }
    let stage = state.stage;
    let keys = state.keys;
    let first = [
        state.facts.strings,
        state.facts.contigs,
        state.facts.people,
        state.facts.gt,
        state.at,
        state.border,
        u32::from(state.alleles),
        u32::from(state.infos),
        u32::from(state.formats),
        u32::from(build::rank_of(stage)),
    ];
    c_answers::put_all(numbers, 0, &first);
    c_answers::put_all(numbers, 10, &keys);
}

// Tells what a turn answered, the bytes written so far or its refusal, and stores the state after it; a refused one leaves the numbers as they
// are.
pub fn keep(numbers: &mut [u32], t: Turned) -> u64
    ensures told { result ≡ turn_answer t }
    ensures written { numbers.new ≡ turn_numbers numbers.old t }
{
    match t.answer {
        Ok(()) => {
            put_state(numbers, t.state);
            c_answers::answer_of(0, t.state.at as usize)
        }
        Err(r) => c_answers::refused_answer(r),
    }
}

// Stores a fresh state, or tells 13 where it has no room and stores nothing.
#[tactic(auto, unfolding(crate::specs::Kept::fresh_answer, crate::specs::Kept::fresh_numbers))]
pub fn put_fresh(numbers: &mut [u32]) -> u64
    ensures told { result ≡ fresh_answer (length numbers.old) }
    ensures written { numbers.new ≡ fresh_numbers numbers.old }
{
    let room = numbers.len();
    put_state(numbers, build::fresh());
    if room < 266 {
        return c_answers::answer_of(13, 0);
    }
    c_answers::answer_of(0, 0)
}
