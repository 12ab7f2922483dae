// A choice of people: whether it ascends, and the size of what it keeps of FORMAT fields, which is known before any byte is written.
// Rests on fetch for the FORMAT fields.
#![tactic(auto)]

ghost use Rattle.std.specs.Prelude.{◌≡◌, ◌-◌, ◌*◌, ◌^◌, ◌<◌, ◌≤◌, drop, length};
ghost use Rattle.types.specs.Rows.{width_of};
ghost use Rattle.choice.specs.Choice.{ascending};
ghost use Rattle.choice.specs.Sizes.{fields_size, kept_size};

use fetch::{Found, Kind};

// Whether person numbers are strictly ascending, each below the people.
#[tactic(auto, using(crate::proofs::Choice::ascending_turn, crate::proofs::Choice::ascending_end))]
pub fn is_ascending(choice: &[u32], people: u32) -> bool
    ensures { result ≡ ascending people choice.now }
{
    let mut least = 0;
    for &c in choice {
        if c < least || people <= c {
            return false;
        }
        least = c + 1;
    }
    true
}

// The bytes of one person's part of a field.
#[tactic(auto, using(values::proofs::Room::prod))]
pub fn part_size(code: u8, len: u32) -> usize
    ensures { (result ≡ len * width_of code) × (result < 2 ^ 40) }
{
    let row = types::row_of(code);
    len as usize * row.width as usize
}

// The bytes of so many FORMAT fields from a place on, where so many people are kept.
#[tactic(auto, using(crate::proofs::Sizes::kept_parts, crate::proofs::Sizes::size_turn, crate::proofs::Sizes::size_none, fetch_laws::proofs::Present::paired_stop), unfolding(crate::specs::Sizes::fields_size))]
fn fields_size(block: &[u8], from: usize, people: u32, kept: usize, count: u8) -> usize
    requires { kept ≤ people }
    ensures value { result ≡ fields_size people kept count from (drop from block.now) }
    ensures upper_bound { result ≤ length block.now - from }
{
    let mut sum = 0;
    let mut at = from;
    for _ in 0..count {
        let Ok(
            Found {
                code,
                len,
                place,
                stop,
                ..
            },
        ) = fetch::field_at(block, at, Kind::Format, people)
        else {
            return sum;
        };
        sum += place - at + kept * part_size(code, len);
        at = stop;
    }
    sum
}

// The bytes of so many FORMAT fields from a place on, where so many people are kept; 0 where they would be more than there are.
#[tactic(auto, unfolding(crate::specs::Sizes::kept_size))]
pub fn kept_size(block: &[u8], from: usize, people: u32, kept: usize, count: u8) -> usize
    ensures value { result ≡ kept_size people kept count from (drop from block.now) }
    ensures upper_bound { result ≤ length block.now - from }
{
    if (people as usize) < kept {
        return 0;
    }
    fields_size(block, from, people, kept, count)
}
