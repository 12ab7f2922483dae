// What is wrong with a turn of building, as the number of its refusal: its order first, by how far the build is, then what it is given. Rests on
// build_append for the first of two numbers, on build_front for the fixed fields, and on build_given for the rules of values.
#![tactic(auto)]

ghost use Rattle.std.specs.Prelude.{map, ◌≡◌, eqb, length};
ghost use Rattle.std.specs.Int.{w32};
ghost use Rattle.std.proofs.Common.{of_z};
ghost use Rattle.words.specs.Pick.{pick};
ghost use Rattle.build_rules.specs.Rules.{ordered, count_number, reach_number, key_number, people_number, repeat_number, gt_number, list_number, format_order, format_key, format_shape, wrong_begin, wrong_end, wrong_id, wrong_allele, wrong_filter, wrong_info, wrong_format};

use build_append::first_of;
use facts::Facts;

// 12 for a turn that may come only after a turn from one to another.
#[tactic(auto, unfolding(crate::specs::Rules::ordered))]
fn order_number(rank: u8, low: u8, high: u8) -> u32
    ensures { result ≡ ordered low high rank }
{
    if (low..=high).contains(&rank) {
        return 0;
    }
    12
}

// 5 for one more than the most of a count.
#[tactic(auto, unfolding(crate::specs::Rules::count_number))]
fn count_number(count: u32, most: u32) -> u32
    ensures { result ≡ count_number count most }
{
    if count < most {
        return 0;
    }
    5
}

// 8 for a key outside the dictionary.
#[tactic(auto, unfolding(crate::specs::Rules::key_number))]
fn key_number(strings: u32, key: u32) -> u32
    ensures { result ≡ key_number strings key }
{
    if words::is_outside(strings, key) {
        return 8;
    }
    0
}

// 13 for a buffer that does not reach a place.
#[tactic(auto, unfolding(crate::specs::Rules::reach_number))]
fn reach_number(room: usize, stop: usize) -> u32
    ensures { result ≡ reach_number room stop }
{
    if room < stop {
        return 13;
    }
    0
}

// 5 for a FORMAT field without people.
#[tactic(auto, unfolding(crate::specs::Rules::people_number))]
fn people_number(people: u32) -> u32
    ensures { result ≡ people_number people }
{
    if people == 0 {
        return 5;
    }
    0
}

// 7 for an allele without bytes.
fn empty_number(count: usize) -> u32
    ensures { result ≡ pick (eqb count 0) 7 0 }
{
    if count == 0 {
        return 7;
    }
    0
}

// 11 for a key that stood earlier.
#[tactic(auto, unfolding(crate::specs::Rules::repeat_number))]
fn repeat_number(earlier: &[u32], key: u32) -> u32
    ensures { result ≡ repeat_number earlier.now key }
{
    if genotypes::is_repeated(earlier, key) {
        return 11;
    }
    0
}

// 6 for GT in something else than integers.
#[tactic(auto, unfolding(crate::specs::Rules::gt_number))]
fn gt_number(gt: u32, key: u32, whole: bool) -> u32
    ensures { result ≡ gt_number gt key whole }
{
    if key == gt && !whole {
        return 6;
    }
    0
}

// 7 for a list that isn't people times length.
#[tactic(auto, unfolding(crate::specs::Rules::list_number))]
fn list_number(people: u32, len: u32, count: usize) -> u32
    ensures { result ≡ list_number people len count }
{
    if people as usize * len as usize == count {
        return 0;
    }
    7
}

// What is wrong with begin: 12, 5, 13, else 0.
#[tactic(auto, unfolding(crate::specs::Rules::wrong_begin))]
pub fn begin_number(
    rank: u8,
    room: usize,
    facts: Facts,
    chrom: u32,
    pos: u32,
    rlen: u32,
    qual: u32,
) -> u32
    ensures { result ≡ wrong_begin rank room facts chrom pos rlen qual }
{
    let rules = build_front::fields_number(facts, chrom, pos, rlen, qual);
    first_of(
        order_number(rank, 0, 0),
        first_of(rules, reach_number(room, fixed::ID)),
    )
}

// What is wrong with end: 12, 13, else 0.
#[tactic(auto, unfolding(crate::specs::Rules::wrong_end))]
pub fn end_number(rank: u8, room: usize) -> u32
    ensures { result ≡ wrong_end rank room }
{
    first_of(order_number(rank, 4, 6), reach_number(room, fixed::FILLED))
}

// What is wrong with an ID: 12, 9, else 0.
#[tactic(auto, unfolding(crate::specs::Rules::wrong_id, crate::specs::Values::given_number))]
pub fn id_number(rank: u8, part: &[u8]) -> u32
    ensures { result ≡ wrong_id rank part.now }
{
    first_of(
        order_number(rank, 1, 1),
        build_given::judge_text(part, part.len()),
    )
}

// What is wrong with an allele: 12, 5, 7, 9, else 0.
#[tactic(auto, unfolding(crate::specs::Rules::wrong_allele))]
pub fn allele_number(rank: u8, alleles: u16, part: &[u8]) -> u32
    ensures { result ≡ wrong_allele rank alleles part.now }
{
    let text = first_of(empty_number(part.len()), build_given::judge_allele(part));
    let count = count_number(u32::from(alleles), 65535);
    first_of(order_number(rank, 2, 3), first_of(count, text))
}

// What is wrong with FILTER: 12, by element 8 then 11, else 0.
#[tactic(auto, unfolding(crate::specs::Rules::wrong_filter))]
pub fn filter_number(rank: u8, strings: u32, values: &[i32]) -> u32
    ensures { result ≡ wrong_filter rank strings (map (of_z w32) values.now) }
{
    first_of(
        order_number(rank, 3, 3),
        build_given::judge_filters(values, strings),
    )
}

// What is wrong with an INFO turn before its value is looked at: 12, 5, 8, else 0.
#[tactic(auto, unfolding(crate::specs::Rules::wrong_info))]
pub fn info_number(rank: u8, infos: u16, strings: u32, key: u32) -> u32
    ensures { result ≡ wrong_info rank infos strings key }
{
    let count = count_number(u32::from(infos), 65535);
    first_of(
        order_number(rank, 4, 5),
        first_of(count, key_number(strings, key)),
    )
}

// What is wrong with a FORMAT turn in its order and count.
#[tactic(auto, unfolding(crate::specs::Rules::format_order))]
fn format_count(rank: u8, people: u32, formats: u8) -> u32
    ensures { result ≡ format_order rank people formats }
{
    let count = count_number(u32::from(formats), 255);
    first_of(
        order_number(rank, 4, 6),
        first_of(people_number(people), count),
    )
}

// What is wrong with a FORMAT turn's key.
#[tactic(auto, unfolding(crate::specs::Rules::format_key))]
fn format_key(strings: u32, earlier: &[u32], key: u32) -> u32
    ensures { result ≡ format_key strings earlier.now key }
{
    first_of(key_number(strings, key), repeat_number(earlier, key))
}

// What is wrong with the kind and the length of a FORMAT turn's value.
#[tactic(auto, unfolding(crate::specs::Rules::format_shape))]
fn format_shape(gt: u32, key: u32, whole: bool, people: u32, len: u32, count: usize) -> u32
    ensures { result ≡ format_shape gt key whole people len count }
{
    first_of(gt_number(gt, key, whole), list_number(people, len, count))
}

// What is wrong with a FORMAT turn before its elements are looked at: 12, 5, 8, 11, 6, 7, else 0. It is given by the keys before it, its key,
// whether it has integers, and its lengths.
#[tactic(auto, unfolding(crate::specs::Rules::wrong_format))]
pub fn format_number(
    rank: u8,
    facts: Facts,
    formats: u8,
    earlier: &[u32],
    key: u32,
    whole: bool,
    len: u32,
    count: usize,
) -> u32
    ensures { result ≡ wrong_format rank facts formats earlier.now key whole len count }
{
    let before = format_key(facts.strings, earlier, key);
    let shape = format_shape(facts.gt, key, whole, facts.people, len, count);
    let turn = format_count(rank, facts.people, formats);
    first_of(turn, first_of(before, shape))
}
