// The calls of a GT field's bytes, counted in one sweep: people without a genotype, missing alleles, and the calls of each allele.
// Rests on types for what an element is, on words for its number, and on vectors for a person's numbers.
#![tactic(auto)]

ghost use Rattle.std.specs.Prelude.{◌≡◌, true, ◌⊎◌, ◌+◌, ◌-◌, ◌*◌, ◌%◌, ◌^◌, ◌<◌, ◌≤◌, length, MatchOption, ⊤};
ghost use Rattle.types.specs.Rows.{width_of};
ghost use Rattle.types.specs.Elements.{kind};
ghost use Rattle.calls.specs.Calls.{slots, alleles, no_slot, called, without, how_many, counters, AtMost, counted};
ghost use Rattle.calls.specs.Engine.{every, everyone, halves, listed, firsts_few, slotted, raised, folded};
ghost use Rattle.calls.specs.Totals.{total, sums};

use types::Element;

// People without a genotype, and how often each allele is called: of `counts`, the first is the missing alleles,
// and the one at 1 + i the calls of allele i.
#[derive(Clone, Copy)]
pub struct Calls {
    pub without: u64,
    pub counts: [u64; 65],
}

// How often a missing allele and each of the first three is called, and how many ends of vector there are, of elements so few that
// a byte counts them.
#[derive(Clone, Copy)]
struct Few {
    none: u8,
    first: u8,
    second: u8,
    third: u8,
    ends: u8,
}

impl Few {
    // How many elements were counted.
    #[tactic(auto, unfolding(crate::specs::Totals::total))]
    fn all(&self) -> usize
        ensures { result ≡ total (listed self.now) + self.now.ends }
    {
        usize::from(self.none)
            + usize::from(self.first)
            + usize::from(self.second)
            + usize::from(self.third)
            + usize::from(self.ends)
    }
}

// What an element's number is in the sweep: nothing past a person's last slot, else the slot's allele, counted from 1, with 0 for a missing one.
fn slot_of(code: u8, raw: u32) -> Option<u32>
    ensures { result ≡ slotted (kind code raw) raw }
{
    match types::element_of(code, raw) {
        Element::End => None,
        Element::Missing => Some(0),
        Element::Plain | Element::Reserved => Some(raw / 2),
    }
}

// Counts the slots of a person, given by its elements; 1 where there is none, else 0.
// An allele has a pair of counters, raised in turn: most calls are of one allele, and a store waits for the one before it at its place.
// A pair's sum leaves room for a slot of each byte that is still to come: so no counter can wrap.
fn count_person(person: &[u8], code: u8, w: usize, pairs: &mut [u64; 130]) -> u64
    requires w_in_bounds { (0 < w) × (w ≤ 4) }
    requires pairs_len { (length pairs.old ≡ 130) × AtMost (2 ^ 64 - 1 - length person.now) (folded pairs.old) }
    ensures value { result ≡ no_slot (slots code (every w person.now)) }
    ensures pairs_after { folded pairs.new ≡ raised 0 (folded pairs.old) (alleles code (every w person.now)) }
    ensures upper_bound { (result ≤ 1) × (length pairs.new ≡ 130) }
{
    let mut none: u64 = 1;
    for (i, element) in person.chunks_exact(w).enumerate() {
        let Some(a) = slot_of(code, words::word(element)) else {
            return none;
        };
        if a < 65 {
            pairs[a as usize * 2 + i % 2] += 1;
        }
        none = 0;
    }
    none
}

// Counts the slots of people of so many elements each, one person after the other; how many have none.
fn count_people(part: &[u8], code: u8, w: usize, len: usize, pairs: &mut [u64; 130]) -> u64
    requires w_in_bounds { (0 < w) × (w ≤ 4) × (0 < len * w) × (len * w < 2 ^ 64) }
    requires pairs_len { (length pairs.old ≡ 130) × AtMost (2 ^ 64 - 1 - length part.now) (folded pairs.old) }
    ensures value { result ≡ without code (everyone w len part.now) }
    ensures pairs_after { folded pairs.new ≡ raised 0 (folded pairs.old) (called code (everyone w len part.now)) }
    ensures upper_bound { (result ≤ length part.now) × (length pairs.new ≡ 130) }
{
    let mut lacking: u64 = 0;
    for person in part.chunks_exact(len * w) {
        lacking += count_person(person, code, w, pairs);
    }
    lacking
}

// Counts elements of one byte by their halves, up to 3, and ends of vector. The sweep doesn't leave early, so that it takes many elements at once.
fn few_of(part: &[u8]) -> Few
    requires { length part.now < 256 }
    ensures { (listed result ≡ counters 4 0 (halves part.now)) × (result.ends ≡ how_many 0x81 part.now) }
{
    let mut few = Few {
        none: 0,
        first: 0,
        second: 0,
        third: 0,
        ends: 0,
    };
    for x in part {
        let half = x / 2;
        few.none += u8::from(half == 0);
        few.first += u8::from(half == 1);
        few.second += u8::from(half == 2);
        few.third += u8::from(half == 3);
        few.ends += u8::from(*x == 0x81);
    }
    few
}

// The same where it can be told: of elements of type 1, fewer than 256.
fn few_at(part: &[u8], code: u8) -> Option<Few>
    ensures { MatchOption result ⊤ (λ f. (code ≡ 1) × (listed f ≡ counters 4 0 (halves part.now)) × (f.ends ≡ how_many 0x81 part.now)) }
{
    if code != 1 {
        return None;
    }
    if 255 < part.len() {
        return None;
    }
    Some(few_of(part))
}

// Whether the first of each pair of elements is a missing allele or one of the first three. This sweep doesn't leave early either; it goes by index, since
// over chunks of two it would take one element at a time.
fn firsts_few(part: &[u8]) -> bool
    ensures { result ≡ firsts_few (everyone 1 2 part.now) }
{
    let mut good = true;
    for i in 0..part.len() / 2 {
        good &= part[i * 2] < 8;
    }
    good
}

// Whether ends of vector stand after slots only: there are none, or people have two elements and the first is a slot.
fn is_padding(part: &[u8], len: usize, ends: u8) -> bool
    ensures { result ≡ true → (ends ≡ 0) ⊎ ((len ≡ 2) × (firsts_few (everyone 1 2 part.now) ≡ true)) }
{
    if ends == 0 {
        return true;
    }
    if len != 2 {
        return false;
    }
    firsts_few(part)
}

// Raises the counters of the first alleles.
fn raise_few(f: Few, pairs: &mut [u64; 130])
    requires { (length pairs.old ≡ 130) × AtMost (2 ^ 64 - 1 - total (listed f)) (folded pairs.old) }
    ensures { (length pairs.new ≡ 130) × (folded pairs.new ≡ sums (folded pairs.old) (listed f)) }
{
    pairs[0] += u64::from(f.none);
    pairs[2] += u64::from(f.first);
    pairs[4] += u64::from(f.second);
    pairs[6] += u64::from(f.third);
}

// Counts the slots of a block of people; how many have none.
// Where every element is a missing allele, one of the first three or padding, they are counted at once: then each but the padding is a slot,
// whoever has it.
fn count_block(part: &[u8], code: u8, w: usize, len: usize, pairs: &mut [u64; 130]) -> u64
    requires w_in_bounds { (0 < w) × (w ≤ 4) × (0 < len * w) × (len * w < 2 ^ 64) }
    requires whole { (w ≡ width_of code) × (length part.now % (len * w) ≡ 0) }
    requires pairs_len { (length pairs.old ≡ 130) × AtMost (2 ^ 64 - 1 - length part.now) (folded pairs.old) }
    ensures value { result ≡ without code (everyone w len part.now) }
    ensures pairs_after { folded pairs.new ≡ raised 0 (folded pairs.old) (called code (everyone w len part.now)) }
    ensures upper_bound { (result ≤ length part.now) × (length pairs.new ≡ 130) }
{
    if let Some(f) = few_at(part, code) {
        if f.all() == part.len() && is_padding(part, len, f.ends) {
            raise_few(f, pairs);
            return 0;
        }
    }
    count_people(part, code, w, len, pairs)
}

// The sum of each pair of counters.
fn sum_pairs(pairs: &[u64; 130]) -> [u64; 65]
    requires { (length pairs.now ≡ 130) × AtMost (2 ^ 64 - 1) (folded pairs.now) }
    ensures { result ≡ folded pairs.now }
{
    let mut counts = [0u64; 65];
    for i in 0..65 {
        counts[i] = pairs[i * 2] + pairs[i * 2 + 1];
    }
    counts
}

// The calls of a part that is vectors of type `code`, one of `len` elements for each person: people without a slot, missing alleles, and the calls
// of each of 64 alleles. People are counted in blocks of so many that a byte counts their elements.
pub fn count_calls(part: &[u8], code: u8, len: usize) -> Calls
    ensures { result ≡ counted code len part.now }
{
    let w = usize::from(types::row_of(code).width);
    let people = words::over(words::over(part.len(), w), len);
    if people == 0 {
        return Calls {
            without: 0,
            counts: [0; 65],
        };
    }
    let size = len * w;
    let mut without: u64 = 0;
    let mut pairs = [0u64; 130];
    for block in part[..people * size].chunks(size * (128 / len).max(1)) {
        without += count_block(block, code, w, len, &mut pairs);
    }
    Calls {
        without,
        counts: sum_pairs(&pairs),
    }
}
