// The rules of a value on elements that a builder is given, as integers, float bits or text: the number of what is wrong, or 0.
// Rests on vectors and site for the rules, and on repeats for FILTER's.
#![tactic(auto)]

ghost use Rattle.std.specs.Prelude.{◌≡◌, ℕ, false, map, ◌<◌};
ghost use Rattle.std.specs.Int.{w32};
ghost use Rattle.std.proofs.Common.{of_z};
ghost use Rattle.vectors.specs.Engine.{passed, all_passed};
ghost use Rattle.vectors.specs.Vectors.{vector};
ghost use Rattle.build_given.specs.Given.{number_of, elements_number, filters_number, allele_number};

use values::Refusal;

// The number of what is wrong.
fn number_of(judged: Result<(), Refusal>) -> u32
    ensures { result ≡ number_of judged }
{
    match judged {
        Ok(()) => 0,
        Err(r) => r.number,
    }
}

// An element as a builder is given it, which stands for 32 bits.
trait Given: Copy {
    ghost bits: { Self → ℕ };

    fn bits(self) -> u32
        ensures { result ≡ bits self };
}

// An integer.
impl Given for i32 {
    ghost bits = { of_z w32 };

    fn bits(self) -> u32 {
        words::bits(self)
    }
}

// A float, by its bits.
impl Given for u32 {
    ghost bits = { λ x. x };

    fn bits(self) -> u32 {
        self
    }
}

// What goes on in a vector that has not ended: missing, or up to the most and outside the marks from `low` to `high`.
#[derive(Drop)]
struct Marks {
    low: u32,
    high: u32,
    missing: u32,
    most: u32,
    ghost apart: { missing < low },
}

impl Marks {
    // Whether an element goes on.
    #[tactic(auto, using(crate::proofs::Plain::missing_passes), unfolding(vectors::specs::Engine::passed))]
    fn pass(&self, x: u32) -> bool
        ensures { result ≡ passed self.now.low self.now.high self.now.missing self.now.most x }
    {
        if x == self.missing {
            return true;
        }
        if self.most < x {
            return false;
        }
        if x < self.low {
            return true;
        }
        self.high < x
    }

    // Whether elements go on, every one. The sweep does not leave early, so that it takes many at once.
    #[tactic(auto, using(crate::proofs::Turns::map_turn, crate::proofs::Turns::map_end, vectors::proofs::Plain::and_pick), unfolding(vectors::specs::Engine::all_passed))]
    fn all_pass<T: Given>(&self, values: &[T]) -> bool
        ensures { result ≡ all_passed self.now.low self.now.high self.now.missing self.now.most (map T.bits values.now) }
    {
        let mut good = true;
        for x in values {
            good &= self.pass(x.bits());
        }
        good
    }
}

// The elements of one vector.
#[tactic(auto, using(crate::proofs::Turns::map_turn, crate::proofs::Turns::map_end), unfolding(vectors::specs::Vectors::vector))]
fn vector_of<T: Given>(part: &[T], code: u8, most: u32) -> Result<(), Refusal>
    ensures { result ≡ vector most code 0 0 false (map T.bits part.now) }
{
    let mut ended = false;
    for x in part {
        let turn = vectors::judge_one(code, most, ended, x.bits());
        let Ok(now) = turn else {
            return Err(vectors::turn_refusal(turn, 0));
        };
        ended = now;
    }
    Ok(())
}

// The number for elements, vector after vector and one element after the other.
#[tactic(auto, using(crate::proofs::Turns::elements_chunk, crate::proofs::Turns::elements_none, crate::proofs::Turns::elements_empty))]
fn in_turn<T: Given>(values: &[T], code: u8, len: usize, most: u32) -> u32
    ensures { result ≡ elements_number most code len (map T.bits values.now) }
{
    if len == 0 {
        return 0;
    }
    for part in values.chunks_exact(len) {
        if let Err(r) = vector_of(part, code, most) {
            return r.number;
        }
    }
    0
}

// The number for integers that are vectors of `len` each: 9 or 10 for the first that reading would refuse, else 0. A plain one above `most` gives
// 10.
#[tactic(auto, using(crate::proofs::Plain::integers_on))]
pub fn judge_integers(values: &[i32], len: usize, most: u32) -> u32
    ensures { result ≡ elements_number most 3 len (map (of_z w32) values.now) }
{
    let marks = Marks {
        low: 0x80000001,
        high: 0x80000007,
        missing: 0x80000000,
        most,
    };
    if marks.all_pass(values) {
        return 0;
    }
    in_turn(values, 3, len, most)
}

// The number for floats, given by their bits, that are vectors of `len` each: 9 where reading would refuse one, else 0.
#[tactic(auto, using(crate::proofs::Plain::floats_on))]
pub fn judge_floats(bits: &[u32], len: usize) -> u32
    ensures { result ≡ elements_number 0xFFFFFFFF 5 len bits.now }
{
    let marks = Marks {
        low: 0x7F800002,
        high: 0x7F800007,
        missing: 0x7F800001,
        most: 0xFFFFFFFF,
    };
    if marks.all_pass(bits) {
        return 0;
    }
    in_turn(bits, 5, len, 0xFFFFFFFF)
}

// The number for text that is vectors of `len` bytes each: 9 where reading would refuse a byte, else 0.
#[tactic(auto, using(crate::proofs::Text::text_number))]
pub fn judge_text(text: &[u8], len: usize) -> u32
    ensures { result ≡ elements_number 0xFFFFFFFF 7 len text.now }
{
    number_of(vectors::judge(text, 7, len, 0xFFFFFFFF))
}

// The number for the elements of FILTER, under the dictionary's size: by element 8 then 11, else 0. Of those before the first that is no offset,
// none may stand twice.
#[tactic(auto, using(crate::proofs::Filters::filters_number_by))]
pub fn judge_filters(values: &[i32], strings: u32) -> u32
    ensures { result ≡ filters_number strings (map (of_z w32) values.now) }
{
    let sound = repeats::first_integer_outside(values, strings);
    let first = repeats::first_integer_repeat(&values[..sound]);
    if first < sound {
        return 11;
    }
    if sound < values.len() {
        return 8;
    }
    0
}

// The number for an allele's bytes: 9 where one is not from 21 to 7E, else 0.
#[tactic(auto, unfolding(crate::specs::Given::allele_number))]
pub fn judge_allele(text: &[u8]) -> u32
    ensures { result ≡ allele_number text.now }
{
    number_of(site::judge_allele_bytes(text))
}
