// The elements of vectors, judged one after the other, with the exact place of the first bad one.
// Rests on types for what an element is, on words for its number, and on values for the form of a refusal.
#![tactic(auto)]

ghost use Rattle.std.specs.Prelude.{◌≡◌, true, false, nat_eq, nat_lt, ◌⊎◌, ℕ, ◌+◌, ◌*◌, ◌/◌, ◌^◌, ◌<◌, ◌≤◌, drop, length, None, IfSome};
ghost use Rattle.std.specs.Ordering.{partial_lt};
ghost use Rattle.std.proofs.Common.{rules, tests};
ghost use Rattle.words.specs.Words.{number};
ghost use Rattle.types.specs.Rows.{width_of};
ghost use Rattle.types.specs.Elements.{kind};
ghost use Rattle.values.specs.Answers.{ValueInside, refusal_in};
ghost use Rattle.vectors.specs.Sound.{highest, code_most, most_of, sound};
ghost use Rattle.vectors.specs.Engine.{passed, all_passed, judged_at};
ghost use Rattle.vectors.specs.Vectors.{numbers, element_turn, turn_says, vector, judged, JudgedInside, Sound};

use types::{Element, Use};
use values::{Refusal, Value};

// One element's turn, after an end of vector or not: passed, with whether the vector has ended; or refused, with the number 9 or 10.
pub fn judge_one(code: u8, most: u32, ended: bool, raw: u32) -> Result<bool, u32>
    ensures { result ≡ element_turn most ended (kind code raw) raw }
{
    let k = types::element_of(code, raw);
    match k {
        Element::Reserved => Err(9),
        Element::End => Ok(true),
        Element::Missing => {
            if ended {
                return Err(9);
            }
            Ok(false)
        }
        Element::Plain => {
            if ended {
                return Err(9);
            }
            if most < raw {
                return Err(10);
            }
            Ok(false)
        }
    }
}

// The refusal that the turn of an element at a place says; number 0 where it says none.
pub fn turn_refusal(turn: Result<bool, u32>, at: usize) -> Refusal
    ensures { result ≡ refusal_in (turn_says at turn) }
{
    match turn {
        Ok(_) => Refusal {
            number: 0,
            place: 0,
        },
        Err(number) => Refusal { number, place: at },
    }
}

// A number as a part stores it. A sweep compares it in as few bits, so that it takes as many at once as it can.
trait Stored: Ord + Copy {
    // How many bytes it has.
    ghost WIDTH: { ℕ };

    const WIDTH: usize;

    // What it is as a number.
    ghost value: { Self → ℕ };

    // The number that so many bytes are.
    fn read(bytes: &[u8]) -> Self
        requires { length bytes.now ≡ WIDTH }
        ensures { value result ≡ number 4 bytes.now };

    // The greatest of these numbers up to a bound.
    fn up_to(most: u32) -> Self
        ensures { value result ≤ most };

    // It has a byte, and at most four.
    ghost some: { (0 < WIDTH) × (WIDTH ≤ 4) };

    // It is compared as the number that it is.
    ghost same: { (a b : Self) → Self.eq a b ≡ nat_eq (value a) (value b) };

    ghost below: { (a b : Self) → partial_lt Self.partial_cmp a b ≡ nat_lt (value a) (value b) };
}

impl Stored for u8 {
    ghost WIDTH = { 1 };

    const WIDTH: usize = 1;

    ghost value = { λ x. x };

    #[tactic(auto, using(words::proofs::Words::number_four, words::proofs::Words::past))]
    fn read(bytes: &[u8]) -> u8 {
        bytes[0]
    }

    fn up_to(most: u32) -> u8 {
        most.min(0xFF) as u8
    }

    ghost some = { Prim.search rules };

    ghost same = { Prim.search rules };

    ghost below = { Prim.search (rules, tests) };
}

impl Stored for u16 {
    ghost WIDTH = { 2 };

    const WIDTH: usize = 2;

    ghost value = { λ x. x };

    #[tactic(auto, using(words::proofs::Words::number_four, words::proofs::Words::past))]
    fn read(bytes: &[u8]) -> u16 {
        u16::from(bytes[0]) + u16::from(bytes[1]) * 256
    }

    fn up_to(most: u32) -> u16 {
        most.min(0xFFFF) as u16
    }

    ghost some = { Prim.search rules };

    ghost same = { Prim.search rules };

    ghost below = { Prim.search (rules, tests) };
}

impl Stored for u32 {
    ghost WIDTH = { 4 };

    const WIDTH: usize = 4;

    ghost value = { λ x. x };

    fn read(bytes: &[u8]) -> u32 {
        words::word(bytes)
    }

    fn up_to(most: u32) -> u32 {
        most
    }

    ghost some = { Prim.search rules };

    ghost same = { Prim.search rules };

    ghost below = { Prim.search (rules, tests) };
}

// What goes on in a vector that has not ended: a number up to the most and outside the marks from `low` to `high`, or the missing mark.
#[derive(Clone, Copy)]
struct Marks<N> {
    low: N,
    high: N,
    missing: N,
    most: N,
}

impl<N: Stored> Marks<N> {
    // The marks of a type, and the most under a bound.
    fn new(low: N, high: N, missing: N, most: u32) -> Marks<N>
        ensures marks { (result.low ≡ low) × (result.high ≡ high) × (result.missing ≡ missing) }
        ensures most { N.value result.most ≤ most }
    {
        let most = N::up_to(most);
        Marks {
            low,
            high,
            missing,
            most,
        }
    }

    // Whether a number goes on.
    #[tactic(auto, unfolding(crate::specs::Engine::passed))]
    fn pass(self, raw: N) -> bool
        ensures { result ≡ passed (N.value self.low) (N.value self.high) (N.value self.missing) (N.value self.most) (N.value raw) }
    {
        if self.most < raw {
            return raw == self.missing;
        }
        if raw < self.low {
            return true;
        }
        self.high < raw
    }

    // Whether a part's numbers go on, every one. The sweep does not leave early, so that it takes many at once.
    #[tactic(auto, using(crate::proofs::Lots::numbers_chunk, crate::proofs::Lots::numbers_none, crate::proofs::Plain::and_pick), unfolding(crate::specs::Engine::all_passed))]
    fn all_pass(self, part: &[u8]) -> bool
        ensures { result ≡ all_passed (N.value self.low) (N.value self.high) (N.value self.missing) (N.value self.most) (numbers N.WIDTH (length part.now / N.WIDTH) part.now) }
    {
        let mut good = true;
        for e in part.chunks_exact(N::WIDTH) {
            good &= self.pass(N::read(e));
        }
        good
    }
}

// How a part is judged: as vectors of `len` elements of a type, `size` bytes each, where a plain element of `width` bytes is at most `most`.
#[derive(Drop)]
struct Rule {
    code: u8,
    most: u32,
    len: usize,
    width: usize,
    size: usize,
    ghost by_type: { (width ≡ width_of code) × (width ≤ 4) },
    ghost some: { (size ≡ len * width) × (0 < size) },
}

impl Rule {
    // The rule of a type and a length; none where a vector has no bytes, or more than a part can have.
    fn of(code: u8, len: usize, most: u32) -> Option<Rule>
        ensures rule { IfSome result (λ r. (r.code ≡ code) × (r.most ≡ most) × (r.len ≡ len)) }
        ensures none { result ≡ None → (len * width_of code ≡ 0) ⊎ (2 ^ 64 ≤ len * width_of code) }
    {
        let width = usize::from(types::row_of(code).width);
        let size = len.checked_mul(width)?;
        if size == 0 {
            return None;
        }
        Some(Rule {
            code,
            most,
            len,
            width,
            size,
        })
    }

    // Whether the elements of a part are all plain, up to the most, or missing, and so sound; where it is not told, they may be.
    fn is_plain(&self, part: &[u8]) -> bool
        ensures { result ≡ true → (at : ℕ) → judged_at self.now.most self.now.code self.now.len at part.now ≡ Sound }
    {
        let most = self.most;
        match self.code {
            1 => Marks::new(0x81u8, 0x87, 0x80, most).all_pass(part),
            2 => Marks::new(0x8001u16, 0x8007, 0x8000, most).all_pass(part),
            3 => Marks::new(0x80000001u32, 0x80000007, 0x80000000, most).all_pass(part),
            5 => Marks::new(0x7F800002u32, 0x7F800007, 0x7F800001, most).all_pass(part),
            7 => Marks::new(0u8, 0, 0, most).all_pass(part),
            _ => false,
        }
    }

    // The elements of one vector, at its place.
    #[tactic(auto, using(crate::proofs::Lots::length_cut, crate::proofs::Lots::numbers_chunk, crate::proofs::Lots::numbers_none), unfolding(crate::specs::Vectors::vector))]
    fn vector(&self, part: &[u8], at: usize) -> Result<(), Refusal>
        requires { at + length part.now < 2 ^ 64 }
        ensures { result ≡ vector self.now.most self.now.code self.now.width at false (numbers self.now.width (length part.now / self.now.width) part.now) }
    {
        let mut at = at;
        let mut ended = false;
        for e in part.chunks_exact(self.width) {
            let turn = judge_one(self.code, self.most, ended, words::word(e));
            let Ok(now) = turn else {
                return Err(turn_refusal(turn, at));
            };
            ended = now;
            at += self.width;
        }
        Ok(())
    }

    // The vectors of a part at a place, one element after the other.
    #[tactic(auto, using(crate::proofs::Lots::length_cut, crate::proofs::Lots::judged_vector, crate::proofs::Lots::judged_none))]
    fn vectors(&self, part: &[u8], at: usize) -> Result<(), Refusal>
        requires { at + length part.now < 2 ^ 64 }
        ensures { result ≡ judged_at self.now.most self.now.code self.now.len at part.now }
    {
        let mut at = at;
        for v in part.chunks_exact(self.size) {
            self.vector(v, at)?;
            at += self.size;
        }
        Ok(())
    }

    // The same, so many together: each lot at once where all its elements are plain or missing, else as `slowly` judges it.
    #[tactic(auto, using(crate::proofs::Lots::length_cut, crate::proofs::Lots::judged_lot, crate::proofs::Lots::judged_none))]
    fn by_lots<F: Fn(&[u8], usize) -> Result<(), Refusal>>(
        &self,
        part: &[u8],
        at: usize,
        many: usize,
        slowly: F,
    ) -> Result<(), Refusal>
        requires fits { at + length part.now < 2 ^ 64 }
        requires some { 0 < many }
        requires callable { (lot : _) (at : ℕ) → at + length lot.now < 2 ^ 64 → F.pre slowly lot at }
        requires judges { (lot : _) (at : ℕ) (j : _) → F.post slowly lot at j → j ≡ judged_at self.now.most self.now.code self.now.len at lot.now }
        ensures { result ≡ judged_at self.now.most self.now.code self.now.len at part.now }
    {
        let mut at = at;
        for lot in part.chunks(self.size.saturating_mul(many)) {
            if !self.is_plain(lot) {
                slowly(lot, at)?;
            }
            at += lot.len();
        }
        Ok(())
    }
}

// How many vectors of `len` elements make a stretch: some thousand elements, so that a sweep over them is worth its beginning.
fn stretch_of(len: usize) -> usize
    ensures { 0 < result }
{
    words::over(1024, len).max(1)
}

// The elements of a part that is vectors of `len` elements each: sound, or 9 or 10 with the place, from the part's start, of the first bad one. A
// plain one above `most` is 10.
#[tactic(auto, using(crate::proofs::Lots::judged_front, crate::proofs::Lots::judged_nothing, crate::proofs::Lots::judged_inside))]
pub fn judge(part: &[u8], code: u8, len: usize, most: u32) -> Result<(), Refusal>
    ensures value { result ≡ judged most code len part.now }
    ensures judged_inside { JudgedInside (length part.now) result }
{
    let Some(rule) = Rule::of(code, len, most) else {
        return Ok(());
    };
    rule.by_lots(part, 0, stretch_of(len), |stretch, at| {
        rule.by_lots(stretch, at, 16, |few, at| rule.vectors(few, at))
    })
}

// The largest number of an integer type.
#[tactic(auto, unfolding(crate::specs::Sound::highest))]
fn highest_of(code: u8) -> u32
    ensures { result ≡ highest code }
{
    match code {
        1 => 0x7F,
        2 => 0x7FFF,
        _ => 0x7FFFFFFF,
    }
}

// The largest code that a GT element of a type may hold.
#[tactic(auto, unfolding(crate::specs::Sound::code_most))]
fn code_most(alleles: u32, code: u8) -> u32
    ensures { result ≡ code_most alleles code }
{
    let top = highest_of(code);
    if alleles < top / 2 {
        return alleles * 2 + 1;
    }
    top
}

// The most that a plain element of a value may be, by the use of the value.
fn most_of(role: Use, alleles: u32, code: u8) -> u32
    ensures { result ≡ most_of role alleles code }
{
    match role {
        Use::Gt => code_most(alleles, code),
        Use::Id | Use::Allele | Use::Filter | Use::Integer | Use::Info | Use::Format => 0xFFFFFFFF,
    }
}

// The value at a place with all its elements, each sound: so many vectors of its length, under an allele count where it is GT. Or the value's
// refusals, or 9 or 10 at the first bad element's place in the block.
#[tactic(auto, using(words::proofs::Places::drop_on), unfolding(crate::specs::Sound::sound))]
pub fn sound_value_at(
    block: &[u8],
    at: usize,
    role: Use,
    vectors: u32,
    alleles: u32,
) -> Result<Value, Refusal>
    ensures value { result ≡ sound vectors alleles role at (drop at block.now) }
    ensures value_inside { ValueInside at (length block.now) result }
{
    let v = values::value_at(block, at, role, vectors)?;
    let most = most_of(role, alleles, v.code);
    match judge(&block[v.first..v.stop], v.code, v.len as usize, most) {
        Ok(()) => Ok(v),
        Err(r) => Err(Refusal {
            number: r.number,
            place: v.first + r.place,
        }),
    }
}
