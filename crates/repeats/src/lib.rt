// The first number of a list that is no offset below a size, and the first that stood earlier: of a part's elements, and of integers.
// Rests on words and types for the elements, and on vectors for their list.
#![tactic(auto)]

ghost use Rattle.std.specs.Prelude.{◌≡◌, ℕ, List, map, ◌/◌, ◌<◌, ◌≤◌, get_or, length};
ghost use Rattle.std.specs.Int.{w32};
ghost use Rattle.std.proofs.Common.{of_z};
ghost use Rattle.types.specs.Rows.{width_of};
ghost use Rattle.repeats.specs.Repeats.{shown_elements, first_outside, first_repeat};
ghost use Rattle.repeats.specs.Engine.{stood, few, UpTo, noted, noting, Bounded, FirstWithin};

// Numbers in a row, each by its index. What follows is written for any of them once.
trait Numbers {
    ghost shown: { Self → List ℕ };

    fn count(&self) -> usize
        ensures { result ≡ length (shown self.now) };

    fn at(&self, i: usize) -> u32
        requires { i < length (shown self.now) }
        ensures { result ≡ get_or (shown self.now) i 0 };
}

// Integers, each as its 32 bits.
#[derive(Clone, Copy)]
struct Integers<'a> {
    values: &'a [i32],
}

impl<'a> Numbers for Integers<'a> {
    ghost shown = { λ it. map (of_z w32) it.values.now };

    fn count(&self) -> usize {
        self.values.len()
    }

    fn at(&self, i: usize) -> u32 {
        words::bits(self.values[i])
    }
}

// The elements of a part, as they are shown.
#[derive(Clone, Copy)]
struct Part<'a> {
    bytes: &'a [u8],
    code: u8,
    width: u8,
    ghost width_fits: { (width ≡ width_of code) × (width ≤ 4) },
}

impl<'a> Numbers for Part<'a> {
    ghost shown = { λ it. shown_elements it.code it.bytes.now };

    #[tactic(auto, using(crate::proofs::Elements::length_elements))]
    fn count(&self) -> usize {
        words::over(self.bytes.len(), usize::from(self.width))
    }

    #[tactic(auto, using(crate::proofs::Elements::length_elements, crate::proofs::Elements::get_or_elements, words::proofs::Words::number_at))]
    fn at(&self, i: usize) -> u32 {
        let at = i * usize::from(self.width);
        let stop = at + usize::from(self.width);
        types::shown_bits(self.code, words::word(&self.bytes[at..stop]))
    }
}

// The elements of a part of a type that is known here: so no element asks for its width, and the compiler reads each at once.
#[derive(Clone, Copy)]
struct Typed<'a, const CODE: u8, const WIDTH: u8> {
    bytes: &'a [u8],
    ghost width_fits: { (WIDTH ≡ width_of CODE) × (WIDTH ≤ 4) },
}

impl<'a, const CODE: u8, const WIDTH: u8> Numbers for Typed<'a, CODE, WIDTH> {
    ghost shown = { λ it. shown_elements CODE it.bytes.now };

    #[tactic(auto, using(crate::proofs::Elements::length_elements))]
    fn count(&self) -> usize {
        words::over(self.bytes.len(), usize::from(WIDTH))
    }

    fn at(&self, i: usize) -> u32 {
        let elements = Part {
            bytes: self.bytes,
            code: CODE,
            width: WIDTH,
        };
        elements.at(i)
    }
}

// Notes an offset in a window's bits, where it is one of the window's; whether it was there already.
#[tactic(auto, using(crate::proofs::Bits::one_bit, crate::proofs::Bits::set_below), unfolding(crate::specs::Engine::noted, crate::specs::Engine::noting, crate::specs::Engine::held, crate::specs::Engine::with_bit))]
fn note(bits: &mut [u32; 131072], window: u32, x: u32) -> bool
    ensures value { result ≡ noted window x bits.old }
    ensures after { bits.new ≡ noting window x bits.old }
{
    if x / 4194304 != window {
        return false;
    }
    let y = x % 4194304;
    let i = (y / 32) as usize;
    let b = y % 32;
    let word = bits[i];
    if (word >> b) % 2 == 1 {
        return true;
    }
    bits[i] = word + (1 << b);
    false
}

// Whether so many numbers are sooner held against each other than noted in each window up to the most: to clear a window takes as long as
// some tens of thousands of comparisons.
#[tactic(auto, using(values::proofs::Room::prod), unfolding(crate::specs::Engine::few))]
fn is_few(count: usize, most: u32) -> bool
    ensures { result ≡ few count most }
{
    count < 65536 && count * count / 65536 <= (most / 4194304) as usize
}

// The index of the first number that is no offset below a size; their count where each is one.
#[tactic(auto, using(crate::proofs::Lists::outside_turn, crate::proofs::Lists::outside_end))]
fn outside<N: Numbers>(numbers: &N, size: u32) -> usize
    ensures value { result ≡ first_outside size (N.shown numbers.now) }
    ensures upper_bound { result ≤ length (N.shown numbers.now) }
{
    let count = numbers.count();
    for i in 0..count {
        if words::is_outside(size, numbers.at(i)) {
            return i;
        }
    }
    count
}

// Whether the number at an index stood earlier, looked for from the nearest backwards.
#[tactic(auto, using(crate::proofs::Lists::among_turn), unfolding(crate::specs::Engine::stood, crate::specs::Engine::earlier, words::specs::Lists::among))]
fn is_repeat<N: Numbers>(numbers: &N, i: usize) -> bool
    requires { i < length (N.shown numbers.now) }
    ensures { result ≡ stood (N.shown numbers.now) i }
{
    let x = numbers.at(i);
    for j in (0..i).rev() {
        if numbers.at(j) == x {
            return true;
        }
    }
    false
}

// The first repeat among the first few numbers, each held against all before it; their count where none is one.
fn pairs<N: Numbers>(numbers: &N, count: usize) -> usize
    requires { count ≤ length (N.shown numbers.now) }
    ensures { FirstWithin count (N.shown numbers.now) result }
{
    for i in 0..count {
        if is_repeat(numbers, i) {
            return i;
        }
    }
    count
}

// The largest number.
fn most<N: Numbers>(numbers: &N) -> u32
    ensures { UpTo result (N.shown numbers.now) }
{
    let mut most = 0u32;
    for i in 0..numbers.count() {
        most = most.max(numbers.at(i));
    }
    most
}

// A window's sweep over the numbers before a bound: the first that the window has noted already, or the bound. It is a call always, so that
// its bits, half a megabyte, lie in its own frame and not in that of a caller, which every short list would pay for.
#[inline(never)]
#[tactic(auto, using(crate::proofs::Notes::notes_none, crate::proofs::Notes::sweep_stop, crate::proofs::Notes::sweep_notes, crate::proofs::Notes::sweep_fresh), unfolding(crate::specs::Engine::earlier))]
fn sweep<N: Numbers>(numbers: &N, bound: usize, window: u32) -> usize
    requires { bound ≤ length (N.shown numbers.now) }
    ensures { Bounded window bound (N.shown numbers.now) result }
{
    let mut bits = [0u32; 131072];
    for i in 0..bound {
        if note(&mut bits, window, numbers.at(i)) {
            return i;
        }
    }
    bound
}

// The first repeat among many numbers: the bound that is left after the last window.
fn windows<N: Numbers>(numbers: &N, most: u32) -> usize
    requires { UpTo most (N.shown numbers.now) }
    ensures { FirstWithin (length (N.shown numbers.now)) (N.shown numbers.now) result }
{
    let mut bound = numbers.count();
    for window in 0..=most / 4194304 {
        bound = sweep(numbers, bound, window);
    }
    bound
}

// The index of the first number that stood earlier; their count where none did. An early one is found among the first 64, without a look at
// the others.
#[tactic(auto, using(crate::proofs::Lists::found))]
fn repeat<N: Numbers>(numbers: &N) -> usize
    ensures { result ≡ first_repeat (N.shown numbers.now) }
{
    let count = numbers.count();
    let front = count.min(64);
    let early = pairs(numbers, front);
    if early < front || front == count {
        return early;
    }
    let most = most(numbers);
    if is_few(count, most) {
        return pairs(numbers, count);
    }
    windows(numbers, most)
}

// The index of the first integer that is no offset below a size; their count where each is one.
pub fn first_integer_outside(values: &[i32], size: u32) -> usize
    ensures value { result ≡ first_outside size (map (of_z w32) values.now) }
    ensures upper_bound { result ≤ length values.now }
{
    outside(&Integers { values }, size)
}

// The index of the first integer that stood earlier; their count where none did.
pub fn first_integer_repeat(values: &[i32]) -> usize
    ensures { result ≡ first_repeat (map (of_z w32) values.now) }
{
    repeat(&Integers { values })
}

// The index of a part's first element that is no offset below a size; their count where each is one.
#[tactic(auto, using(crate::proofs::Elements::length_elements))]
pub fn first_outside(part: &[u8], code: u8, size: u32) -> usize
    ensures value { result ≡ first_outside size (shown_elements code part.now) }
    ensures upper_bound { result ≤ length part.now / width_of code }
{
    let elements = Part {
        bytes: part,
        code,
        width: types::row_of(code).width,
    };
    outside(&elements, size)
}

// The index of a part's first element that stood earlier; their count where none did.
#[tactic(auto, unfolding(types::specs::Rows::width_of, types::specs::Rows::row_of))]
pub fn first_repeat(part: &[u8], code: u8) -> usize
    ensures { result ≡ first_repeat (shown_elements code part.now) }
{
    match code {
        1 => repeat(&Typed::<1, 1> { bytes: part }),
        2 => repeat(&Typed::<2, 2> { bytes: part }),
        3 => repeat(&Typed::<3, 4> { bytes: part }),
        _ => {
            let elements = Part {
                bytes: part,
                code,
                width: types::row_of(code).width,
            };
            repeat(&elements)
        }
    }
}
