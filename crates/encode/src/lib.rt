// How values are written into a lent buffer: keys, descriptors and elements in the narrowest types.
// Rests on types for what an element is, and on stores for what is written.
#![tactic(auto)]

ghost use Rattle.std.specs.Prelude.{◌≡◌, map, ◌+◌, ◌*◌, ◌≤◌, ◌^◌, ◌<◌, ℕ, length};
ghost use Rattle.std.specs.List.{list_all};
ghost use Rattle.std.proofs.lemmas.List.Edits.{sets};
ghost use Rattle.std.specs.Int.{w32};
ghost use Rattle.std.proofs.Common.{of_z};
ghost use Rattle.words.specs.Words.{bytes};
ghost use Rattle.stores.specs.Stores.{fits, filled};
ghost use Rattle.types.specs.Rows.{width_of};
ghost use Rattle.encode.specs.Engine.{is_mark, taken};
ghost use Rattle.encode.specs.Encode.{integer_bytes, descriptor_bytes, widest, narrowed, elements_bytes};

// Whether 32 bits are a mark of type 3: missing or end of vector.
#[tactic(auto, unfolding(crate::specs::Engine::is_mark))]
fn is_mark(x: u32) -> bool
    ensures { result ≡ is_mark x }
{
    x == 0x80000000 || x == 0x80000001
}

// Whether a type takes an integer, given by its 32 bits: one up to its most, one from its least negative number on, or a mark.
#[tactic(auto, unfolding(crate::specs::Engine::taken))]
fn takes<const MOST: u32, const LEAST: u32>(x: u32) -> bool
    ensures { result ≡ taken MOST LEAST x }
{
    x <= MOST || LEAST <= x || is_mark(x)
}

// Whether a type takes integers, every one. The sweep does not leave early, so that it takes many at once.
fn takes_all<const MOST: u32, const LEAST: u32>(values: &[i32]) -> bool
    ensures { result ≡ list_all (taken MOST LEAST) (map (of_z w32) values.now) }
{
    let mut good = true;
    for z in values {
        good &= takes::<MOST, LEAST>(z.cast_unsigned());
    }
    good
}

// The type in which integers are written: that of the widest which is no mark.
#[tactic(auto, using(crate::proofs::Widest::widest_1, crate::proofs::Widest::widest_2, crate::proofs::Widest::widest_3))]
pub fn widest_type(values: &[i32]) -> u8
    ensures value { result ≡ widest (map (of_z w32) values.now) }
    ensures lower_bound { (1 ≤ result) × (result ≤ 3) }
{
    if takes_all::<127, 0xFFFFFF88>(values) {
        1
    } else if takes_all::<32767, 0xFFFF8008>(values) {
        2
    } else {
        3
    }
}

// The bytes that an integer takes, with its descriptor.
#[tactic(auto, using(crate::proofs::Lengths::length_integer_bytes), unfolding(types::specs::Elements::narrowest, types::specs::Rows::width_of, types::specs::Rows::row_of))]
pub fn integer_size(bits: usize) -> usize
    ensures value { result ≡ length (integer_bytes bits) }
    ensures upper_bound { result ≤ 5 }
{
    match bits {
        0..=127 | 0xFFFFFF88.. => 2,
        0..=32767 | 0xFFFF8008.. => 3,
        _ => 5,
    }
}

// The bytes that a descriptor takes, by the length that it tells; its type makes no difference.
#[tactic(auto, using(crate::proofs::Lengths::length_descriptor_bytes))]
pub fn descriptor_size(n: usize) -> usize
    ensures value { result ≡ length (descriptor_bytes 0 n) }
    ensures upper_bound { result ≤ 6 }
{
    if n < 15 {
        return 1;
    }
    1 + integer_size(n)
}

// Stores an integer with a descriptor of its own, in the narrowest type, and says whether there was room; where there is none, nothing is stored.
pub fn put_integer(buf: &mut [u8], at: usize, bits: u32) -> bool
    ensures told { result ≡ fits (length buf.old) at (length (integer_bytes bits)) }
    ensures written { buf.new ≡ filled buf.old at (integer_bytes bits) }
{
    let code = types::narrowest_type(bits);
    let row = types::row_of(code);
    if !stores::has_room(buf.len(), at, 1 + usize::from(row.width)) {
        return false;
    }
    buf[at] = 16 + code;
    stores::put_number(buf, at + 1, row.width, bits)
}

// Stores a descriptor of a type and a length, and says whether there was room; where there is none, nothing is stored.
pub fn put_descriptor(buf: &mut [u8], at: usize, code: u8, n: u32) -> bool
    ensures told { result ≡ fits (length buf.old) at (length (descriptor_bytes code n)) }
    ensures written { buf.new ≡ filled buf.old at (descriptor_bytes code n) }
{
    if !stores::has_room(buf.len(), at, descriptor_size(n as usize)) {
        return false;
    }
    if 15 <= n {
        buf[at] = 0xF0 + code % 16;
        return put_integer(buf, at + 1, n);
    }
    buf[at] = n as u8 * 16 + code % 16;
    true
}

// An element as a caller gives it, and its 32 bits: an integer's as type 3 has them, a float's as they are.
trait Given: Copy {
    ghost shown: { Self → ℕ };

    fn bits(self) -> u32
        ensures { result ≡ shown self };
}

impl Given for i32 {
    ghost shown = { of_z w32 };

    fn bits(self) -> u32 {
        self.cast_unsigned()
    }
}

impl Given for u32 {
    ghost shown = { λ x. x };

    fn bits(self) -> u32 {
        self
    }
}

// The number whose low bytes are written for an element of a type: the marks of type 3 as those of a narrower type. Each code has a version of
// its own, in which no branch is left, so that a sweep takes many elements at once.
#[tactic(auto, using(crate::proofs::Marks::mark_most, crate::proofs::Marks::byte_marked, crate::proofs::Marks::pair_marked, crate::proofs::Marks::unmarked, crate::proofs::Marks::other_narrowed))]
fn narrow<const CODE: u8>(bits: u32) -> u32
    ensures { bytes (width_of CODE) result ≡ bytes (width_of CODE) (narrowed CODE bits) }
{
    match CODE {
        1 if is_mark(bits) => bits + 0x80,
        2 if is_mark(bits) => bits + 0x8000,
        _ => bits,
    }
}

// Stores the low bytes of a number.
fn store<const WIDTH: usize>(buf: &mut [u8], at: usize, number: u32)
    requires { (at + WIDTH ≤ length buf.old) × (WIDTH ≤ 4) }
    ensures { buf.new ≡ sets buf.old at (bytes WIDTH number) }
{
    buf[at..at + WIDTH].copy_from_slice(&number.to_le_bytes()[..WIDTH]);
}

// Stores elements of a type, each so many bytes wide, one after the other.
fn put_all<const CODE: u8, const WIDTH: usize, T: Given>(buf: &mut [u8], at: usize, values: &[T])
    requires { (WIDTH ≡ width_of CODE) × (at + length values.now * WIDTH ≤ length buf.old) }
    ensures { buf.new ≡ sets buf.old at (elements_bytes CODE (map T.shown values.now)) }
{
    let mut o = at;
    for v in values {
        store::<WIDTH>(buf, o, narrow::<CODE>(v.bits()));
        o += WIDTH;
    }
}

// Stores elements of a type, as wide as it is, one after the other.
#[tactic(auto, using(crate::proofs::Lengths::elements_other), unfolding(types::specs::Rows::width_of, types::specs::Rows::row_of))]
fn put_each<T: Given>(buf: &mut [u8], at: usize, code: u8, values: &[T])
    requires { at + length values.now * width_of code ≤ length buf.old }
    ensures { buf.new ≡ sets buf.old at (elements_bytes code (map T.shown values.now)) }
{
    match code {
        1 => put_all::<1, 1, T>(buf, at, values),
        2 => put_all::<2, 2, T>(buf, at, values),
        3 => put_all::<3, 4, T>(buf, at, values),
        5 => put_all::<5, 4, T>(buf, at, values),
        7 => put_all::<7, 1, T>(buf, at, values),
        _ => {}
    }
}

// Stores elements of a type, and says whether there was room; where there is none, nothing is stored.
fn put_elements<T: Given>(buf: &mut [u8], at: usize, code: u8, values: &[T]) -> bool
    requires { length values.now < 2 ^ 62 }
    ensures told { result ≡ fits (length buf.old) at (length (elements_bytes code (map T.shown values.now))) }
    ensures written { buf.new ≡ filled buf.old at (elements_bytes code (map T.shown values.now)) }
{
    let row = types::row_of(code);
    if !stores::has_room(buf.len(), at, values.len() * usize::from(row.width)) {
        return false;
    }
    put_each(buf, at, code, values);
    true
}

// Stores integers in a type, one after the other, and says whether there was room; where there is none, nothing is stored.
pub fn put_integers(buf: &mut [u8], at: usize, code: u8, values: &[i32]) -> bool
    ensures told { result ≡ fits (length buf.old) at (length (elements_bytes code (map (of_z w32) values.now))) }
    ensures written { buf.new ≡ filled buf.old at (elements_bytes code (map (of_z w32) values.now)) }
{
    put_elements(buf, at, code, values)
}

// Stores floats, given by their 32 bits, one after the other, and says whether there was room; where there is none, nothing is stored.
pub fn put_floats(buf: &mut [u8], at: usize, bits: &[u32]) -> bool
    ensures told { result ≡ fits (length buf.old) at (length (elements_bytes 5 bits.now)) }
    ensures written { buf.new ≡ filled buf.old at (elements_bytes 5 bits.now) }
{
    put_elements(buf, at, 5, bits)
}
