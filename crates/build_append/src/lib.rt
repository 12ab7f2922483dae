// Bytes of a value appended to a record in a lent buffer: with its key before it, in the narrowest types, unless the rules or the room are
// against it. Rests on encode for what is written and on stores.
#![tactic(auto)]

ghost use Rattle.std.specs.Prelude.{map, ◌≡◌, ◌+◌, ◌*◌, ◌^◌, ◌<◌, ◌≤◌, ℕ, length};
ghost use Rattle.std.proofs.lemmas.List.Edits.{sets};
ghost use Rattle.std.specs.Int.{w32};
ghost use Rattle.std.proofs.Common.{of_z};
ghost use Rattle.stores.specs.Stores.{filled};
ghost use Rattle.types.specs.Rows.{width_of};
ghost use Rattle.encode.specs.Encode.{elements_bytes, value_bytes};
ghost use Rattle.shown.specs.Shown.{Kind, integers, floats, text};
ghost use Rattle.shown.specs.Values.{written_as};
ghost use Rattle.build_append.specs.Append.{first_of, room_number, head_bytes, vector_length, field_bytes, written, written_to};

// What a value is written as: alone (ID, an allele, FILTER), with an INFO field's key, or with a FORMAT field's key and the length of each
// person's vector.
#[derive(Clone, Copy, Debug, PartialEq, Eq)]
pub enum Field {
    Alone,
    Info(u32),
    Format(u32, u32),
}

// What became of bytes to be appended: the number of what is wrong, 0 where they were written, and how many they are.
#[derive(Clone, Copy, Debug, PartialEq, Eq)]
pub struct Written {
    pub number: u32,
    pub size: usize,
}

// The first of two numbers of refusals that is not 0.
#[tactic(auto, unfolding(crate::specs::Append::first_of))]
pub fn first_of(a: u32, b: u32) -> u32
    ensures { result ≡ first_of a b }
{
    if a == 0 {
        return b;
    }
    a
}

// 2 for a record over the most bytes, then 13 for a buffer too short.
#[tactic(auto, unfolding(crate::specs::Append::room_number))]
fn room_number(at: u32, size: usize, room: usize) -> u32
    ensures { result ≡ room_number at size room }
{
    let stop = size.saturating_add(at as usize);
    if fixed::MOST < stop {
        return 2;
    }
    if room < stop {
        return 13;
    }
    0
}

// How many bytes stand before a value.
fn head_size(field: Field) -> usize
    ensures value { result ≡ length (head_bytes field) }
    ensures upper_bound { result ≤ 5 }
{
    match field {
        Field::Alone => 0,
        Field::Info(key) | Field::Format(key, _) => encode::integer_size(key as usize),
    }
}

// The length of each vector, of so many elements in all.
fn vector_length(field: Field, count: usize) -> usize
    ensures value { result ≡ vector_length field count }
    ensures upper_bound { count < 2 ^ 32 → result < 2 ^ 32 }
{
    match field {
        Field::Alone | Field::Info(_) => count,
        Field::Format(_, len) => len as usize,
    }
}

// Stores what stands before a value, where it has room.
fn put_head(buf: &mut [u8], at: usize, field: Field)
    ensures { buf.new ≡ filled buf.old at (head_bytes field) }
{
    match field {
        Field::Alone => {}
        Field::Info(key) | Field::Format(key, _) => {
            encode::put_integer(buf, at, key);
        }
    }
}

// An element as a builder gives it: a byte of text, an integer, or a float by its bits. Of a value's elements this says in which type they
// are written, and how.
trait Element: Copy {
    ghost kind: { Kind };

    ghost shown: { Self → ℕ };

    // The type in which elements are written.
    fn code(values: &[Self]) -> u8
        ensures { result ≡ written_as kind (map shown values.now) };

    // Stores elements in that type, where they have room.
    fn put(buf: &mut [u8], at: usize, code: u8, values: &[Self])
        requires { code ≡ written_as kind (map shown values.now) }
        ensures { buf.new ≡ filled buf.old at (elements_bytes code (map shown values.now)) };
}

impl Element for u8 {
    ghost kind = { text };

    ghost shown = { λ x. x };

    fn code(_values: &[u8]) -> u8 {
        7
    }

    fn put(buf: &mut [u8], at: usize, _code: u8, values: &[u8]) {
        stores::put(buf, at, values);
    }
}

impl Element for i32 {
    ghost kind = { integers };

    ghost shown = { of_z w32 };

    fn code(values: &[i32]) -> u8 {
        encode::widest_type(values)
    }

    fn put(buf: &mut [u8], at: usize, code: u8, values: &[i32]) {
        encode::put_integers(buf, at, code, values);
    }
}

impl Element for u32 {
    ghost kind = { floats };

    ghost shown = { λ x. x };

    fn code(_values: &[u32]) -> u8 {
        5
    }

    fn put(buf: &mut [u8], at: usize, _code: u8, values: &[u32]) {
        encode::put_floats(buf, at, values);
    }
}

// Stores elements as a value, with the length of each vector and their type.
fn put_value<T: Element>(buf: &mut [u8], at: usize, len: u32, code: u8, values: &[T])
    requires kind { code ≡ written_as T.kind (map T.shown values.now) }
    requires room { at + length (value_bytes code len (map T.shown values.now)) ≤ length buf.old }
    ensures { buf.new ≡ sets buf.old at (value_bytes code len (map T.shown values.now)) }
{
    encode::put_descriptor(buf, at, code, len);
    T::put(
        buf,
        at + encode::descriptor_size(len as usize),
        code,
        values,
    );
}

// Appends elements of a kind as a value.
fn append<T: Element>(buf: &mut [u8], at: u32, rules: u32, field: Field, values: &[T]) -> Written
    requires { length values.now * width_of (written_as T.kind (map T.shown values.now)) < 2 ^ 63 }
    ensures told { result ≡ written at (length buf.old) rules (field_bytes field T.kind (map T.shown values.now)) }
    ensures written { buf.new ≡ written_to buf.old at rules (field_bytes field T.kind (map T.shown values.now)) }
{
    let len = vector_length(field, values.len());
    let code = T::code(values);
    let row = types::row_of(code);
    let first = head_size(field);
    let size = first + encode::descriptor_size(len) + values.len() * usize::from(row.width);
    let number = first_of(rules, room_number(at, size, buf.len()));
    if number == 0 {
        put_head(buf, at as usize, field);
        put_value(buf, at as usize + first, len as u32, code, values);
    }
    Written { number, size }
}

// Appends text, unless the rules or the room are against it: the number, the rules' or else 2 or 13, and the size. With a number nothing is
// written.
#[tactic(auto, unfolding(types::specs::Rows::width_of, types::specs::Rows::row_of))]
pub fn append_text(buf: &mut [u8], at: u32, rules: u32, field: Field, part: &[u8]) -> Written
    ensures told { result ≡ written at (length buf.old) rules (field_bytes field text part.now) }
    ensures written { buf.new ≡ written_to buf.old at rules (field_bytes field text part.now) }
{
    append(buf, at, rules, field, part)
}

// Appends floats, given by their bits, unless the rules or the room are against it: the number, the rules' or else 2 or 13, and the size. With a
// number nothing is written.
#[tactic(auto, unfolding(types::specs::Rows::width_of, types::specs::Rows::row_of))]
pub fn append_floats(buf: &mut [u8], at: u32, rules: u32, field: Field, bits: &[u32]) -> Written
    ensures told { result ≡ written at (length buf.old) rules (field_bytes field floats bits.now) }
    ensures written { buf.new ≡ written_to buf.old at rules (field_bytes field floats bits.now) }
{
    append(buf, at, rules, field, bits)
}

// Appends integers in the narrowest type for all, unless the rules or the room are against it: the number, the rules' or else 2 or 13, and the
// size. With a number nothing is written.
pub fn append_integers(buf: &mut [u8], at: u32, rules: u32, field: Field, values: &[i32]) -> Written
    ensures told { result ≡ written at (length buf.old) rules (field_bytes field integers (map (of_z w32) values.now)) }
    ensures written { buf.new ≡ written_to buf.old at rules (field_bytes field integers (map (of_z w32) values.now)) }
{
    append(buf, at, rules, field, values)
}
