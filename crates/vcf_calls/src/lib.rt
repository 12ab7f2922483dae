// The calls of a GT field as words of a VCF line, each with a tab before it, put into a lent buffer as far as it goes.
// Rests on pieces for what is put, and on types for the elements.
#![tactic(auto)]

ghost use Rattle.std.specs.Prelude.{◌≡◌, [], ◌∷◌, ◌<◌, length, replicate};
ghost use Rattle.std.proofs.lemmas.List.Edits.{sets};
ghost use Rattle.types.specs.Rows.{width_of};
ghost use Rattle.pieces.specs.Pieces.{after, followed, dot};
ghost use Rattle.vcf_calls.specs.Words.{slot_word, separator, call_of_number, part_words};
ghost use Rattle.vcf_calls.specs.Engine.{later_text, person_text, column_of, single_text, pair_text};

// The mark of an end of vector, as it is shown.
const END: u32 = 0x80000001;

// The word of a slot.
fn put_slot(buf: &mut [u8], at: usize, x: u32) -> usize
    ensures next { result ≡ after at (length (slot_word (call_of_number x))) }
    ensures written { buf.new ≡ sets buf.old at (slot_word (call_of_number x)) }
{
    if 2147483648 <= x {
        return pieces::put_byte(buf, at, b'.');
    }
    if x < 2 {
        return pieces::put_byte(buf, at, b'.');
    }
    if x < 22 {
        return pieces::put_byte(buf, at, b'0' + (x / 2 - 1) as u8);
    }
    pieces::put_number(buf, at, (x / 2 - 1) as u64)
}

// What stands before a later slot.
fn separator_of(x: u32) -> u8
    ensures { result ≡ separator (call_of_number x) }
{
    if 2147483648 <= x {
        return b'/';
    }
    if x % 2 == 1 {
        return b'|';
    }
    b'/'
}

// A person's later slots, given by their elements, up to the first end of vector.
fn put_later(buf: &mut [u8], to: usize, slots: &[u8], code: u8, width: usize) -> usize
    requires { (width ≡ width_of code) × (0 < width) }
    ensures next { result ≡ after to (length (later_text code slots.now)) }
    ensures written { buf.new ≡ sets buf.old to (later_text code slots.now) }
{
    let mut next = to;
    for element in slots.chunks_exact(width) {
        let x = elements::bits_at(element, 0, code);
        if x == END {
            return next;
        }
        next = pieces::put_byte(buf, next, separator_of(x));
        next = put_slot(buf, next, x);
    }
    next
}

// A person's slots; a dot where there are none.
fn put_person(buf: &mut [u8], to: usize, person: &[u8], code: u8, width: usize) -> usize
    requires { (width ≡ width_of code) × (0 < width) }
    ensures next { result ≡ after to (length (person_text code person.now)) }
    ensures written { buf.new ≡ sets buf.old to (person_text code person.now) }
{
    if person.len() < width {
        return pieces::put_byte(buf, to, b'.');
    }
    let x = elements::bits_at(person, 0, code);
    if x == END {
        return pieces::put_byte(buf, to, b'.');
    }
    let next = put_slot(buf, to, x);
    put_later(buf, next, &person[width..], code, width)
}

// A tab and a person's slots.
fn put_column(buf: &mut [u8], to: usize, person: &[u8], code: u8, width: usize) -> usize
    requires { (width ≡ width_of code) × (0 < width) }
    ensures next { result ≡ after to (length (column_of code person.now)) }
    ensures written { buf.new ≡ sets buf.old to (column_of code person.now) }
{
    let next = pieces::put_byte(buf, to, b'\t');
    put_person(buf, next, person, code, width)
}

// The word of a code that is told by one character: a dot, or a digit.
fn figure(code: u8) -> u8
    requires { code < 22 }
    ensures { slot_word (call_of_number code) ≡ result ∷ [] }
{
    if code < 2 {
        return b'.';
    }
    b'0' + (code / 2 - 1)
}

// A tab and three characters, each as far as the buffer goes.
fn put_four(buf: &mut [u8], to: usize, a: u8, mark: u8, b: u8) -> usize
    ensures next { result ≡ after to 4 }
    ensures written { buf.new ≡ sets buf.old to (0x09 ∷ a ∷ mark ∷ b ∷ []) }
{
    let mut next = pieces::put_byte(buf, to, b'\t');
    next = pieces::put_byte(buf, next, a);
    next = pieces::put_byte(buf, next, mark);
    pieces::put_byte(buf, next, b)
}

// A tab and a person's two slots, both of one character: so most people have them, and all four bytes are stored at once.
fn put_pair(buf: &mut [u8], to: usize, first: u8, second: u8) -> usize
    requires { (first < 22) × (second < 22) }
    ensures next { result ≡ after to (length (pair_text first second)) }
    ensures written { buf.new ≡ sets buf.old to (pair_text first second) }
{
    if buf.len() <= to {
        return pieces::past(to, 4);
    }
    let a = figure(first);
    let mark = separator_of(second as u32);
    let b = figure(second);
    if buf.len() - to < 4 {
        return put_four(buf, to, a, mark, b);
    }
    buf[to] = b'\t';
    buf[to + 1] = a;
    buf[to + 2] = mark;
    buf[to + 3] = b;
    to + 4
}

// A tab and a person's only slot, of one character.
fn put_single(buf: &mut [u8], to: usize, code: u8) -> usize
    requires { code < 22 }
    ensures next { result ≡ after to (length (single_text code)) }
    ensures written { buf.new ≡ sets buf.old to (single_text code) }
{
    let a = figure(code);
    let next = pieces::put_byte(buf, to, b'\t');
    pieces::put_byte(buf, next, a)
}

// A tab and a person's two elements of one byte. Most have two slots of one character each, or one and an end of vector.
fn put_couple(buf: &mut [u8], to: usize, person: &[u8]) -> usize
    requires { length person.now ≡ 2 }
    ensures next { result ≡ after to (length (column_of 1 person.now)) }
    ensures written { buf.new ≡ sets buf.old to (column_of 1 person.now) }
{
    let first = person[0];
    let second = person[1];
    if 22 <= first {
        return put_column(buf, to, person, 1, 1);
    }
    if second == 0x81 {
        return put_single(buf, to, first);
    }
    if 22 <= second {
        return put_column(buf, to, person, 1, 1);
    }
    put_pair(buf, to, first, second)
}

// A person's column; two elements of one byte have a shorter way.
fn put_any(buf: &mut [u8], to: usize, person: &[u8], code: u8, width: usize) -> usize
    requires { (width ≡ width_of code) × (0 < width) }
    ensures next { result ≡ after to (length (column_of code person.now)) }
    ensures written { buf.new ≡ sets buf.old to (column_of code person.now) }
{
    if code == 1 {
        if person.len() == 2 {
            return put_couple(buf, to, person);
        }
    }
    put_column(buf, to, person, code, width)
}

// A dot for each of so many people.
pub fn put_dots(buf: &mut [u8], at: usize, people: u32) -> usize
    ensures next { result ≡ after at (length (followed 0x09 (replicate people dot))) }
    ensures written { buf.new ≡ sets buf.old at (followed 0x09 (replicate people dot)) }
{
    let mut next = at;
    for _ in 0..people {
        next = pieces::put_byte(buf, next, b'\t');
        next = pieces::put_byte(buf, next, b'.');
    }
    next
}

// The words of a GT field's people, of whose elements the part consists: so many of a type for each person.
pub fn put_calls(buf: &mut [u8], to: usize, part: &[u8], code: u8, len: u32) -> usize
    ensures next { result ≡ after to (length (followed 0x09 (part_words code len part.now))) }
    ensures written { buf.new ≡ sets buf.old to (followed 0x09 (part_words code len part.now)) }
{
    let width = usize::from(types::row_of(code).width);
    let size = len as usize * width;
    if size == 0 {
        return to;
    }
    let mut next = to;
    for person in part.chunks_exact(size) {
        next = put_any(buf, next, person, code, width);
    }
    next
}
