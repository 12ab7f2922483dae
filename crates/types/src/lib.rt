// The sixteen type codes of a descriptor's low half, what an element of a type is, and how it is shown.
// Rests on words, for the signed numbers of 32 bits.
#![tactic(auto)]

ghost use Rattle.std.specs.Prelude.{◌≡◌, ◌≢◌, ◌<◌, ◌≤◌};
ghost use Rattle.types.specs.Rows.{row_of, width_of, allowed};
ghost use Rattle.types.specs.Elements.{kind, marked, shown, widened, narrowest};

// The places where a typed value may stand. A key and a true length are one use: one integer with a descriptor of its own.
#[derive(Clone, Copy, Debug, PartialEq, Eq)]
pub enum Use {
    Id,
    Allele,
    Filter,
    Integer,
    Info,
    Format,
    Gt,
}

// A row of the table: the bytes of an element, 0 for a bare 00 and for a code that is unused, and where a value of the type may stand.
#[derive(Clone, Copy, Debug, PartialEq, Eq)]
pub struct Row {
    pub width: u8,
    pub id: bool,
    pub allele: bool,
    pub filter: bool,
    pub integer: bool,
    pub info: bool,
    pub format: bool,
    pub gt: bool,
}

const UNUSED: Row = Row {
    width: 0,
    id: false,
    allele: false,
    filter: false,
    integer: false,
    info: false,
    format: false,
    gt: false,
};

const BARE: Row = Row {
    filter: true,
    info: true,
    format: true,
    gt: true,
    ..UNUSED
};

const INT8: Row = Row {
    width: 1,
    integer: true,
    ..BARE
};

const INT16: Row = Row { width: 2, ..INT8 };

const INT32: Row = Row { width: 4, ..INT8 };

const FLOAT: Row = Row {
    width: 4,
    info: true,
    format: true,
    ..UNUSED
};

const TEXT: Row = Row {
    width: 1,
    id: true,
    allele: true,
    info: true,
    format: true,
    ..UNUSED
};

// The table, by low half.
const ROWS: [Row; 16] = [
    BARE, INT8, INT16, INT32, UNUSED, FLOAT, UNUSED, TEXT, UNUSED, UNUSED, UNUSED, UNUSED, UNUSED,
    UNUSED, UNUSED, UNUSED,
];

// The row of a type code; a number that is no low half has the row of an unused code.
#[tactic(auto, unfolding(crate::specs::Rows::row_of, crate::specs::Rows::width_of))]
pub fn row_of(code: u8) -> Row
    ensures value { result ≡ row_of code }
    ensures width_value { (result.width ≡ width_of code) × (result.width ≤ 4) × (result.width ≢ 3) }
{
    ROWS.get(usize::from(code)).copied().unwrap_or(UNUSED)
}

// Whether a row allows its type at a place.
pub fn allows(r: Row, role: Use) -> bool
    ensures { result ≡ allowed r role }
{
    match role {
        Use::Id => r.id,
        Use::Allele => r.allele,
        Use::Filter => r.filter,
        Use::Integer => r.integer,
        Use::Info => r.info,
        Use::Format => r.format,
        Use::Gt => r.gt,
    }
}

// What an element is.
#[derive(Clone, Copy, Debug, PartialEq, Eq)]
pub enum Element {
    Plain,
    Missing,
    End,
    Reserved,
}

// What a number is among the marks of a type: the missing mark, then the end of vector, then reserved ones up to the last.
#[tactic(auto, unfolding(crate::specs::Elements::marked))]
fn among(missing: u32, last: u32, raw: u32) -> Element
    ensures { result ≡ marked missing last raw }
{
    if raw < missing || last < raw {
        return Element::Plain;
    }
    match raw - missing {
        0 => Element::Missing,
        1 => Element::End,
        _ => Element::Reserved,
    }
}

// What the element with these bytes is, by its type: plain, missing, an end of vector or reserved.
#[tactic(auto, unfolding(crate::specs::Elements::kind))]
pub fn element_of(code: u8, raw: u32) -> Element
    ensures { result ≡ kind code raw }
{
    match code {
        1 => among(0x80, 0x87, raw),
        2 => among(0x8000, 0x8007, raw),
        3 => among(0x80000000, 0x80000007, raw),
        5 => among(0x7F800001, 0x7F800007, raw),
        7 if raw == 0 => Element::End,
        _ => Element::Plain,
    }
}

// An integer of a narrow width, whose missing mark is its sign bit, as 32 bits.
#[tactic(auto, unfolding(crate::specs::Elements::widened))]
fn widen(missing: u32, raw: u32) -> u32
    requires { (0 < missing) × (missing ≤ 32768) }
    ensures { result ≡ widened missing raw }
{
    if raw < missing {
        return raw;
    }
    match raw - missing {
        0 => 0x80000000,
        1 => 0x80000001,
        past if past < missing => raw.wrapping_sub(missing + missing),
        _ => raw,
    }
}

// The 32 bits that an element is shown by: an integer as a signed number with type 3's marks, a float's bits, a byte of text.
#[tactic(auto, unfolding(crate::specs::Elements::shown))]
pub fn shown_bits(code: u8, raw: u32) -> u32
    ensures { result ≡ shown code raw }
{
    match code {
        1 => widen(0x80, raw),
        2 => widen(0x8000, raw),
        _ => raw,
    }
}

// The narrowest type, 1, 2 or 3, that takes a plain integer, given by its 32 bits.
#[tactic(auto, unfolding(crate::specs::Elements::narrowest))]
pub fn narrowest_type(bits: u32) -> u8
    ensures { result ≡ narrowest bits }
{
    match bits {
        0..=127 | 0xFFFFFF88.. => 1,
        0..=32767 | 0xFFFF8008.. => 2,
        _ => 3,
    }
}
