// Showing an element of a fetched part: a number, bits or a byte by its type, and, of GT, its allele and phase. Rests on types and words.
#![tactic(auto)]

ghost use Rattle.std.specs.Prelude.{◌≡◌, ◌≢◌, drop};
ghost use Rattle.std.specs.Int.{w32};
ghost use Rattle.std.proofs.Common.{to_z};
ghost use Rattle.elements.specs.Elements.{shown_by, element_at, code_call, call_of, call_at};
ghost use Rattle.words.specs.Words.{number};
ghost use Rattle.types.specs.Rows.{width_of};
ghost use Rattle.types.specs.Elements.{kind, shown};

use types::Element;

// An element as it is shown: an integer of any width as a signed number with type 3's marks, a float's bits, a byte of text.
#[derive(Clone, Copy, Debug, PartialEq, Eq)]
pub enum Shown {
    Integer(i32),
    Float(u32),
    Text(u8),
}

// An element of GT: an allele's number, a missing allele, an end of vector; no call for a negative or a reserved code.
#[derive(Clone, Copy, Debug, PartialEq, Eq)]
pub enum Call {
    Allele { number: u32, phased: bool },
    Missing { phased: bool },
    End,
    NoCall,
}

// The element of a type that stands at a place of a part, by the 32 bits that it is shown by; past the part's end each byte counts as 0.
pub fn bits_at(part: &[u8], at: usize, code: u8) -> u32
    ensures { result ≡ shown code (number (width_of code) (drop at part.now)) }
{
    let row = types::row_of(code);
    types::shown_bits(code, words::word_at(part, at, row.width))
}

// A float's bits as they are, an integer's as the signed number that they are.
fn number_shown(code: u8, bits: u32) -> Shown
    requires { code ≢ 7 }
    ensures { result ≡ shown_by code bits }
{
    if code == 5 {
        return Shown::Float(bits);
    }
    Shown::Integer(words::signed(bits))
}

// The element of a part at an index from 0 by the part's type: a signed number with type 3's marks, a float's bits, a byte of text; none past the
// last one.
#[tactic(auto, using(crate::proofs::Elements::element_text))]
pub fn element_at(part: &[u8], code: u8, index: usize) -> Option<Shown>
    ensures { result ≡ element_at code index part.now }
{
    if code == 7 {
        return if index < part.len() {
            Some(Shown::Text(part[index]))
        } else {
            None
        };
    }
    let row = types::row_of(code);
    let w = row.width as usize;
    if words::over(part.len(), w) <= index {
        return None;
    }
    let at = index * w;
    let stop = at + w;
    Some(number_shown(code, types::shown_bits(code, words::word(&part[at..stop]))))
}

// What a code of GT says, given by its 32 bits: its allele is half of it, less one, and it is phased when odd; a negative one says nothing.
fn code_call(bits: u32) -> Call
    ensures { result ≡ code_call (to_z w32 bits) }
{
    if 2147483648 <= bits {
        return Call::NoCall;
    }
    let half = bits / 2;
    if half == 0 {
        return Call::Missing {
            phased: bits % 2 == 1,
        };
    }
    Call::Allele {
        number: half - 1,
        phased: bits % 2 == 1,
    }
}

// What an element of GT is, given by its 32 bits: a mark, or a code.
fn call_of(bits: u32) -> Call
    ensures { result ≡ call_of (kind 3 bits) (to_z w32 bits) }
{
    let k = types::element_of(3, bits);
    match k {
        Element::End => Call::End,
        Element::Missing => Call::Missing { phased: false },
        Element::Plain => code_call(bits),
        Element::Reserved => Call::NoCall,
    }
}

// The element of GT's part at an index from 0: an allele with its phase, a missing allele, an end of vector, or no call; none past the last one,
// and in a part of a type that GT cannot have.
#[tactic(auto, using(words::proofs::Sign::back), unfolding(crate::specs::Elements::call_at))]
pub fn call_at(part: &[u8], code: u8, index: usize) -> Option<Call>
    ensures { result ≡ call_at code index part.now }
{
    match element_at(part, code, index)? {
        Shown::Integer(z) => Some(call_of(words::bits(z))),
        Shown::Float(_) => None,
        Shown::Text(_) => None,
    }
}
