// Fetching: one field of a record, by its kind and number from 0; where its elements stand, and the elements themselves.
// The record is read first; then fields are passed by their descriptors alone. Rests on record, and on values for what is passed.
#![tactic(auto)]

ghost use Rattle.std.specs.Prelude.{◌≡◌, ◌+◌, length, take, drop, Ok};
ghost use Rattle.site.specs.Steps.{StepInside};
ghost use Rattle.fetch.specs.Fields.{value_field, alone, paired, field_at, FoundInside};
ghost use Rattle.fetch.specs.Engine.{past, to_filter, to_info, to_first, to_field, field_in, is_format};
ghost use Rattle.fetch.specs.Account.{count_of};
ghost use Rattle.fetch.specs.Fetch.{field_of, found, part_of, start_of, fetched, fetched_at};

use facts::Facts;
use fixed::Site;
use record::Reading;
use types::Use;
use values::{Integer, Refusal, Value};

// The kinds of fields. ID and FILTER have number 0 only.
#[derive(Clone, Copy, Debug, PartialEq, Eq)]
pub enum Kind {
    Id,
    Allele,
    Filter,
    Info,
    Format,
}

// A field: its key (0 where the kind has none), type and length, the place of its first element, or just after the descriptor
// for length 0, and the place after its last. A FORMAT value's length is that of each person.
#[derive(Clone, Copy, Debug, PartialEq, Eq)]
pub struct Found {
    pub key: u32,
    pub code: u8,
    pub len: u32,
    pub place: usize,
    pub stop: usize,
}

// A value with its key.
fn with_key(key: u32, value: Value) -> Found
    ensures { Ok result ≡ value_field key (Ok value) }
{
    Found {
        key,
        code: value.code,
        len: value.len,
        place: value.first,
        stop: value.stop,
    }
}

// The value at a place, with no key.
#[tactic(auto, unfolding(crate::specs::Fields::alone))]
fn value_alone(block: &[u8], at: usize, role: Use) -> Result<Found, Refusal>
    ensures value { result ≡ alone role at (drop at block.now) }
    ensures found_inside { FoundInside at (length block.now) result }
{
    Ok(with_key(0, values::value_at(block, at, role, 1)?))
}

// The key at a place and the value after it. The key was held to the dictionary when the record was read.
#[tactic(auto, using(words::proofs::Places::drop_on), unfolding(crate::specs::Fields::paired))]
fn key_and_value(block: &[u8], at: usize, role: Use, vectors: u32) -> Result<Found, Refusal>
    ensures value { result ≡ paired vectors role at (drop at block.now) }
    ensures found_inside { FoundInside at (length block.now) result }
{
    let Integer { bits, next } = values::integer_at(block, at)?;
    Ok(with_key(bits, values::value_at(block, next, role, vectors)?))
}

// The field of a kind at a place of its block, passed by its descriptor; or a refusal.
pub fn field_at(block: &[u8], at: usize, kind: Kind, people: u32) -> Result<Found, Refusal>
    ensures value { result ≡ field_at kind people at (drop at block.now) }
    ensures found_inside { FoundInside at (length block.now) result }
{
    match kind {
        Kind::Id => value_alone(block, at, Use::Id),
        Kind::Allele => value_alone(block, at, Use::Allele),
        Kind::Filter => value_alone(block, at, Use::Filter),
        Kind::Info => key_and_value(block, at, Use::Info, 1),
        Kind::Format => key_and_value(block, at, Use::Format, people),
    }
}

// Past so many fields of a kind, from a place on.
fn skip(block: &[u8], from: usize, kind: Kind, people: u32, count: u32) -> Result<usize, Refusal>
    ensures value { result ≡ past kind people count from (drop from block.now) }
    ensures step_inside { StepInside from (length block.now) result }
{
    let mut at = from;
    for _ in 0..count {
        at = field_at(block, at, kind, people)?.stop;
    }
    Ok(at)
}

// Past ID and the alleles.
#[tactic(auto, using(words::proofs::Places::drop_on), unfolding(crate::specs::Engine::to_filter))]
fn to_filter(block: &[u8], from: usize, alleles: u32) -> Result<usize, Refusal>
    ensures value { result ≡ to_filter alleles from (drop from block.now) }
    ensures step_inside { StepInside from (length block.now) result }
{
    let at = skip(block, from, Kind::Id, 1, 1)?;
    skip(block, at, Kind::Allele, 1, alleles)
}

// Past ID, the alleles and FILTER.
#[tactic(auto, using(words::proofs::Places::drop_on), unfolding(crate::specs::Engine::to_info))]
fn to_info(block: &[u8], from: usize, alleles: u32) -> Result<usize, Refusal>
    ensures value { result ≡ to_info alleles from (drop from block.now) }
    ensures step_inside { StepInside from (length block.now) result }
{
    let at = to_filter(block, from, alleles)?;
    skip(block, at, Kind::Filter, 1, 1)
}

// From the front of its block to the first field of a kind.
fn to_first(block: &[u8], from: usize, kind: Kind, alleles: u32) -> Result<usize, Refusal>
    ensures value { result ≡ to_first kind alleles from (drop from block.now) }
    ensures step_inside { StepInside from (length block.now) result }
{
    match kind {
        Kind::Id => Ok(from),
        Kind::Allele => skip(block, from, Kind::Id, 1, 1),
        Kind::Filter => to_filter(block, from, alleles),
        Kind::Info => to_info(block, from, alleles),
        Kind::Format => Ok(from),
    }
}

// And on to the field of a number.
#[tactic(auto, using(words::proofs::Places::drop_on), unfolding(crate::specs::Engine::to_field))]
fn to_field(
    block: &[u8],
    from: usize,
    kind: Kind,
    people: u32,
    alleles: u32,
    number: u32,
) -> Result<usize, Refusal>
    ensures value { result ≡ to_field kind people alleles number from (drop from block.now) }
    ensures step_inside { StepInside from (length block.now) result }
{
    let at = to_first(block, from, kind, alleles)?;
    skip(block, at, kind, people, number)
}

// The field of a kind and a number in its block.
#[tactic(auto, using(words::proofs::Places::drop_on), unfolding(crate::specs::Engine::field_in))]
fn field_in(
    block: &[u8],
    from: usize,
    kind: Kind,
    people: u32,
    alleles: u32,
    number: u32,
) -> Result<Found, Refusal>
    ensures value { result ≡ field_in kind people alleles number from (drop from block.now) }
    ensures found_inside { FoundInside from (length block.now) result }
{
    let at = to_field(block, from, kind, people, alleles, number)?;
    field_at(block, at, kind, people)
}

// Whether a kind's fields stand in the genotype block.
fn is_format(kind: Kind) -> bool
    ensures { result ≡ is_format kind }
{
    match kind {
        Kind::Id => false,
        Kind::Allele => false,
        Kind::Filter => false,
        Kind::Info => false,
        Kind::Format => true,
    }
}

// How many fields of a kind a record has.
fn count_of(kind: Kind, site: Site) -> u32
    ensures { result ≡ count_of kind site }
{
    match kind {
        Kind::Id => 1,
        Kind::Allele => site.alleles as u32,
        Kind::Filter => 1,
        Kind::Info => site.infos as u32,
        Kind::Format => site.formats as u32,
    }
}

// No field of that number.
const NO_FIELD: Refusal = Refusal {
    number: 16,
    place: 0,
};

// The bytes up to a place, as far as they are lent, as that very part.
pub fn up_to(s: &[u8], end: usize) -> &[u8]
    ensures result_value { result.now ≡ take end s.now }
    ensures ref_ptr_value { result.ref_ptr ≡ s.entry.ref_ptr }
{
    if s.len() < end {
        return s;
    }
    &s[..end]
}

// The field of a kind and a number in a record that was read, by the site that reading told: the record is not read again. With any other site it
// is the field that stands whole where that site leads, or 16.
pub fn field_of(s: &[u8], site: Site, kind: Kind, number: u32) -> Result<Found, Refusal>
    ensures value { result ≡ field_of kind number site s.now }
    ensures found_inside { FoundInside 0 (length s.now) result }
{
    if count_of(kind, site) <= number {
        return Err(NO_FIELD);
    }
    let border = site.border;
    let length = site.length;
    let people = site.people;
    let alleles = site.alleles as u32;
    if is_format(kind) {
        return field_in(up_to(s, length), border, kind, people, alleles, number).or(Err(NO_FIELD));
    }
    field_in(up_to(s, border), fixed::ID, kind, people, alleles, number).or(Err(NO_FIELD))
}

// The field of a kind and a number in the record at the start of a slice: its key, type, length, place and end; or reading's refusal, or 16 where
// there is none.
#[tactic(auto, unfolding(crate::specs::Fetch::found))]
pub fn find(s: &[u8], facts: Facts, kind: Kind, number: u32) -> Result<Found, Refusal>
    ensures value { result ≡ found facts kind number s.now }
    ensures found_inside { FoundInside 0 (length s.now) result }
{
    let Reading { site, .. } = record::read(s, facts)?;
    field_of(s, site, kind, number)
}

// The elements of a field that lies in a slice, as that very part of it; of a refusal an empty part.
fn part(s: &[u8], field: Result<Found, Refusal>) -> &[u8]
    requires { FoundInside 0 (length s.now) field }
    ensures result_value { result.now ≡ part_of s.now field }
    ensures ref_ptr_value { result.ref_ptr ≡ (s.entry.ref_ptr.0, start_of field + s.entry.ref_ptr.1) }
{
    match field {
        Ok(Found { place, stop, .. }) => &s[place..stop],
        Err(_) => &s[0..0],
    }
}

// The elements of the field of a kind and a number, as that very part of the slice; on a refusal an empty part.
pub fn fetch(s: &[u8], facts: Facts, kind: Kind, number: u32) -> &[u8]
    ensures result_value { result.now ≡ fetched facts kind number s.now }
    ensures ref_ptr_value { result.ref_ptr ≡ (s.entry.ref_ptr.0, fetched_at facts kind number s.now + s.entry.ref_ptr.1) }
{
    part(s, find(s, facts, kind, number))
}

// The elements of the field of a kind and a number in a record that was read, by the site that reading told, as that very part of the slice; on a
// refusal an empty part.
pub fn part_of(s: &[u8], site: Site, kind: Kind, number: u32) -> &[u8]
    ensures result_value { result.now ≡ part_of s.now (field_of kind number site s.now) }
    ensures ref_ptr_value { result.ref_ptr ≡ (s.entry.ref_ptr.0, start_of (field_of kind number site s.now) + s.entry.ref_ptr.1) }
{
    part(s, field_of(s, site, kind, number))
}
