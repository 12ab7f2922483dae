// The genotype block: FORMAT fields, each a key and a vector for each person, no key twice, to the block's last byte.
// The block is lent up to its end. Rests on values and vectors, and on fixed for the header's facts.
#![tactic(auto)]

ghost use Rattle.std.specs.Prelude.{◌≡◌, ◌+◌, ◌%◌, ◌≤◌, drop, length, take, []};
ghost use Rattle.words.specs.Lists.{among};
ghost use Rattle.genotypes.specs.Formats.{FieldInside, role_of, gt_now, no_gt, format_field, formats, gt_part, gt_part_at};

use facts::Facts;
use types::Use;
use values::{Integer, Refusal};

// Where GT stands: its type, its length for each person and the place of its first element; all 0 where there is no GT. A bare 00 has its place.
#[derive(Clone, Copy, Debug, PartialEq, Eq)]
pub struct Gt {
    pub code: u8,
    pub len: u32,
    pub first: usize,
}

// A FORMAT field that is sound: its key, type and length for each person, and the places of its first element and after its last.
#[derive(Clone, Copy, Debug, PartialEq, Eq)]
pub struct FormatField {
    pub key: u32,
    pub code: u8,
    pub len: u32,
    pub first: usize,
    pub stop: usize,
}

// The use of a FORMAT value by its key.
fn role_of(key: u32, gt: u32) -> Use
    ensures { result ≡ role_of key gt }
{
    if key == gt {
        return Use::Gt;
    }
    Use::Format
}

// GT after a field: that field where its key is GT's, else as it was.
fn gt_after(key: u32, gt: u32, field: Gt, known: Gt) -> Gt
    ensures { result ≡ gt_now key gt field known }
{
    if key == gt {
        return field;
    }
    known
}

// Keys in a row, which are compared at once.
const ROW: usize = 4;

// Whether a row has a key. The sweep doesn't leave early, so that the compiler takes the row's keys together.
#[tactic(auto, using(crate::proofs::Earlier::among_turn), unfolding(words::specs::Lists::among))]
fn row_has(row: &[u32], key: u32) -> bool
    ensures { result ≡ among key row.now }
{
    let mut met = false;
    for k in row {
        met |= *k == key;
    }
    met
}

// Whether a few keys have one, looked at from the nearest backwards.
fn few_have(few: &[u32], key: u32) -> bool
    ensures { result ≡ among key few.now }
{
    few.iter().rev().any(|k| *k == key)
}

// Where those of so many keys begin that are compared one by one: with the last whole row, or with the first key where there is no row.
fn near_from(count: usize) -> usize
    ensures { (result ≤ count) × (result % 4 ≡ 0) }
{
    (count - count % ROW).saturating_sub(ROW)
}

// Whether a key is among the earlier ones. They are compared from the nearest backwards, since a repeat is nearly always the neighbour's: the last
// whole row and what follows it one by one, then row by row.
#[tactic(auto, using(crate::proofs::Earlier::among_split, crate::proofs::Earlier::among_cut, crate::proofs::Earlier::among_none))]
pub fn is_repeated(earlier: &[u32], key: u32) -> bool
    ensures { result ≡ among key earlier.now }
{
    let (rows, near) = earlier.split_at(near_from(earlier.len()));
    if few_have(near, key) {
        return true;
    }
    for row in rows.rchunks_exact(ROW) {
        if row_has(row, key) {
            return true;
        }
    }
    false
}

// The FORMAT field at a place, after earlier keys: its key, which is none of them, then its value by its use; or its refusal.
#[tactic(auto, using(words::proofs::Places::drop_on), unfolding(crate::specs::Formats::format_field))]
pub fn format_at(
    block: &[u8],
    at: usize,
    facts: Facts,
    alleles: u32,
    earlier: &[u32],
) -> Result<FormatField, Refusal>
    ensures value { result ≡ format_field facts.strings facts.people facts.gt alleles earlier.now at (drop at block.now) }
    ensures field_inside { FieldInside at (length block.now) result }
{
    let Integer { bits, next } = values::key_at(block, at, facts.strings)?;
    if is_repeated(earlier, bits) {
        return Err(Refusal {
            number: 11,
            place: at + 1,
        });
    }
    let role = role_of(bits, facts.gt);
    let v = vectors::sound_value_at(block, next, role, facts.people, alleles)?;
    Ok(FormatField {
        key: bits,
        code: v.code,
        len: v.len,
        first: v.first,
        stop: v.stop,
    })
}

// So many FORMAT fields from a place on, to the end of the block: where GT stands; or the first refusal of a field, then 4.
#[tactic(auto, using(crate::proofs::Turns::formats_turn, crate::proofs::Turns::formats_field, crate::proofs::Turns::formats_end, crate::proofs::Turns::keys_more))]
pub fn genotype_block(
    block: &[u8],
    from: usize,
    facts: Facts,
    alleles: u32,
    count: u8,
) -> Result<Gt, Refusal>
    ensures { result ≡ formats facts.strings facts.people facts.gt alleles count [] no_gt from (drop from block.now) }
{
    let mut keys = [0u32; 256];
    let mut at = from;
    let mut gt = Gt {
        code: 0,
        len: 0,
        first: 0,
    };
    for seen in 0..usize::from(count) {
        let FormatField {
            key,
            code,
            len,
            first,
            stop,
        } = format_at(block, at, facts, alleles, &keys[..seen])?;
        gt = gt_after(key, facts.gt, Gt { code, len, first }, gt);
        keys[seen] = key;
        at = stop;
    }
    if block.len() <= at {
        return Ok(gt);
    }
    Err(Refusal {
        number: 4,
        place: at,
    })
}

// The bytes of GT's elements, of so many people, as that very part of the slice, as far as it goes.
pub fn gt_part(s: &[u8], gt: Gt, people: u32) -> &[u8]
    ensures result_value { result.now ≡ gt_part people gt s.now }
    ensures ref_ptr_value { result.ref_ptr ≡ (s.entry.ref_ptr.0, gt_part_at gt s.now + s.entry.ref_ptr.1) }
{
    let first = gt.first;
    let code = gt.code;
    let len = gt.len as usize;
    let row = types::row_of(code);
    let w = row.width as usize;
    let count = people as usize * len;
    if values::elements_fit(first, count, w, s.len()) {
        let stop = first + count * w;
        return &s[first..stop];
    }
    let end = s.len();
    if end < first {
        return &s[end..end];
    }
    &s[first..end]
}
