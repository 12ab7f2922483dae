// The two lengths and the fixed fields at the front of a record, judged in the order of their bytes.
// Rests on words for the numbers, on positions for POS and on values for the form of a refusal.
#![tactic(auto)]

ghost use Rattle.std.specs.Prelude.{◌≡◌, length};
ghost use Rattle.fixed.specs.Layout.{field, pos_wrong, people_wrong, qual_wrong};
ghost use Rattle.fixed.specs.Fixed.{blocks, wrong_at, site_at, fixed, BlocksInside, FixedInside};

use facts::Facts;
use positions::BcfPosition;
use values::Refusal;

// The site of a record: its length, the place where its genotype block begins, the fixed fields and the four counts.
// QUAL is kept as its 32 bits and is never anything else.
#[derive(Clone, Copy, Debug, PartialEq, Eq)]
pub struct Site {
    pub length: usize,
    pub border: usize,
    pub chrom: u32,
    pub pos: BcfPosition,
    pub rlen: u32,
    pub qual: u32,
    pub alleles: u16,
    pub infos: u16,
    pub formats: u8,
    pub people: u32,
}

// The two blocks of a record: where the genotype block begins, and where it ends.
#[derive(Clone, Copy, Debug, PartialEq, Eq)]
pub struct Blocks {
    pub border: usize,
    pub length: usize,
}

// What stands after the fixed fields begins here, with ID.
pub const ID: usize = 32;

// The places of l_indiv and of the fixed fields, of four bytes each.
pub const INDIV: usize = 4;

pub const CHROM: usize = 8;

pub const POS: usize = 12;

pub const RLEN: usize = 16;

pub const QUAL: usize = 20;

pub const COUNTS: usize = 24;

pub const PEOPLE: usize = 28;

// Of the fields that are filled in last, both block lengths and both counts, the last ends before here.
pub const FILLED: usize = PEOPLE + 4;

// Two counts in one field: what one allele counts above the INFO fields, and one FORMAT field above the people.
pub const ALLELE: u32 = 65536;

pub const FORMAT: u32 = 16777216;

// The most bytes of a record.
pub const MOST: usize = 16777216;

// The four bytes at a place as a number.
fn field_at(s: &[u8], at: usize) -> u32
    ensures { result ≡ field at s.now }
{
    words::word_at(s, at, 4)
}

// The blocks of the record at the start of a slice: where the genotype block begins and ends; or 1, 2, 1, 3 in this order.
#[tactic(auto, unfolding(crate::specs::Fixed::blocks))]
pub fn blocks_of(s: &[u8]) -> Result<Blocks, Refusal>
    ensures value { result ≡ blocks s.now }
    ensures blocks_inside { BlocksInside (length s.now) result }
{
    if s.len() < 8 {
        return Err(Refusal {
            number: 1,
            place: 0,
        });
    }
    let border = 8 + field_at(s, 0) as usize;
    let length = border + field_at(s, INDIV) as usize;
    if MOST < length {
        return Err(Refusal {
            number: 2,
            place: 0,
        });
    }
    if s.len() < length {
        return Err(Refusal {
            number: 1,
            place: 0,
        });
    }
    if border < ID {
        return Err(Refusal {
            number: 3,
            place: border,
        });
    }
    Ok(Blocks { border, length })
}

// Whether POS is below −1 or above 2147483646.
pub fn pos_wrong(bits: u32) -> bool
    ensures { result ≡ pos_wrong bits }
{
    if bits <= 2147483646 {
        return false;
    }
    bits < 0xFFFFFFFF
}

// Whether QUAL is an end of vector or reserved.
pub fn qual_wrong(bits: u32) -> bool
    ensures { result ≡ qual_wrong bits }
{
    if bits < 0x7F800002 {
        return false;
    }
    bits <= 0x7F800007
}

// Whether FORMAT fields and people break their rule: people are those of the header, and without people there is no FORMAT field.
fn people_wrong(given: u32, formats: u32, people: u32) -> bool
    ensures { result ≡ people_wrong given formats people }
{
    if people == given {
        if people == 0 {
            return 0 < formats;
        }
        return false;
    }
    true
}

// The place of the first fixed field, in the order of the bytes, that breaks its rule; 0 where each keeps its own.
fn wrong_at(s: &[u8], facts: Facts) -> usize
    ensures { result ≡ wrong_at facts s.now }
{
    if words::is_outside(facts.contigs, field_at(s, CHROM)) {
        return CHROM;
    }
    if pos_wrong(field_at(s, POS)) {
        return POS;
    }
    if 0x80000000 <= field_at(s, RLEN) {
        return RLEN;
    }
    if qual_wrong(field_at(s, QUAL)) {
        return QUAL;
    }
    if field_at(s, COUNTS) / ALLELE == 0 {
        return COUNTS;
    }
    let members = field_at(s, PEOPLE);
    if people_wrong(facts.people, members / FORMAT, members % FORMAT) {
        return PEOPLE;
    }
    0
}

// What the fixed fields say, of a record whose genotype block begins and ends at these places.
fn site_at(s: &[u8], border: usize, length: usize) -> Site
    ensures { result ≡ site_at border length s.now }
{
    let counts = field_at(s, COUNTS);
    let members = field_at(s, PEOPLE);
    Site {
        length,
        border,
        chrom: field_at(s, CHROM),
        pos: positions::from_bits(field_at(s, POS)),
        rlen: field_at(s, RLEN),
        qual: field_at(s, QUAL),
        alleles: (counts / ALLELE) as u16,
        infos: (counts % ALLELE) as u16,
        formats: (members / FORMAT) as u8,
        people: members % FORMAT,
    }
}

// The site of the record at the start of a slice, by its blocks and fixed fields; or the blocks' refusal, or 5 at the first field that breaks its
// rule.
#[tactic(auto, unfolding(crate::specs::Fixed::fixed))]
pub fn fixed_fields(s: &[u8], facts: Facts) -> Result<Site, Refusal>
    ensures value { result ≡ fixed facts s.now }
    ensures fixed_inside { FixedInside (length s.now) result }
{
    let Blocks { border, length } = blocks_of(s)?;
    let wrong = wrong_at(s, facts);
    if wrong != 0 {
        return Err(Refusal {
            number: 5,
            place: wrong,
        });
    }
    Ok(site_at(s, border, length))
}
