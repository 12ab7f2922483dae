// The fixed fields as they are written: what is wrong with them, the first bytes, and the lengths and counts that are filled in last. Rests on
// fixed for the layout and the fields' rules, and on stores.
#![tactic(auto)]

ghost use Rattle.std.specs.Prelude.{◌≡◌, ltb, length};
ghost use Rattle.words.specs.Pick.{pick};
ghost use Rattle.stores.specs.Stores.{filled};
ghost use Rattle.fixed.specs.Layout.{filled_to};
ghost use Rattle.build_front.specs.Front.{fields_number};
ghost use Rattle.shown.specs.Front.{front_bytes, fields_filled};

use facts::Facts;

// 5 for a fixed field that breaks its rule, or more people than a record can hold; else 0.
#[tactic(auto, unfolding(crate::specs::Front::fields_number))]
pub fn fields_number(facts: Facts, chrom: u32, pos: u32, rlen: u32, qual: u32) -> u32
    ensures { result ≡ fields_number facts chrom pos rlen qual }
{
    if words::is_outside(facts.contigs, chrom)
        || fixed::pos_wrong(pos)
        || 0x80000000 <= rlen
        || fixed::qual_wrong(qual)
        || 16777215 < facts.people
    {
        5
    } else {
        0
    }
}

// Stores the first 32 bytes, with the block lengths and the counts 0, where they have room; else nothing.
pub fn put_front(buf: &mut [u8], chrom: u32, pos: u32, rlen: u32, qual: u32)
    ensures { buf.new ≡ filled buf.old 0 (front_bytes chrom pos rlen qual) }
{
    if buf.len() < fixed::ID {
        return;
    }
    let zeros = [0u8; fixed::ID];
    stores::put(buf, 0, &zeros);
    stores::put_number(buf, fixed::CHROM, 4, chrom);
    stores::put_number(buf, fixed::POS, 4, pos);
    stores::put_number(buf, fixed::RLEN, 4, rlen);
    stores::put_number(buf, fixed::QUAL, 4, qual);
}

// Fills in both block lengths and both count fields, where the buffer reaches past them, else nothing: of a record whose genotype block stands
// between two places.
pub fn fill_in(
    buf: &mut [u8],
    border: u32,
    at: u32,
    alleles: u16,
    infos: u16,
    formats: u8,
    people: u32,
)
    ensures { buf.new ≡ pick (ltb (length buf.old) filled_to) buf.old (fields_filled border at alleles infos formats people buf.old) }
{
    if buf.len() < fixed::FILLED {
        return;
    }
    let shared = border.saturating_sub(8);
    let indiv = at.saturating_sub(border);
    let counts = u32::from(alleles) * fixed::ALLELE + u32::from(infos);
    let members = (u32::from(formats) * fixed::FORMAT).wrapping_add(people);
    stores::put_number(buf, 0, 4, shared);
    stores::put_number(buf, fixed::INDIV, 4, indiv);
    stores::put_number(buf, fixed::COUNTS, 4, counts);
    stores::put_number(buf, fixed::PEOPLE, 4, members);
}
