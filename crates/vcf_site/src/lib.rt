// The site's columns of a VCF line, put into a lent buffer as far as it goes: CHROM, POS and ID; REF and ALT; FILTER.
// Rests on fetching for the fields of a record that was read, and on pieces and names for how they are put.
#![tactic(auto)]

ghost use Rattle.std.specs.Prelude.{◌≡◌, map, ◌<◌, length};
ghost use Rattle.std.proofs.lemmas.List.Edits.{sets};
ghost use Rattle.std.specs.Int.{w32};
ghost use Rattle.std.proofs.Common.{of_z};
ghost use Rattle.positions.specs.Positions.{pos_of, pos_bits, one_based};
ghost use Rattle.types.specs.Rows.{width_of};
ghost use Rattle.vectors.specs.Vectors.{elements_of};
ghost use Rattle.pieces.specs.Pieces.{after, followed, listed, or_dot};
ghost use Rattle.names.specs.Names.{before_zero, name_of};
ghost use Rattle.vcf_site.specs.Columns.{front_text, allele_parts, alleles_text, names_text, filters_text};

use fetch::{Found, Kind};
use fixed::Site;
use positions::BcfPosition;

// A list of names as it is lent: one text, and the ends of the names in it.
#[derive(Clone, Copy)]
pub struct Names<'a> {
    pub text: &'a [u8],
    pub ends: &'a [u32],
}

impl<'a> Names<'a> {
    // The name that an offset says.
    fn at(self, i: u32) -> &'a [u8]
        ensures { result.now ≡ name_of self.entry.text.now self.entry.ends.now i }
    {
        names::name_at(self.text, self.ends, i)
    }
}

// POS as VCF has it.
fn vcf_pos(pos: BcfPosition) -> u64
    ensures { result ≡ of_z w32 (one_based (pos_of (pos_bits pos)).0) }
{
    let p = positions::to_vcf(pos);
    words::bits(p.0) as u64
}

// Text up to its first zero byte, or a dot where that is nothing.
fn put_text(buf: &mut [u8], at: usize, text: &[u8]) -> usize
    ensures next { result ≡ after at (length (or_dot (before_zero text.now))) }
    ensures written { buf.new ≡ sets buf.old at (or_dot (before_zero text.now)) }
{
    let part = names::before_zero(text);
    if part.is_empty() {
        return pieces::put_byte(buf, at, b'.');
    }
    pieces::put_part(buf, at, part)
}

// CHROM, POS and ID.
pub fn put_front(buf: &mut [u8], to: usize, s: &[u8], site: Site, names: Names<'_>) -> usize
    ensures next { result ≡ after to (length (front_text (name_of names.entry.text.now names.entry.ends.now) site s.now)) }
    ensures written { buf.new ≡ sets buf.old to (front_text (name_of names.entry.text.now names.entry.ends.now) site s.now) }
{
    let mut next = pieces::put_part(buf, to, names.at(site.chrom));
    next = pieces::put_byte(buf, next, b'\t');
    next = pieces::put_number(buf, next, vcf_pos(site.pos));
    next = pieces::put_byte(buf, next, b'\t');
    put_text(buf, next, fetch::part_of(s, site, Kind::Id, 0))
}

// Further alleles from a place of their block on, each with a comma before it.
fn put_further(
    buf: &mut [u8],
    to: usize,
    block: &[u8],
    from: usize,
    people: u32,
    count: u32,
) -> usize
    ensures next { result ≡ after to (length (followed 0x2C (allele_parts people block.now from count))) }
    ensures written { buf.new ≡ sets buf.old to (followed 0x2C (allele_parts people block.now from count)) }
{
    let mut at = from;
    let mut next = to;
    for _ in 0..count {
        let Ok(Found { place, stop, .. }) = fetch::field_at(block, at, Kind::Allele, people) else {
            return next;
        };
        next = pieces::put_byte(buf, next, b',');
        next = pieces::put_part(buf, next, &block[place..stop]);
        at = stop;
    }
    next
}

// Alleles from a place of their block on, joined by commas; a dot where there are none.
fn put_alts(buf: &mut [u8], to: usize, block: &[u8], from: usize, people: u32, count: u32) -> usize
    ensures next { result ≡ after to (length (listed 0x2C (allele_parts people block.now from count))) }
    ensures written { buf.new ≡ sets buf.old to (listed 0x2C (allele_parts people block.now from count)) }
{
    if count == 0 {
        return pieces::put_byte(buf, to, b'.');
    }
    let Ok(Found { place, stop, .. }) = fetch::field_at(block, from, Kind::Allele, people) else {
        return pieces::put_byte(buf, to, b'.');
    };
    let next = pieces::put_part(buf, to, &block[place..stop]);
    put_further(buf, next, block, stop, people, count - 1)
}

// REF and ALT, each with a tab before it.
pub fn put_alleles(buf: &mut [u8], to: usize, s: &[u8], site: Site) -> usize
    ensures next { result ≡ after to (length (alleles_text site s.now)) }
    ensures written { buf.new ≡ sets buf.old to (alleles_text site s.now) }
{
    let Ok(Found { place, stop, .. }) = fetch::field_of(s, site, Kind::Allele, 0) else {
        return to;
    };
    let mut next = pieces::put_byte(buf, to, b'\t');
    next = pieces::put_part(buf, next, &s[place..stop]);
    next = pieces::put_byte(buf, next, b'\t');
    put_alts(
        buf,
        next,
        fetch::up_to(s, site.border),
        stop,
        site.people,
        u32::from(site.alleles).saturating_sub(1),
    )
}

// The names of a part's offsets, each with a semicolon before it.
fn put_names(
    buf: &mut [u8],
    to: usize,
    part: &[u8],
    code: u8,
    width: usize,
    names: Names<'_>,
) -> usize
    requires { (width ≡ width_of code) × (0 < width) }
    ensures next { result ≡ after to (length (followed 0x3B (map (name_of names.entry.text.now names.entry.ends.now) (elements_of code (length part.now) part.now)))) }
    ensures written { buf.new ≡ sets buf.old to (followed 0x3B (map (name_of names.entry.text.now names.entry.ends.now) (elements_of code (length part.now) part.now))) }
{
    let mut next = to;
    for element in part.chunks_exact(width) {
        let x = elements::bits_at(element, 0, code);
        next = pieces::put_byte(buf, next, b';');
        next = pieces::put_part(buf, next, names.at(x));
    }
    next
}

// The names of a part's offsets, joined by semicolons; a dot where there are none.
fn put_listed(buf: &mut [u8], to: usize, part: &[u8], code: u8, names: Names<'_>) -> usize
    ensures next { result ≡ after to (length (names_text (name_of names.entry.text.now names.entry.ends.now) code part.now)) }
    ensures written { buf.new ≡ sets buf.old to (names_text (name_of names.entry.text.now names.entry.ends.now) code part.now) }
{
    let width = usize::from(types::row_of(code).width);
    if words::over(part.len(), width) == 0 {
        return pieces::put_byte(buf, to, b'.');
    }
    let x = elements::bits_at(part, 0, code);
    let next = pieces::put_part(buf, to, names.at(x));
    put_names(buf, next, &part[width..], code, width, names)
}

// FILTER, with a tab before it.
pub fn put_filters(buf: &mut [u8], to: usize, s: &[u8], site: Site, names: Names<'_>) -> usize
    ensures next { result ≡ after to (length (filters_text (name_of names.entry.text.now names.entry.ends.now) site s.now)) }
    ensures written { buf.new ≡ sets buf.old to (filters_text (name_of names.entry.text.now names.entry.ends.now) site s.now) }
{
    let Ok(
        Found {
            code,
            place,
            stop,
            ..
        },
    ) = fetch::field_of(s, site, Kind::Filter, 0)
    else {
        return to;
    };
    let next = pieces::put_byte(buf, to, b'\t');
    put_listed(buf, next, &s[place..stop], code, names)
}
