// One VCF data line of a record, into a lent buffer: the record is read, the line measured and then written.
// Rests on reading for the record, on vcf_site, vcf_qual and vcf_calls for the columns, and on pieces for how they are put.
#![tactic(auto)]

ghost use Rattle.std.specs.Prelude.{◌≡◌, ◌∷◌, length};
ghost use Rattle.std.proofs.lemmas.List.Edits.{sets};
ghost use Rattle.values.specs.Answers.{refusal};
ghost use Rattle.pieces.specs.Pieces.{after};
ghost use Rattle.names.specs.Names.{name_of};
ghost use Rattle.vcf_qual.specs.Qual.{qual_text};
ghost use Rattle.vcf_line.specs.Line.{line, names_in, answer_for, buffer_for, line_answer, after_line};
ghost use Rattle.vcf_line.specs.Engine.{genotypes_text, end_text, line_text};

use facts::Facts;
use fixed::Site;
use genotypes::Gt;
use record::Reading;
use values::Refusal;
use vcf_site::Names;

// FORMAT and the calls, each with a tab before it; nothing where there is no GT.
fn put_genotypes(buf: &mut [u8], to: usize, s: &[u8], gt: Gt, people: u32) -> usize
    ensures next { result ≡ after to (length (genotypes_text people gt s.now)) }
    ensures written { buf.new ≡ sets buf.old to (genotypes_text people gt s.now) }
{
    let first = gt.first;
    let len = gt.len;
    let code = gt.code;
    if first == 0 {
        return to;
    }
    let mut next = pieces::put_byte(buf, to, b'\t');
    next = pieces::put_byte(buf, next, b'G');
    next = pieces::put_byte(buf, next, b'T');
    if len == 0 {
        return vcf_calls::put_dots(buf, next, people);
    }
    vcf_calls::put_calls(buf, next, genotypes::gt_part(s, gt, people), code, len)
}

// QUAL, with a tab before it.
fn put_qual(buf: &mut [u8], to: usize, qual: u32) -> usize
    ensures next { result ≡ after to (length (0x09 ∷ qual_text qual)) }
    ensures written { buf.new ≡ sets buf.old to (0x09 ∷ qual_text qual) }
{
    let next = pieces::put_byte(buf, to, b'\t');
    vcf_qual::put_qual(buf, next, qual)
}

// INFO as a dot, FORMAT and the calls, and the line feed.
fn put_end(buf: &mut [u8], to: usize, s: &[u8], gt: Gt, people: u32) -> usize
    ensures next { result ≡ after to (length (end_text people gt s.now)) }
    ensures written { buf.new ≡ sets buf.old to (end_text people gt s.now) }
{
    let mut next = pieces::put_byte(buf, to, b'\t');
    next = pieces::put_byte(buf, next, b'.');
    next = put_genotypes(buf, next, s, gt, people);
    pieces::put_byte(buf, next, b'\n')
}

// The whole line, as far as the buffer goes.
fn put_line(
    buf: &mut [u8],
    s: &[u8],
    site: Site,
    gt: Gt,
    strings: Names<'_>,
    contigs: Names<'_>,
) -> usize
    ensures next { result ≡ after 0 (length (line_text (name_of strings.entry.text.now strings.entry.ends.now) (name_of contigs.entry.text.now contigs.entry.ends.now) site gt s.now)) }
    ensures written { buf.new ≡ sets buf.old 0 (line_text (name_of strings.entry.text.now strings.entry.ends.now) (name_of contigs.entry.text.now contigs.entry.ends.now) site gt s.now) }
{
    let people = site.people;
    let qual = site.qual;
    let mut next = vcf_site::put_front(buf, 0, s, site, contigs);
    next = vcf_site::put_alleles(buf, next, s, site);
    next = put_qual(buf, next, qual);
    next = vcf_site::put_filters(buf, next, s, site, strings);
    put_end(buf, next, s, gt, people)
}

// A refusal at place 0.
fn refused(number: u32) -> Result<usize, Refusal>
    ensures { result ≡ Err (refusal number 0) }
{
    Err(Refusal { number, place: 0 })
}

// The line of a record that was read, at the buffer's start; 13, and nothing written, where it has no room.
fn put_measured(
    buf: &mut [u8],
    s: &[u8],
    site: Site,
    gt: Gt,
    strings: Names<'_>,
    contigs: Names<'_>,
) -> Result<usize, Refusal>
    ensures told { result ≡ answer_for (length buf.old) (line (line_text (name_of strings.entry.text.now strings.entry.ends.now) (name_of contigs.entry.text.now contigs.entry.ends.now) site gt s.now)) }
    ensures written { buf.new ≡ buffer_for buf.old (line (line_text (name_of strings.entry.text.now strings.entry.ends.now) (name_of contigs.entry.text.now contigs.entry.ends.now) site gt s.now)) }
{
    let mut none = [0u8; 1];
    let size = put_line(&mut none[..0], s, site, gt, strings, contigs);
    if buf.len() < size {
        return refused(13);
    }
    put_line(buf, s, site, gt, strings, contigs);
    Ok(size)
}

// The record at the start of a slice as one VCF data line, at the start of a lent buffer: the line's length; or reading's refusal, 17 for a QUAL that
// cannot be printed, 18 for a list of names that is shorter than its dictionary, 13 for a buffer too short, and nothing written.
#[tactic(auto, unfolding(crate::specs::Line::line_answer, crate::specs::Line::after_line, crate::specs::Line::printed))]
pub fn write_line(
    s: &[u8],
    facts: Facts,
    strings: &[u8],
    string_ends: &[u32],
    contigs: &[u8],
    contig_ends: &[u32],
    buf: &mut [u8],
) -> Result<usize, Refusal>
    ensures told { result ≡ line_answer facts (names_in strings.now string_ends.now) (names_in contigs.now contig_ends.now) (length buf.old) s.now }
    ensures written { buf.new ≡ after_line facts (names_in strings.now string_ends.now) (names_in contigs.now contig_ends.now) buf.old s.now }
{
    let Reading { site, gt } = record::read(s, facts)?;
    if vcf_qual::is_printable(site.qual) {
        if string_ends.len() < facts.strings as usize {
            return refused(18);
        }
        if contig_ends.len() < facts.contigs as usize {
            return refused(18);
        }
        let strings = Names {
            text: strings,
            ends: string_ends,
        };
        let contigs = Names {
            text: contigs,
            ends: contig_ends,
        };
        return put_measured(buf, s, site, gt, strings, contigs);
    }
    refused(17)
}
