// Reading: one uncompressed BCF2 record at the start of a lent slice, judged in 01's order.
// Rests on the front of a record (fixed), its site block (site) and its genotype block (genotypes).
#![tactic(auto)]

ghost use Rattle.std.specs.Prelude.{◌≡◌, length};
ghost use Rattle.record.specs.Reading.{reading, ReadingInside};

use facts::Facts;
use fixed::Site;
use genotypes::Gt;
use values::Refusal;

// A record that is accepted: its site, and where GT stands.
#[derive(Clone, Copy, Debug, PartialEq, Eq)]
pub struct Reading {
    pub site: Site,
    pub gt: Gt,
}

// The record at the start of a slice, under the header's facts: its site and where GT stands, or 01's first refusal, number and place. Bytes after
// it belong to the next one.
#[tactic(auto, unfolding(crate::specs::Reading::reading, crate::specs::Reading::site_of, crate::specs::Reading::genotypes_of))]
pub fn read(s: &[u8], facts: Facts) -> Result<Reading, Refusal>
    ensures value { result ≡ reading facts s.now }
    ensures reading_inside { ReadingInside (length s.now) result }
{
    let site = fixed::fixed_fields(s, facts)?;
    let border = site.border;
    let length = site.length;
    let alleles = site.alleles as u32;
    let infos = site.infos as u32;
    site::site_block(&s[..border], fixed::ID, facts.strings, alleles, infos)?;
    let gt = genotypes::genotype_block(&s[..length], border, facts, alleles, site.formats)?;
    Ok(Reading { site, gt })
}
