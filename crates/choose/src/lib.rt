// Choosing people: the record of some of the people, into a lent buffer.
// Rests on record for reading, on fetch for the FORMAT fields, on choice for who is chosen, and on stores for what is written.
#![tactic(auto)]

ghost use Rattle.std.specs.Prelude.{◌≡◌, true, ◌++◌, ◌+◌, ◌-◌, ◌*◌, ◌^◌, ◌<◌, ◌≤◌, drop, get_or, length, take};
ghost use Rattle.std.proofs.lemmas.List.Edits.{sets};
ghost use Rattle.fixed.specs.Layout.{id_at};
ghost use Rattle.choice.specs.Choice.{ascending, chosen_parts};
ghost use Rattle.choice.specs.Sizes.{fields_size};
ghost use Rattle.choose.specs.Chosen.{chosen_fields, kept_formats, chosen_block, chosen_record};
ghost use Rattle.choose.specs.Choose.{choosing, after_choosing, ChosenInside};

use facts::Facts;
use fetch::{Found, Kind};
use fixed::Site;
use record::Reading;
use values::Refusal;

// How many people of the choice from a place on are neighbours, looking at most at so many: since a choice ascends, they are where the
// last is as far above the first as it stands behind it.
fn stretch(choice: &[u32], i: usize, most: usize) -> usize
    requires { i < length choice.now }
    ensures result_nonzero { (0 < result) × (i + result ≤ length choice.now) }
    ensures result_value { get_or choice.now (i + (result - 1)) 0 ≡ get_or choice.now i 0 + (result - 1) }
{
    let mut k = most.min(choice.len() - i);
    // Half as many are looked at where so many are no neighbours.
    while 1 < k {
        if choice[i + (k - 1)] as usize == choice[i] as usize + (k - 1) {
            return k;
        }
        k /= 2;
    }
    1
}

// The people who are kept, out of so many: a choice, which ascends.
#[derive(Clone, Copy)]
struct Kept<'a> {
    choice: &'a [u32],
    people: u32,
    ghost ascends: { ascending people choice.now ≡ true },
}

impl<'a> Kept<'a> {
    // Stores their parts, each of `size` bytes, at a place of the buffer, neighbours in one go.
    #[tactic(auto, unfolding(choice::specs::Choice::chosen_parts))]
    fn put_parts(&self, buf: &mut [u8], at: usize, parts: &[u8], size: usize)
        requires { (self.now.people * size ≤ length parts.now) × (at + length self.now.choice.now * size ≤ length buf.old) }
        ensures { buf.new ≡ sets buf.old at (chosen_parts size self.now.choice.now parts.now) }
    {
        let choice = self.choice;
        let mut o = at;
        let mut i = 0;
        let mut most = 1;
        // Each turn goes as far as the stretch that it finds.
        while i < choice.len() {
            let k = stretch(choice, i, most);
            let first = choice[i] as usize * size;
            let n = k * size;
            stores::put(buf, o, &parts[first..first + n]);
            o += n;
            i += k;
            most = k.min(65536) * 2;
        }
    }

    // Stores a FORMAT field at a place of the buffer: its key and descriptor as they stand, and their elements of everybody's.
    #[tactic(auto, using(crate::proofs::Written::head_stored))]
    fn put_field(&self, buf: &mut [u8], o: usize, head: &[u8], parts: &[u8], size: usize)
        requires { (self.now.people * size ≤ length parts.now) × (o + length head.now + length self.now.choice.now * size ≤ length buf.old) }
        ensures { buf.new ≡ sets buf.old o (head.now ++ chosen_parts size self.now.choice.now parts.now) }
    {
        stores::put(buf, o, head);
        self.put_parts(buf, o + head.len(), parts, size);
    }

    // Stores so many FORMAT fields from a place of the block on, at a place of the buffer.
    #[tactic(auto, using(crate::proofs::Written::parts_stop, crate::proofs::Written::field_stored, crate::proofs::Fields::fields_none, choice::proofs::Sizes::size_turn), unfolding(crate::specs::Chosen::chosen_fields))]
    fn put_fields(&self, buf: &mut [u8], to: usize, block: &[u8], from: usize, count: u8)
        requires { to + fields_size self.now.people (length self.now.choice.now) count from (drop from block.now) ≤ length buf.old }
        ensures { buf.new ≡ sets buf.old to (chosen_fields self.now.people self.now.choice.now count from (drop from block.now)) }
    {
        let mut o = to;
        let mut at = from;
        for _ in 0..count {
            let Ok(
                Found {
                    code,
                    len,
                    place,
                    stop,
                    ..
                },
            ) = fetch::field_at(block, at, Kind::Format, self.people)
            else {
                return;
            };
            let size = choice::part_size(code, len);
            self.put_field(buf, o, &block[at..place], &block[place..], size);
            o += place - at + self.choice.len() * size;
            at = stop;
        }
    }
}

// The FORMAT fields that are kept: of nobody none.
fn kept_formats(choice: &[u32], formats: u8) -> u8
    ensures { result ≡ kept_formats choice.now formats }
{
    if choice.is_empty() {
        return 0;
    }
    formats
}

// Stores the chosen record at the buffer's start: the site block, l_indiv and the people count changed, and the genotype block, which
// has so many bytes.
#[tactic(auto, using(crate::proofs::Written::record_stored, crate::proofs::Written::size_block, choice::proofs::Choice::length_ascending), unfolding(crate::specs::Chosen::chosen_block))]
fn put_record(buf: &mut [u8], s: &[u8], site: Site, kept: &Kept, size: usize)
    requires { (kept.now.people ≡ site.people) × (site.people < 16777216) × (id_at ≤ site.border) × (site.border ≤ site.length) × (site.length ≤ length s.now) × (size < 2 ^ 32) × (size ≡ length (chosen_block site kept.now.choice.now s.now)) × (site.border + size ≤ length buf.old) }
    ensures { buf.new ≡ sets buf.old 0 (chosen_record site kept.now.choice.now s.now) }
{
    let border = site.border;
    let length = site.length;
    let choice = kept.choice;
    let count = kept_formats(choice, site.formats);
    stores::put(buf, 0, &s[..border]);
    stores::put_number(buf, fixed::INDIV, 4, size as u32);
    stores::put_number(
        buf,
        fixed::PEOPLE,
        4,
        u32::from(count) * fixed::FORMAT + choice.len() as u32,
    );
    kept.put_fields(buf, border, &s[..length], border, count);
}

// The record of the chosen people at the buffer's start, and its length, with the buffer's other bytes as they were; or reading's refusal, 14, 13,
// which write nothing.
#[tactic(auto, unfolding(crate::specs::Choose::choosing, crate::specs::Choose::after_choosing))]
pub fn choose(s: &[u8], facts: Facts, choice: &[u32], buf: &mut [u8]) -> Result<usize, Refusal>
    ensures told { result ≡ choosing facts choice.now (length buf.old) s.now }
    ensures inside { ChosenInside (length buf.old) result }
    ensures written { buf.new ≡ after_choosing facts choice.now buf.old s.now }
{
    let Reading { site, .. } = record::read(s, facts)?;
    let people = site.people;
    if choice::is_ascending(choice, people) {
        let border = site.border;
        let length = site.length;
        let count = kept_formats(choice, site.formats);
        let size = choice::kept_size(&s[..length], border, people, choice.len(), count);
        if buf.len() < border + size {
            return Err(Refusal {
                number: 13,
                place: 0,
            });
        }
        let kept = Kept { choice, people };
        put_record(buf, s, site, &kept, size);
        return Ok(border + size);
    }
    Err(Refusal {
        number: 14,
        place: 0,
    })
}
