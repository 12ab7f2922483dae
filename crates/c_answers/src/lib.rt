// An answer told to a caller of another language: one u64 with a refusal's number in its high half and, in its low half, the refusal's
// place or, with number 0, a length; and what an accepted answer holds, as numbers in a lent slice. And back: the site that reading's numbers
// hold. Rests on the answers of reading, fetching, showing, tallying, choosing, printing and walking.
#![tactic(auto)]

ghost use Rattle.std.specs.Prelude.{◌≡◌, length, Ok};
ghost use Rattle.stores.specs.Stores.{filled};
ghost use Rattle.c_answers.specs.Stored.{stored};
ghost use Rattle.c_answers.specs.Told.{answer, refused_answer, told_answer, site_told, empty_site, reading_answer, reading_numbers, found_answer, found_numbers, pair_answer, pair_numbers, one_answer, shown_answer, tallied_answer, tallied_numbers, counting_answer, counting_numbers};

use calls::Calls;
use elements::Shown;
use fetch::Found;
use fixed::Site;
use genotypes::Gt;
use record::Reading;
use tally::Tallied;
use values::Refusal;
use walker::Pair;

// A number in the high half, and the low 32 bits of a place or a length in the low half.
pub fn answer_of(number: u32, low: usize) -> u64
    ensures { result ≡ answer number low }
{
    number as u64 * 4294967296 + low as u64 % 4294967296
}

// A refusal's answer: its number and its place.
pub fn refused_answer(r: Refusal) -> u64
    ensures { result ≡ refused_answer r }
{
    answer_of(r.number, r.place)
}

// Stores values at a place of a lent slice, where they have room.
#[tactic(auto, using(crate::proofs::Room::stored_short, crate::proofs::Room::stored_part))]
pub fn put_all<T: Copy>(out: &mut [T], at: usize, values: &[T])
    ensures { out.new ≡ stored out.old at values.now }
{
    if at <= out.len() && values.len() <= out.len() - at {
        out[at..at + values.len()].copy_from_slice(values);
    }
}

// Tells numbers and a length, or 13 where they have no room.
#[tactic(auto, using(crate::proofs::Room::told_short, crate::proofs::Room::told_room, crate::proofs::Room::stored_numbers))]
fn tell(out: &mut [u64], numbers: &[u64], low: usize) -> u64
    ensures told { result ≡ told_answer (length out.old) numbers.now low }
    ensures written { out.new ≡ filled out.old 0 numbers.now }
{
    let room = out.len();
    put_all(out, 0, numbers);
    if room < numbers.len() {
        return answer_of(13, 0);
    }
    answer_of(0, low)
}

// Tells what reading answered: its refusal; else 13 for less than 13 numbers of room; else the record's length, and in `out` the length, the
// border, the fixed fields, the counts, and where GT stands.
pub fn tell_reading(reading: Result<Reading, Refusal>, out: &mut [u64]) -> u64
    ensures told { result ≡ reading_answer (length out.old) reading }
    ensures written { out.new ≡ reading_numbers out.old reading }
{
    let Reading { site, gt } = match reading {
        Ok(accepted) => accepted,
        Err(r) => return refused_answer(r),
    };
    let pos = positions::to_bits(site.pos);
    let numbers = [
        site.length as u64,
        site.border as u64,
        site.chrom as u64,
        pos as u64,
        site.rlen as u64,
        site.qual as u64,
        site.alleles as u64,
        site.infos as u64,
        site.formats as u64,
        site.people as u64,
        gt.code as u64,
        gt.len as u64,
        gt.first as u64,
    ];
    tell(out, &numbers, site.length)
}

// A site in which no field stands: both its blocks are empty.
fn empty_site() -> Site
    ensures { result ≡ empty_site }
{
    Site {
        length: 0,
        border: 0,
        chrom: 0,
        pos: positions::from_bits(0),
        rlen: 0,
        qual: 0,
        alleles: 0,
        infos: 0,
        formats: 0,
        people: 0,
    }
}

// The site that 13 numbers hold, as reading told them, each as far as its field's type goes; fewer hold one in which no field stands.
pub fn site_told(numbers: &[u64]) -> Site
    ensures { result ≡ site_told numbers.now }
{
    if numbers.len() < 13 {
        return empty_site();
    }
    Site {
        length: numbers[0] as usize,
        border: numbers[1] as usize,
        chrom: (numbers[2] % 4294967296) as u32,
        pos: positions::from_bits((numbers[3] % 4294967296) as u32),
        rlen: (numbers[4] % 4294967296) as u32,
        qual: (numbers[5] % 4294967296) as u32,
        alleles: (numbers[6] % 65536) as u16,
        infos: (numbers[7] % 65536) as u16,
        formats: (numbers[8] % 256) as u8,
        people: (numbers[9] % 4294967296) as u32,
    }
}

// Tells a field: its key, type, length, the place of its first element and the place after its last.
fn tell_field(out: &mut [u64], field: Found) -> u64
    ensures told { result ≡ found_answer (length out.old) (Ok field) }
    ensures written { out.new ≡ found_numbers out.old (Ok field) }
{
    let numbers = [
        field.key as u64,
        field.code as u64,
        field.len as u64,
        field.place as u64,
        field.stop as u64,
    ];
    tell(out, &numbers, field.stop.saturating_sub(field.place))
}

// Tells what fetching answered: its refusal; else 13 for less than 5 numbers of room; else how many bytes the field's part has, and in `out` key,
// type, length, place and end.
pub fn tell_found(f: Result<Found, Refusal>, out: &mut [u64]) -> u64
    ensures told { result ≡ found_answer (length out.old) f }
    ensures written { out.new ≡ found_numbers out.old f }
{
    match f {
        Ok(field) => tell_field(out, field),
        Err(r) => refused_answer(r),
    }
}

// Tells a pair of the walker as a fetched field is told; 16 where there is none.
pub fn tell_pair(p: Option<Pair>, out: &mut [u64]) -> u64
    ensures told { result ≡ pair_answer (length out.old) p }
    ensures written { out.new ≡ pair_numbers out.old p }
{
    match p {
        Some(
            Pair {
                key,
                code,
                len,
                place,
                next,
            },
        ) => tell_field(
            out,
            Found {
                key,
                code,
                len,
                place,
                stop: next,
            },
        ),
        None => answer_of(16, 0),
    }
}

// Tells the one number that an answer holds, a place or a length, or the refusal.
pub fn tell_one(one: Result<usize, Refusal>) -> u64
    ensures { result ≡ one_answer one }
{
    match one {
        Ok(n) => answer_of(0, n),
        Err(r) => refused_answer(r),
    }
}

// Tells the 32 bits of the number, the float or the byte that an element is shown as; 16 where there is none.
#[tactic(auto, using(words::proofs::Sign::bits_back))]
pub fn tell_shown(e: Option<Shown>) -> u64
    ensures { result ≡ shown_answer e }
{
    let Some(shown) = e else {
        return answer_of(16, 0);
    };
    match shown {
        Shown::Integer(z) => answer_of(0, words::bits(z) as usize),
        Shown::Float(b) => answer_of(0, b as usize),
        Shown::Text(b) => answer_of(0, b as usize),
    }
}

// Tells a tally that is counted: alleles, people, people without a genotype, missing alleles, and the calls of each of 64 alleles.
fn tell_calls(site: Site, calls: Calls, out: &mut [u64]) -> u64
    ensures told { result ≡ counting_answer (length out.old) calls (Ok site) }
    ensures written { out.new ≡ counting_numbers out.old calls (Ok site) }
{
    if out.len() < 68 {
        return answer_of(13, 0);
    }
    let first = [site.alleles as u64, site.people as u64, calls.without];
    let counts = calls.counts;
    put_all(out, 0, &first);
    put_all(out, 3, &counts);
    answer_of(0, site.length)
}

// Tells what a tally answered: its refusal; else 13 for less than 68 numbers of room; else the record's length, and in `out` alleles, people and
// counters.
pub fn tell_tally(t: Tallied, out: &mut [u64]) -> u64
    ensures told { result ≡ tallied_answer (length out.old) t }
    ensures written { out.new ≡ tallied_numbers out.old t }
{
    let answer = t.answer;
    match answer {
        Ok(site) => tell_calls(site, t.calls, out),
        Err(r) => refused_answer(r),
    }
}
