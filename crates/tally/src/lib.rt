// The tally of a record: people without a genotype, missing alleles, and how often each allele is called.
// Rests on record for reading and on calls for the sweep over GT's bytes.
#![tactic(auto)]

ghost use Rattle.std.specs.Prelude.{◌≡◌};
ghost use Rattle.tally.specs.Tally.{nobody, calls_of, refused_tally, tallied};

use calls::Calls;
use facts::Facts;
use fixed::Site;
use genotypes::Gt;
use record::Reading;
use values::Refusal;

// A tally: the site of the record that is counted, or the refusal, and the calls beside it. Where it is refused, every counter is 0.
#[derive(Clone, Copy)]
pub struct Tallied {
    pub answer: Result<Site, Refusal>,
    pub calls: Calls,
}

// So many people without a genotype, and no call.
fn without_all(people: u64) -> Calls
    ensures { result ≡ nobody people }
{
    Calls {
        without: people,
        counts: [0u64; 65],
    }
}

// The calls of so many people whose GT stands where it is said to, as far as the slice goes. With a GT of no length everybody is without a
// genotype.
pub fn calls_of(s: &[u8], gt: Gt, people: u32) -> Calls
    ensures { result ≡ calls_of gt people s.now }
{
    let code = gt.code;
    let len = gt.len as usize;
    if len == 0 {
        return without_all(people as u64);
    }
    calls::count_calls(genotypes::gt_part(s, gt, people), code, len)
}

// A refusal, with every counter 0.
fn refused_tally(r: Refusal) -> Tallied
    ensures { result ≡ refused_tally r }
{
    Tallied {
        answer: Err(r),
        calls: without_all(0),
    }
}

// The tally of the record at the start of a slice: its site and the calls; or reading's refusal, or 15 for more than 64 alleles. On a refusal
// every counter is 0.
#[tactic(auto, unfolding(crate::specs::Tally::tallied))]
pub fn tally(s: &[u8], facts: Facts) -> Tallied
    ensures { result ≡ tallied facts s.now }
{
    let Reading { site, gt } = match record::read(s, facts) {
        Ok(reading) => reading,
        Err(r) => return refused_tally(r),
    };
    if 64 < site.alleles {
        return refused_tally(Refusal {
            number: 15,
            place: 0,
        });
    }
    let calls = calls_of(s, gt, site.people);
    Tallied {
        answer: Ok(site),
        calls,
    }
}
