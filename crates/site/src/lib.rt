// The site block after the fixed fields: ID, alleles, FILTER and INFO pairs, to the block's last byte.
// The block is lent up to its end. Rests on values and vectors, and on repeats for FILTER.
#![tactic(auto)]

ghost use Rattle.std.specs.Prelude.{◌≡◌, ℕ, List, ◌-◌, ◌≤◌, drop, length};
ghost use Rattle.values.specs.Answers.{Answer};
ghost use Rattle.vectors.specs.Vectors.{JudgedInside};
ghost use Rattle.site.specs.Steps.{StepInside, times, judged_step};
ghost use Rattle.site.specs.Engine.{TakesStep, IsAfter};
ghost use Rattle.site.specs.Alleles.{allele_bytes, allele};
ghost use Rattle.site.specs.Filters.{filtered, filter};
ghost use Rattle.site.specs.Site.{info, site};

use types::Use;
use values::{Refusal, Value};

// The judgement of a part that starts at `first` as a step to `stop`.
fn past_elements(judged: Result<(), Refusal>, first: usize, stop: usize) -> Result<usize, Refusal>
    requires { (first ≤ stop) × JudgedInside (stop - first) judged }
    ensures { result ≡ judged_step first stop judged }
{
    match judged {
        Ok(()) => Ok(stop),
        Err(r) => Err(Refusal {
            number: r.number,
            place: first + r.place,
        }),
    }
}

// An allele's bytes, each from 21 to 7E: sound, or 9 at the first that is not; places count from the part's start.
#[tactic(auto, using(crate::proofs::Turns::allele_bytes_turn, crate::proofs::Turns::allele_bytes_end))]
pub fn judge_allele_bytes(part: &[u8]) -> Result<(), Refusal>
    ensures value { result ≡ allele_bytes 0 part.now }
    ensures judged_inside { JudgedInside (length part.now) result }
{
    for (at, b) in part.iter().enumerate() {
        if *b < 0x21 || 0x7E < *b {
            return Err(Refusal {
                number: 9,
                place: at,
            });
        }
    }
    Ok(())
}

// The allele at a place: the place after it, or its refusal.
#[tactic(auto, using(words::proofs::Places::drop_on), unfolding(crate::specs::Alleles::allele))]
pub fn allele_at(block: &[u8], at: usize) -> Result<usize, Refusal>
    ensures value { result ≡ allele at (drop at block.now) }
    ensures step_inside { StepInside at (length block.now) result }
{
    let Value {
        len,
        first,
        stop,
        ..
    } = values::value_at(block, at, Use::Allele, 1)?;
    if len == 0 {
        return Err(Refusal {
            number: 7,
            place: at,
        });
    }
    let j = judge_allele_bytes(&block[first..stop]);
    past_elements(j, first, stop)
}

// The same step so many times from a place on: the place after them, or the first refusal.
fn times<F: Fn(usize) -> Result<usize, Refusal>>(
    from: usize,
    count: u32,
    step: F,
) -> Result<usize, Refusal>
    requires { F.IsAlwaysCallable step }
    ensures { (one : ℕ → List ℕ → Answer ℕ) (block : List ℕ) → TakesStep one block (F.post step) → IsAfter one block from count result }
{
    let mut at = from;
    for _ in 0..count {
        at = step(at)?;
    }
    Ok(at)
}

// So many alleles from a place on: the place after them, or the first refusal.
pub fn alleles_at(block: &[u8], from: usize, count: u32) -> Result<usize, Refusal>
    ensures value { result ≡ times allele count from (drop from block.now) }
    ensures step_inside { StepInside from (length block.now) result }
{
    times(from, count, |at| allele_at(block, at))
}

// The elements of FILTER; places count from the part's start. What is refused is decided by the first repeat among those before the first
// that is no offset.
fn judge_filters(part: &[u8], code: u8, strings: u32) -> Result<(), Refusal>
    ensures value { result ≡ filtered strings code part.now }
    ensures judged_inside { JudgedInside (length part.now) result }
{
    let row = types::row_of(code);
    let w = row.width;
    let count = words::over(part.len(), w as usize);
    let sound = repeats::first_outside(part, code, strings);
    let stop = sound * w as usize;
    let first = repeats::first_repeat(&part[..stop], code);
    if first < sound {
        return Err(Refusal {
            number: 11,
            place: first * w as usize,
        });
    }
    if sound < count {
        return Err(Refusal {
            number: 8,
            place: stop,
        });
    }
    Ok(())
}

// FILTER at a place: the place after it, or its refusal; of its elements, one after the other, 8 then 11.
#[tactic(auto, using(words::proofs::Places::drop_on), unfolding(crate::specs::Filters::filter))]
pub fn filter_at(block: &[u8], at: usize, strings: u32) -> Result<usize, Refusal>
    ensures value { result ≡ filter strings at (drop at block.now) }
    ensures step_inside { StepInside at (length block.now) result }
{
    let Value {
        code,
        first,
        stop,
        ..
    } = values::value_at(block, at, Use::Filter, 1)?;
    let j = judge_filters(&block[first..stop], code, strings);
    past_elements(j, first, stop)
}

// The INFO pair at a place: the place after it, or its refusal.
#[tactic(auto, using(words::proofs::Places::drop_on), unfolding(crate::specs::Site::info))]
pub fn info_at(block: &[u8], at: usize, strings: u32) -> Result<usize, Refusal>
    ensures value { result ≡ info strings at (drop at block.now) }
    ensures step_inside { StepInside at (length block.now) result }
{
    let key = values::key_at(block, at, strings)?;
    let v = vectors::sound_value_at(block, key.next, Use::Info, 1, 0)?;
    Ok(v.stop)
}

// So many INFO pairs from a place on: the place after them, or the first refusal.
pub fn infos_at(block: &[u8], from: usize, strings: u32, count: u32) -> Result<usize, Refusal>
    ensures value { result ≡ times (info strings) count from (drop from block.now) }
    ensures step_inside { StepInside from (length block.now) result }
{
    times(from, count, |at| info_at(block, at, strings))
}

// The site block from ID on, to its last byte: its end; or the first refusal of ID, the alleles, FILTER and the INFO pairs, then 4.
#[tactic(auto, using(words::proofs::Places::drop_on, crate::proofs::Turns::ended_at), unfolding(crate::specs::Site::site))]
pub fn site_block(
    block: &[u8],
    from: usize,
    strings: u32,
    alleles: u32,
    infos: u32,
) -> Result<usize, Refusal>
    ensures { result ≡ site strings alleles infos from (drop from block.now) }
{
    let id = vectors::sound_value_at(block, from, Use::Id, 1, 0)?;
    let after_alleles = alleles_at(block, id.stop, alleles)?;
    let after_filter = filter_at(block, after_alleles, strings)?;
    let last = infos_at(block, after_filter, strings, infos)?;
    if block.len() <= last {
        return Ok(last);
    }
    Err(Refusal {
        number: 4,
        place: last,
    })
}
