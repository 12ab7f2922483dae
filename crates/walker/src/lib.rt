// The INFO walker: it holds the lent record and the place of the next INFO pair, and yields the pairs one after the other.
// The functions over the struct are thin; the work is done by `pair_at` on the slice and a number. Rests on fetch, for a field at a place and for opening.
#![tactic(auto)]

ghost use Rattle.std.specs.Prelude.{◌≡◌, drop};
ghost use Rattle.walker.specs.Walk.{as_pair, pair_at, pair_in, after_pair, next_at, opened, walker, moved_on, advanced};

use facts::Facts;
use fetch::{Found, Kind};
use record::Reading;
use values::Refusal;

#[derive(Clone, Copy)]
pub struct Walker<'a> {
    pub bytes: &'a [u8],
    pub at: usize,
}

// A pair: its key, its value's type, length and place as fetching gives them, and the place after it.
#[derive(Clone, Copy, Debug, PartialEq, Eq)]
pub struct Pair {
    pub key: u32,
    pub code: u8,
    pub len: u32,
    pub place: usize,
    pub next: usize,
}

// A field as a pair; where none stands whole, the end.
fn as_pair(field: Result<Found, Refusal>) -> Option<Pair>
    ensures { result ≡ as_pair field }
{
    match field {
        Ok(found) => Some(Pair {
            key: found.key,
            code: found.code,
            len: found.len,
            place: found.place,
            next: found.stop,
        }),
        Err(_) => None,
    }
}

// The pair at a place of a site block that is lent up to its end.
fn pair_in(block: &[u8], at: usize) -> Option<Pair>
    ensures { result ≡ pair_in at (drop at block.now) }
{
    as_pair(fetch::field_at(block, at, Kind::Info, 1))
}

// The whole INFO pair at a place of a record, before the end of its site block; else the end, and so where that block is not all lent.
pub fn pair_at(s: &[u8], at: usize) -> Option<Pair>
    ensures { result ≡ pair_at s.now at }
{
    if s.len() < 8 {
        return None;
    }
    let end = 8 + words::word_at(s, 0, 4) as usize;
    if s.len() < end {
        return None;
    }
    pair_in(&s[..end], at)
}

// The place after a pair; at the end the place itself.
pub fn after(pair: Option<Pair>, at: usize) -> usize
    ensures { result ≡ after_pair pair at }
{
    match pair {
        Some(pair) => pair.next,
        None => at,
    }
}

// The place after the pair at a place.
pub fn next_at(s: &[u8], at: usize) -> usize
    ensures { result ≡ next_at s.now at }
{
    after(pair_at(s, at), at)
}

// The place of the first INFO pair, where a walker over a record starts, or reading's refusal. `new` makes the walker of it.
#[tactic(auto, unfolding(crate::specs::Walk::opened))]
pub fn opening_of(s: &[u8], facts: Facts) -> Result<usize, Refusal>
    ensures { result ≡ opened facts s.now }
{
    let Reading { site, .. } = record::read(s, facts)?;
    let Found { stop, .. } = fetch::field_of(s, site, Kind::Filter, 0)?;
    Ok(stop)
}

// The walker of a lent record that stands at a place.
pub fn new<'a>(s: &'a [u8], at: usize) -> Walker<'a>
    ensures { result ≡ walker s.entry at }
{
    Walker { bytes: s, at }
}

// The pair that the walker stands at.
pub fn peek<'a>(w: Walker<'a>) -> Option<Pair>
    ensures { result ≡ pair_at w.entry.bytes.now w.entry.at }
{
    pair_at(w.bytes, w.at)
}

// The walker past the pair that it stands at; at the end it stays.
pub fn moved<'a>(w: Walker<'a>) -> Walker<'a>
    ensures { result ≡ moved_on w.entry }
{
    Walker {
        bytes: w.bytes,
        at: next_at(w.bytes, w.at),
    }
}

// The walker past a pair that is known: nothing is decoded again.
pub fn advance<'a>(w: Walker<'a>, p: Option<Pair>) -> Walker<'a>
    ensures { result ≡ advanced w.entry p }
{
    Walker {
        bytes: w.bytes,
        at: after(p, w.at),
    }
}

// The pair that the walker stands at; the walker is lent, and moves on past it.
pub fn next<'s, 'a>(w: &'s mut Walker<'a>) -> Option<Pair>
    ensures { (result ≡ pair_at w.old.bytes.now w.old.at) × (w.new ≡ moved_on w.old) }
{
    let at = w.at;
    let p = pair_at(w.bytes, at);
    w.at = after(p, at);
    p
}
