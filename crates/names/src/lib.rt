// Names lent as one text and a list of ends, and text that stops at its first zero byte: each comes back as a part of what was lent.
// Rests on words' way of choosing.
#![tactic(auto)]

ghost use Rattle.std.specs.Prelude.{◌≡◌, ◌+◌, length, get_or};
ghost use Rattle.names.specs.Names.{before_zero, begin_of, name_of, name_at};

// A text up to its first zero byte, as that very part.
#[tactic(auto, using(crate::proofs::Names::take_before, crate::proofs::Names::before_inside))]
pub fn before_zero(text: &[u8]) -> &[u8]
    ensures result_value { result.now ≡ before_zero text.now }
    ensures ref_ptr_value { result.ref_ptr ≡ text.entry.ref_ptr }
{
    let n = zero_at(text);
    &text[..n]
}

// How many bytes of a text stand before its first zero byte.
fn zero_at(text: &[u8]) -> usize
    ensures { result ≡ length (before_zero text.now) }
{
    text.iter().position(|b| *b == 0).unwrap_or(text.len())
}

// Where a name ends, as it was lent; 0 past the list.
fn end_of(ends: &[u32], i: u32) -> usize
    ensures { result ≡ get_or ends.now i 0 }
{
    ends.get(i as usize).map_or(0, |end| *end as usize)
}

// Where a name begins.
#[tactic(auto, using(crate::proofs::Names::begin_after))]
fn begin_of(ends: &[u32], i: u32) -> usize
    ensures { result ≡ begin_of ends.now i }
{
    if i == 0 {
        return 0;
    }
    end_of(ends, i - 1)
}

// The name of a number, as that very part of the text; an empty part where there is none.
#[tactic(auto, using(crate::proofs::Names::name_is), unfolding(crate::specs::Names::name_at))]
pub fn name_at<'a, 'b>(text: &'a [u8], ends: &'b [u32], i: u32) -> &'a [u8]
    ensures result_value { result.now ≡ name_of text.now ends.now i }
    ensures ref_ptr_value { result.ref_ptr ≡ (text.entry.ref_ptr.0, name_at text.now ends.now i + text.entry.ref_ptr.1) }
{
    let begin = begin_of(ends, i).min(text.len());
    let end = end_of(ends, i).min(text.len()).max(begin);
    before_zero(&text[begin..end])
}
