// Typed values: the descriptor, the key and the value that stand at a place of a block.
// A block is lent up to its end, so the end of the slice is the end of the block. Rests on types and words.
#![tactic(auto)]

ghost use Rattle.std.specs.Prelude.{◌≡◌, ◌+◌, ◌*◌, ◌≤◌, leb, drop, length};
ghost use Rattle.values.specs.Answers.{refusal_of, IntegerInside, DescriptorInside, ValueInside};
ghost use Rattle.values.specs.Values.{integer, true_length, keyed, may_stand, described, present};

use types::Use;

// Why something is refused: 01's number, and the place, a byte offset.
#[derive(Clone, Copy, Debug, PartialEq, Eq)]
pub struct Refusal {
    pub number: u32,
    pub place: usize,
}

// One integer with a descriptor of its own: the 32 bits that it is shown by, and the place after it.
#[derive(Clone, Copy, Debug, PartialEq, Eq)]
pub struct Integer {
    pub bits: u32,
    pub next: usize,
}

// A descriptor: the type, the length and the place of the first element. A bare 00 is a type of its own, 0, of length 0.
#[derive(Clone, Copy, Debug, PartialEq, Eq)]
pub struct Descriptor {
    pub code: u8,
    pub len: u32,
    pub first: usize,
}

// A value with all its elements: what its descriptor says, and the place after the last element.
#[derive(Clone, Copy, Debug, PartialEq, Eq)]
pub struct Value {
    pub code: u8,
    pub len: u32,
    pub first: usize,
    pub stop: usize,
}

// The refusal that an answer says, whatever was asked for; number 0 where it says none.
pub fn refusal_of<T: Drop>(answer: Result<T, Refusal>) -> Refusal
    ensures { result ≡ refusal_of answer }
{
    match answer {
        Ok(_) => Refusal {
            number: 0,
            place: 0,
        },
        Err(r) => r,
    }
}

// One integer with a descriptor of its own, 11, 12 or 13, as a key and a true length are: its bits and the place after it; or 3, 6, 3 in this order.
pub fn integer_at(block: &[u8], at: usize) -> Result<Integer, Refusal>
    ensures value { result ≡ integer at (drop at block.now) }
    ensures integer_inside { IntegerInside at (length block.now) result }
{
    if block.len() <= at {
        return Err(Refusal {
            number: 3,
            place: at,
        });
    }
    let d = block[at];
    let code = d % 16;
    let row = types::row_of(code);
    if types::allows(row, Use::Integer) {
        if d / 16 == 1 {
            let first = at + 1;
            let rest = block.len() - first;
            let w = row.width as usize;
            if rest < w {
                return Err(Refusal {
                    number: 3,
                    place: first + rest,
                });
            }
            let stop = first + w;
            let bits = types::shown_bits(code, words::word(&block[first..stop]));
            return Ok(Integer { bits, next: stop });
        }
        return Err(Refusal {
            number: 6,
            place: at,
        });
    }
    Err(Refusal {
        number: 6,
        place: at,
    })
}

// The true length at a place: one integer of 15 or more. A negative number, so each mark too, is below 15.
#[tactic(auto, unfolding(crate::specs::Values::true_length))]
fn true_length(block: &[u8], at: usize) -> Result<Integer, Refusal>
    ensures value { result ≡ true_length at (drop at block.now) }
    ensures integer_inside { IntegerInside at (length block.now) result }
{
    let Integer { bits, next } = integer_at(block, at)?;
    if bits < 15 {
        return Err(Refusal {
            number: 7,
            place: at,
        });
    }
    if 0x80000000 <= bits {
        return Err(Refusal {
            number: 7,
            place: at,
        });
    }
    Ok(Integer { bits, next })
}

// The key at a place: one integer, an offset below the dictionary's size; or the integer's refusals, or 8 at the element.
#[tactic(auto, unfolding(crate::specs::Values::keyed))]
pub fn key_at(block: &[u8], at: usize, strings: u32) -> Result<Integer, Refusal>
    ensures value { result ≡ keyed strings at (drop at block.now) }
    ensures integer_inside { IntegerInside at (length block.now) result }
{
    let Integer { bits, next } = integer_at(block, at)?;
    if words::is_outside(strings, bits) {
        return Err(Refusal {
            number: 8,
            place: at + 1,
        });
    }
    Ok(Integer { bits, next })
}

// Whether a descriptor's low and high half may stand at a use. Type 0 has no length but 0: it is a bare 00.
fn may_stand(role: Use, code: u8, n: u8) -> bool
    ensures { result ≡ may_stand role code n }
{
    if types::allows(types::row_of(code), role) {
        if code == 0 {
            return n == 0;
        }
        return true;
    }
    false
}

// The descriptor at a place, for a use: type, length and the place of the first element; or 3, 6, and of a true length 3, 6, 3, 7. A bare 00 is
// type 0, length 0 and the place just after it.
#[tactic(auto, unfolding(crate::specs::Values::described))]
pub fn descriptor_at(block: &[u8], at: usize, role: Use) -> Result<Descriptor, Refusal>
    ensures value { result ≡ described role at (drop at block.now) }
    ensures descriptor_inside { DescriptorInside at (length block.now) result }
{
    if block.len() <= at {
        return Err(Refusal {
            number: 3,
            place: at,
        });
    }
    let d = block[at];
    let code = d % 16;
    let n = d / 16;
    if may_stand(role, code, n) {
        if n < 15 {
            return Ok(Descriptor {
                code,
                len: n as u32,
                first: at + 1,
            });
        }
        let Integer { bits, next } = true_length(block, at + 1)?;
        return Ok(Descriptor {
            code,
            len: bits,
            first: next,
        });
    }
    Err(Refusal {
        number: 6,
        place: at,
    })
}

// Whether `count` elements of `w` bytes fit between two places. Divided, so that no product passes 64 bits.
pub fn elements_fit(first: usize, count: usize, w: usize, end: usize) -> bool
    ensures { result ≡ leb (first + count * w) end }
{
    if end < first {
        return false;
    }
    if 0 < w {
        return count <= (end - first) / w;
    }
    true
}

// The value at a place with its elements, as many for each of `vectors` people (1 where there are none): the descriptor's answer and the place
// after the last element; or 3 at the block's end.
#[tactic(auto, unfolding(crate::specs::Values::present))]
pub fn value_at(block: &[u8], at: usize, role: Use, vectors: u32) -> Result<Value, Refusal>
    ensures value { result ≡ present vectors role at (drop at block.now) }
    ensures value_inside { ValueInside at (length block.now) result }
{
    let Descriptor { code, len, first } = descriptor_at(block, at, role)?;
    let end = block.len();
    let count = vectors as usize * len as usize;
    let row = types::row_of(code);
    let w = row.width as usize;
    if elements_fit(first, count, w, end) {
        return Ok(Value {
            code,
            len,
            first,
            stop: first + count * w,
        });
    }
    Err(Refusal {
        number: 3,
        place: end,
    })
}
