// The building example: builds 01's sample record turn by turn, prints its bytes in hexadecimal capitals, and reads that text back.
// Everything that is said of a turn is build's and everything that is said of a line is frames'; this moves bytes.
#![tactic(auto)]

use build::{Builder, Turned};
use facts::Facts;
use positions::BcfPosition;
use std::io::Write;

// Whether a turn was taken.
fn is_taken(turned: Turned) -> bool {
    turned.answer.is_ok()
}

// The turns up to the last allele, or to the first that is refused.
fn first_turns(facts: Facts, buf: &mut [u8]) -> Turned {
    let fresh = build::fresh();
    let begun = build::begin(fresh, buf, facts, 0, BcfPosition(14369), 1, 0x41E80000);
    if !is_taken(begun) {
        return begun;
    }
    let state = begun.state;
    let named = build::id(state, buf, b"");
    if !is_taken(named) {
        return named;
    }
    let state = named.state;
    let one = build::allele(state, buf, b"G");
    if !is_taken(one) {
        return one;
    }
    let state = one.state;
    build::allele(state, buf, b"A")
}

// The turns from FILTER to the end, or to the first that is refused.
fn last_turns(state: Builder, buf: &mut [u8]) -> Turned {
    let filters = [0i32];
    let filtered = build::filter(state, buf, &filters);
    if !is_taken(filtered) {
        return filtered;
    }
    let depth = [14i32];
    let state = filtered.state;
    let info = build::info_integers(state, buf, 2, &depth);
    if !is_taken(info) {
        return info;
    }
    let calls = [2i32, 3, 4, -2147483647];
    let state = info.state;
    let format = build::format_integers(state, buf, 3, 2, &calls);
    if !is_taken(format) {
        return format;
    }
    let state = format.state;
    build::end(state, buf)
}

// All the turns, or those to the first that is refused.
fn all_turns(facts: Facts, buf: &mut [u8]) -> Turned {
    let begun = first_turns(facts, buf);
    if !is_taken(begun) {
        return begun;
    }
    let state = begun.state;
    last_turns(state, buf)
}

// Prints the answer to a record's line.
fn print_answer<W: Write>(
    output: &mut W,
    line: &[u8],
    facts: Facts,
    frame: &mut [u8],
    out: &mut [u8],
) {
    if let Some(n) = frames::answer_line(line, facts, frame, out) {
        let _ = output.write_all(&out[..n]);
    }
}

// Prints a record's bytes as a line, then the answer to that line.
fn print_record<W: Write>(
    output: &mut W,
    part: &[u8],
    facts: Facts,
    line: &mut [u8],
    frame: &mut [u8],
    out: &mut [u8],
) {
    let size = part.len();
    if line.len() / 2 < size {
        return;
    }
    capitals::put_capitals(line, 0, part);
    let _ = output.write_all(&line[..size * 2]);
    let _ = output.write_all(b"\n");
    print_answer(output, &line[..size * 2], facts, frame, out);
}

fn main(rt: HostRuntime) {
    let mut output = rt.stdout();
    let mut buf = [0u8; 64];
    let mut line = [0u8; 128];
    let mut frame = [0u8; 64];
    let mut out = [0u8; 2048];
    let facts = Facts {
        strings: 4,
        contigs: 1,
        people: 2,
        gt: 3,
    };
    let last = all_turns(facts, &mut buf);
    let n = last.state.at as usize;
    if !is_taken(last) {
        let _ = output.write_all(b"refused\n");
        return;
    }
    if 64 < n {
        return;
    }
    print_record(
        &mut output,
        &buf[..n],
        facts,
        &mut line,
        &mut frame,
        &mut out,
    );
}
