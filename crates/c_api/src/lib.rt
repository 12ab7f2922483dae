// The functions that other languages call, by the C calling convention: numbers and lent slices in, one u64 out. Its high half is the number of
// a refusal; its low half is the refusal's place or, with number 0, a length. A refusal writes nothing. Rests on c_answers for answers and on
// c_state for the state of a build; the format's rules are in the crates below.
#![tactic(auto)]

ghost use Rattle.std.specs.Prelude.{◌≡◌, map, length};
ghost use Rattle.std.specs.Int.{w32};
ghost use Rattle.std.proofs.Common.{of_z};
ghost use Rattle.positions.specs.Positions.{pos_of, one_based};
ghost use Rattle.record.specs.Reading.{reading};
ghost use Rattle.shown.specs.Shown.{integers, floats, text};
ghost use Rattle.fetch.specs.Fetch.{found, field_of};
ghost use Rattle.elements.specs.Elements.{element_at};
ghost use Rattle.tally.specs.Tally.{tallied};
ghost use Rattle.choose.specs.Choose.{choosing, after_choosing};
ghost use Rattle.vcf_line.specs.Line.{names_in, line_answer, after_line};
ghost use Rattle.walker.specs.Walk.{opened, pair_at};
ghost use Rattle.build.specs.Turns.{begun, after_begin, id_given, after_id, allele_given, after_allele, filter_given, after_filter, info_given, after_info, format_given, after_format, built, after_end};
ghost use Rattle.c_answers.specs.Told.{site_told, reading_answer, reading_numbers, found_answer, found_numbers, pair_answer, pair_numbers, opening_answer, shown_answer, tallied_answer, tallied_numbers, choosing_answer, line_number};
ghost use Rattle.c_state.specs.Kept.{state_of, turn_answer, turn_numbers, fresh_answer, fresh_numbers};
ghost use Rattle.c_api.specs.Given.{facts_given, kind_given, number_given};

use facts::Facts;
use fetch::Kind;
use positions::BcfPosition;

// The kind of a number.
#[tactic(auto, unfolding(crate::specs::Given::kind_given))]
fn kind_given(kind: u32) -> Kind
    ensures { result ≡ kind_given kind }
{
    match kind {
        1 => Kind::Allele,
        2 => Kind::Filter,
        3 => Kind::Info,
        4 => Kind::Format,
        _ => Kind::Id,
    }
}

// The number to look for: that of no field for a kind outside the five.
fn number_given(kind: u32, number: u32) -> u32
    ensures { result ≡ number_given kind number }
{
    if 4 < kind {
        return 1;
    }
    number
}

// Reads the record at the start of a slice: its length; `out` gets 13 numbers.
#[unsafe(no_mangle)]
pub extern "C" fn sikalumdo_read(
    s: &[u8],
    strings: u32,
    contigs: u32,
    people: u32,
    gt: u32,
    out: &mut [u64],
) -> u64
    ensures told { result ≡ reading_answer (length out.old) (reading (facts_given strings contigs people gt) s.now) }
    ensures written { out.new ≡ reading_numbers out.old (reading (facts_given strings contigs people gt) s.now) }
{
    let facts = Facts {
        strings,
        contigs,
        people,
        gt,
    };
    c_answers::tell_reading(record::read(s, facts), out)
}

// The VCF position of a record, by POS as reading told it: one more, since VCF counts the first base as 1.
#[unsafe(no_mangle)]
pub extern "C" fn sikalumdo_vcf_pos(pos: u32) -> i32
    ensures { result ≡ one_based (pos_of pos).0 }
{
    let p = positions::to_vcf(positions::from_bits(pos));
    p.0
}

// Fetches the field of a kind and a number: the length of its elements' bytes; `out` gets 5 numbers. A kind outside the five has no field.
#[unsafe(no_mangle)]
pub extern "C" fn sikalumdo_fetch(
    s: &[u8],
    strings: u32,
    contigs: u32,
    people: u32,
    gt: u32,
    kind: u32,
    number: u32,
    out: &mut [u64],
) -> u64
    ensures told { result ≡ found_answer (length out.old) (found (facts_given strings contigs people gt) (kind_given kind) (number_given kind number) s.now) }
    ensures written { out.new ≡ found_numbers out.old (found (facts_given strings contigs people gt) (kind_given kind) (number_given kind number) s.now) }
{
    let facts = Facts {
        strings,
        contigs,
        people,
        gt,
    };
    let f = fetch::find(s, facts, kind_given(kind), number_given(kind, number));
    c_answers::tell_found(f, out)
}

// Fetches from a record that was read, by the numbers that reading told: the record is not read again. A kind outside the five has no field.
#[unsafe(no_mangle)]
pub extern "C" fn sikalumdo_field_of(
    s: &[u8],
    site: &[u64],
    kind: u32,
    number: u32,
    out: &mut [u64],
) -> u64
    ensures told { result ≡ found_answer (length out.old) (field_of (kind_given kind) (number_given kind number) (site_told site.now) s.now) }
    ensures written { out.new ≡ found_numbers out.old (field_of (kind_given kind) (number_given kind number) (site_told site.now) s.now) }
{
    let f = fetch::field_of(
        s,
        c_answers::site_told(site),
        kind_given(kind),
        number_given(kind, number),
    );
    c_answers::tell_found(f, out)
}

// Shows an element of a fetched part by its 32 bits; 16 past the last one.
#[unsafe(no_mangle)]
pub extern "C" fn sikalumdo_shown(part: &[u8], code: u8, index: usize) -> u64
    ensures { result ≡ shown_answer (element_at code index part.now) }
{
    c_answers::tell_shown(elements::element_at(part, code, index))
}

// Tallies the record at the start of a slice: its length; `out` gets 68 numbers.
#[unsafe(no_mangle)]
pub extern "C" fn sikalumdo_tally(
    s: &[u8],
    strings: u32,
    contigs: u32,
    people: u32,
    gt: u32,
    out: &mut [u64],
) -> u64
    ensures told { result ≡ tallied_answer (length out.old) (tallied (facts_given strings contigs people gt) s.now) }
    ensures written { out.new ≡ tallied_numbers out.old (tallied (facts_given strings contigs people gt) s.now) }
{
    let facts = Facts {
        strings,
        contigs,
        people,
        gt,
    };
    c_answers::tell_tally(tally::tally(s, facts), out)
}

// Chooses people: the chosen record's length, or the refusal; `buf` gets its bytes.
#[unsafe(no_mangle)]
pub extern "C" fn sikalumdo_choose(
    s: &[u8],
    strings: u32,
    contigs: u32,
    people: u32,
    gt: u32,
    choice: &[u32],
    buf: &mut [u8],
) -> u64
    ensures told { result ≡ choosing_answer (choosing (facts_given strings contigs people gt) choice.now (length buf.old) s.now) }
    ensures written { buf.new ≡ after_choosing (facts_given strings contigs people gt) choice.now buf.old s.now }
{
    let facts = Facts {
        strings,
        contigs,
        people,
        gt,
    };
    c_answers::tell_one(choose::choose(s, facts, choice, buf))
}

// Writes one VCF data line of the record at the start of a slice into `buf`: the line's length. Names are lent as one text and the ends of the names in it.
#[unsafe(no_mangle)]
pub extern "C" fn sikalumdo_vcf_line(
    s: &[u8],
    strings: u32,
    contigs: u32,
    people: u32,
    gt: u32,
    string_text: &[u8],
    string_ends: &[u32],
    contig_text: &[u8],
    contig_ends: &[u32],
    buf: &mut [u8],
) -> u64
    ensures told { result ≡ line_number (line_answer (facts_given strings contigs people gt) (names_in string_text.now string_ends.now) (names_in contig_text.now contig_ends.now) (length buf.old) s.now) }
    ensures written { buf.new ≡ after_line (facts_given strings contigs people gt) (names_in string_text.now string_ends.now) (names_in contig_text.now contig_ends.now) buf.old s.now }
{
    let facts = Facts {
        strings,
        contigs,
        people,
        gt,
    };
    c_answers::tell_one(vcf_line::write_line(
        s,
        facts,
        string_text,
        string_ends,
        contig_text,
        contig_ends,
        buf,
    ))
}

// Opens the walk of the INFO pairs: the place of the first one, or reading's refusal.
#[unsafe(no_mangle)]
pub extern "C" fn sikalumdo_first_pair(
    s: &[u8],
    strings: u32,
    contigs: u32,
    people: u32,
    gt: u32,
) -> u64
    ensures { result ≡ opening_answer (opened (facts_given strings contigs people gt) s.now) }
{
    let facts = Facts {
        strings,
        contigs,
        people,
        gt,
    };
    c_answers::tell_one(walker::opening_of(s, facts))
}

// The INFO pair at a place: the length of its elements' bytes; `out` gets 5 numbers, the last of them the next pair's place. 16 at the end.
#[unsafe(no_mangle)]
pub extern "C" fn sikalumdo_pair(s: &[u8], at: usize, out: &mut [u64]) -> u64
    ensures told { result ≡ pair_answer (length out.old) (pair_at s.now at) }
    ensures written { out.new ≡ pair_numbers out.old (pair_at s.now at) }
{
    c_answers::tell_pair(walker::pair_at(s, at), out)
}

// Makes a fresh state in 266 numbers; 13 for fewer.
#[unsafe(no_mangle)]
pub extern "C" fn sikalumdo_fresh(state: &mut [u32]) -> u64
    ensures told { result ≡ fresh_answer (length state.old) }
    ensures written { state.new ≡ fresh_numbers state.old }
{
    c_state::put_fresh(state)
}

// Begin: the bytes written so far, as every turn tells.
#[unsafe(no_mangle)]
pub extern "C" fn sikalumdo_begin(
    state: &mut [u32],
    buf: &mut [u8],
    strings: u32,
    contigs: u32,
    people: u32,
    gt: u32,
    chrom: i32,
    pos: i32,
    rlen: i32,
    qual: u32,
) -> u64
    ensures told { result ≡ turn_answer (begun (state_of state.old) (length buf.old) (facts_given strings contigs people gt) (of_z w32 chrom) (of_z w32 pos) (of_z w32 rlen) qual) }
    ensures kept { state.new ≡ turn_numbers state.old (begun (state_of state.old) (length buf.old) (facts_given strings contigs people gt) (of_z w32 chrom) (of_z w32 pos) (of_z w32 rlen) qual) }
    ensures written { buf.new ≡ after_begin (state_of state.old) buf.old (facts_given strings contigs people gt) (of_z w32 chrom) (of_z w32 pos) (of_z w32 rlen) qual }
{
    let facts = Facts {
        strings,
        contigs,
        people,
        gt,
    };
    let at = BcfPosition(pos);
    let t = build::begin(c_state::state_of(state), buf, facts, chrom, at, rlen, qual);
    c_state::keep(state, t)
}

// ID: any text.
#[unsafe(no_mangle)]
pub extern "C" fn sikalumdo_id(state: &mut [u32], buf: &mut [u8], text: &[u8]) -> u64
    ensures told { result ≡ turn_answer (id_given (state_of state.old) (length buf.old) text.now) }
    ensures kept { state.new ≡ turn_numbers state.old (id_given (state_of state.old) (length buf.old) text.now) }
    ensures written { buf.new ≡ after_id (state_of state.old) buf.old text.now }
{
    let t = build::id(c_state::state_of(state), buf, text);
    c_state::keep(state, t)
}

// One allele, the first of them the reference.
#[unsafe(no_mangle)]
pub extern "C" fn sikalumdo_allele(state: &mut [u32], buf: &mut [u8], text: &[u8]) -> u64
    ensures told { result ≡ turn_answer (allele_given (state_of state.old) (length buf.old) text.now) }
    ensures kept { state.new ≡ turn_numbers state.old (allele_given (state_of state.old) (length buf.old) text.now) }
    ensures written { buf.new ≡ after_allele (state_of state.old) buf.old text.now }
{
    let t = build::allele(c_state::state_of(state), buf, text);
    c_state::keep(state, t)
}

// FILTER: offsets into the dictionary.
#[unsafe(no_mangle)]
pub extern "C" fn sikalumdo_filter(state: &mut [u32], buf: &mut [u8], offsets: &[i32]) -> u64
    ensures told { result ≡ turn_answer (filter_given (state_of state.old) (length buf.old) (map (of_z w32) offsets.now)) }
    ensures kept { state.new ≡ turn_numbers state.old (filter_given (state_of state.old) (length buf.old) (map (of_z w32) offsets.now)) }
    ensures written { buf.new ≡ after_filter (state_of state.old) buf.old (map (of_z w32) offsets.now) }
{
    let t = build::filter(c_state::state_of(state), buf, offsets);
    c_state::keep(state, t)
}

// An INFO field of integers.
#[unsafe(no_mangle)]
pub extern "C" fn sikalumdo_info_integers(
    state: &mut [u32],
    buf: &mut [u8],
    key: i32,
    values: &[i32],
) -> u64
    ensures told { result ≡ turn_answer (info_given (state_of state.old) (length buf.old) (of_z w32 key) integers (map (of_z w32) values.now)) }
    ensures kept { state.new ≡ turn_numbers state.old (info_given (state_of state.old) (length buf.old) (of_z w32 key) integers (map (of_z w32) values.now)) }
    ensures written { buf.new ≡ after_info (state_of state.old) buf.old (of_z w32 key) integers (map (of_z w32) values.now) }
{
    let t = build::info_integers(c_state::state_of(state), buf, key, values);
    c_state::keep(state, t)
}

// An INFO field of floats.
#[unsafe(no_mangle)]
pub extern "C" fn sikalumdo_info_floats(
    state: &mut [u32],
    buf: &mut [u8],
    key: i32,
    bits: &[u32],
) -> u64
    ensures told { result ≡ turn_answer (info_given (state_of state.old) (length buf.old) (of_z w32 key) floats bits.now) }
    ensures kept { state.new ≡ turn_numbers state.old (info_given (state_of state.old) (length buf.old) (of_z w32 key) floats bits.now) }
    ensures written { buf.new ≡ after_info (state_of state.old) buf.old (of_z w32 key) floats bits.now }
{
    let t = build::info_floats(c_state::state_of(state), buf, key, bits);
    c_state::keep(state, t)
}

// An INFO field of text.
#[unsafe(no_mangle)]
pub extern "C" fn sikalumdo_info_text(
    state: &mut [u32],
    buf: &mut [u8],
    key: i32,
    part: &[u8],
) -> u64
    ensures told { result ≡ turn_answer (info_given (state_of state.old) (length buf.old) (of_z w32 key) text part.now) }
    ensures kept { state.new ≡ turn_numbers state.old (info_given (state_of state.old) (length buf.old) (of_z w32 key) text part.now) }
    ensures written { buf.new ≡ after_info (state_of state.old) buf.old (of_z w32 key) text part.now }
{
    let t = build::info_text(c_state::state_of(state), buf, key, part);
    c_state::keep(state, t)
}

// A FORMAT field of integers: a vector of `len` for each person, one after the other.
#[unsafe(no_mangle)]
pub extern "C" fn sikalumdo_format_integers(
    state: &mut [u32],
    buf: &mut [u8],
    key: i32,
    len: u32,
    values: &[i32],
) -> u64
    ensures told { result ≡ turn_answer (format_given (state_of state.old) (length buf.old) (of_z w32 key) integers len (map (of_z w32) values.now)) }
    ensures kept { state.new ≡ turn_numbers state.old (format_given (state_of state.old) (length buf.old) (of_z w32 key) integers len (map (of_z w32) values.now)) }
    ensures written { buf.new ≡ after_format (state_of state.old) buf.old (of_z w32 key) integers len (map (of_z w32) values.now) }
{
    let t = build::format_integers(c_state::state_of(state), buf, key, len, values);
    c_state::keep(state, t)
}

// A FORMAT field of floats: a vector of `len` for each person, one after the other.
#[unsafe(no_mangle)]
pub extern "C" fn sikalumdo_format_floats(
    state: &mut [u32],
    buf: &mut [u8],
    key: i32,
    len: u32,
    bits: &[u32],
) -> u64
    ensures told { result ≡ turn_answer (format_given (state_of state.old) (length buf.old) (of_z w32 key) floats len bits.now) }
    ensures kept { state.new ≡ turn_numbers state.old (format_given (state_of state.old) (length buf.old) (of_z w32 key) floats len bits.now) }
    ensures written { buf.new ≡ after_format (state_of state.old) buf.old (of_z w32 key) floats len bits.now }
{
    let t = build::format_floats(c_state::state_of(state), buf, key, len, bits);
    c_state::keep(state, t)
}

// A FORMAT field of text: a vector of `len` for each person, one after the other.
#[unsafe(no_mangle)]
pub extern "C" fn sikalumdo_format_text(
    state: &mut [u32],
    buf: &mut [u8],
    key: i32,
    len: u32,
    part: &[u8],
) -> u64
    ensures told { result ≡ turn_answer (format_given (state_of state.old) (length buf.old) (of_z w32 key) text len part.now) }
    ensures kept { state.new ≡ turn_numbers state.old (format_given (state_of state.old) (length buf.old) (of_z w32 key) text len part.now) }
    ensures written { buf.new ≡ after_format (state_of state.old) buf.old (of_z w32 key) text len part.now }
{
    let t = build::format_text(c_state::state_of(state), buf, key, len, part);
    c_state::keep(state, t)
}

// End: the record's length.
#[unsafe(no_mangle)]
pub extern "C" fn sikalumdo_end(state: &mut [u32], buf: &mut [u8]) -> u64
    ensures told { result ≡ turn_answer (built (state_of state.old) (length buf.old)) }
    ensures kept { state.new ≡ turn_numbers state.old (built (state_of state.old) (length buf.old)) }
    ensures written { buf.new ≡ after_end (state_of state.old) buf.old }
{
    let t = build::end(c_state::state_of(state), buf);
    c_state::keep(state, t)
}
