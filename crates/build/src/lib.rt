// Building a record, turn by turn: begin, ID, one or more alleles, FILTER, INFO fields, FORMAT fields, end, over a lent buffer and a state
// that goes in by value and comes back by value. Rests on build_rules for what is wrong with a turn and on build_append and
// build_front for what is written.
#![tactic(auto)]

ghost use Rattle.std.specs.Prelude.{map, ◌≡◌, ◌+◌, ◌<◌, ◌≤◌, ℕ, eqb, length};
ghost use Rattle.std.specs.Int.{w32};
ghost use Rattle.std.proofs.Common.{of_z, rules};
ghost use Rattle.words.specs.Pick.{pick};
ghost use Rattle.positions.specs.Positions.{pos_bits};
ghost use Rattle.fixed.specs.Layout.{most_bytes};
ghost use Rattle.vectors.specs.Sound.{most_of};
ghost use Rattle.genotypes.specs.Formats.{role_of};
ghost use Rattle.shown.specs.Shown.{Kind, integers, floats, text, is_integers};
ghost use Rattle.build_append.specs.Append.{field_bytes, written, written_to};
ghost use Rattle.build.specs.Values.{any, given_number};
ghost use Rattle.build.specs.Order.{rank, turned};
ghost use Rattle.build.specs.Turns.{in_site, in_genotypes, id_given, after_id, allele_given, after_allele, filter_given, after_filter, info_given, after_info, format_given, after_format, fresh_state, begun_state, begun, after_begin, info_key, format_front, built, after_end};

use build_append::{Field, Written, first_of};
use facts::Facts;
use positions::BcfPosition;
use values::Refusal;

// The last turn that was taken.
#[derive(Clone, Copy, Debug, PartialEq, Eq)]
pub enum Stage {
    Fresh,
    Begun,
    Named,
    Alleles,
    Filtered,
    Infos,
    Formats,
    Ended,
}

// A build as far as it is: the header's facts, the bytes written, where the genotype block begins, the counts, and the FORMAT keys.
#[derive(Clone, Copy, Debug, PartialEq, Eq)]
pub struct Builder {
    pub facts: Facts,
    pub at: u32,
    pub border: u32,
    pub alleles: u16,
    pub infos: u16,
    pub formats: u8,
    pub stage: Stage,
    pub keys: [u32; 256],
}

// A turn's answer, and the state after it: that before it where it was refused.
#[derive(Clone, Copy, Debug, PartialEq, Eq)]
pub struct Turned {
    pub state: Builder,
    pub answer: Result<(), Refusal>,
}

// How far a build is: 0 for a fresh one, 7 for an ended one.
pub fn rank_of(stage: Stage) -> u8
    ensures { result ≡ rank stage }
{
    match stage {
        Stage::Fresh => 0,
        Stage::Begun => 1,
        Stage::Named => 2,
        Stage::Alleles => 3,
        Stage::Filtered => 4,
        Stage::Infos => 5,
        Stage::Formats => 6,
        Stage::Ended => 7,
    }
}

// A state before the first turn.
#[tactic(auto, unfolding(crate::specs::Turns::fresh_state))]
pub fn fresh() -> Builder
    ensures { result ≡ fresh_state }
{
    Builder {
        facts: Facts {
            strings: 0,
            contigs: 0,
            people: 0,
            gt: 0,
        },
        at: 0,
        border: 0,
        alleles: 0,
        infos: 0,
        formats: 0,
        stage: Stage::Fresh,
        keys: [0u32; 256],
    }
}

// A turn's answer: taken with number 0, else refused with the state as it was.
#[tactic(auto, unfolding(crate::specs::Order::turned))]
fn answered(state: Builder, number: u32, next: Builder) -> Turned
    ensures { result ≡ turned state number next }
{
    if number == 0 {
        return Turned {
            state: next,
            answer: Ok(()),
        };
    }
    Turned {
        state,
        answer: Err(Refusal { number, place: 0 }),
    }
}

// The state after begin.
#[tactic(auto, unfolding(crate::specs::Turns::fresh_state))]
fn begun_state(facts: Facts) -> Builder
    ensures { result ≡ begun_state facts }
{
    Builder {
        facts,
        at: fixed::ID as u32,
        border: fixed::ID as u32,
        stage: Stage::Begun,
        ..fresh()
    }
}

// Begin: CHROM and rlen as numbers, POS as the zero-based position that it is, QUAL as float bits. Writes the first 32 bytes, with lengths and counts 0; or 12, where the state is not
// fresh, 5, 13.
#[tactic(auto, using(crate::proofs::Numbers::turned_refused), unfolding(crate::specs::Turns::begin_number, crate::specs::Turns::begun, crate::specs::Turns::after_begin))]
pub fn begin(
    state: Builder,
    buf: &mut [u8],
    facts: Facts,
    chrom: i32,
    pos: BcfPosition,
    rlen: i32,
    qual: u32,
) -> Turned
    ensures told { result ≡ begun state (length buf.old) facts (of_z w32 chrom) (pos_bits pos) (of_z w32 rlen) qual }
    ensures written { buf.new ≡ after_begin state buf.old facts (of_z w32 chrom) (pos_bits pos) (of_z w32 rlen) qual }
{
    let c = words::bits(chrom);
    let p = positions::to_bits(pos);
    let l = words::bits(rlen);
    let rank = rank_of(state.stage);
    let number = build_rules::begin_number(rank, buf.len(), facts, c, p, l, qual);
    if number == 0 {
        build_front::put_front(buf, c, p, l, qual);
        return answered(state, number, begun_state(facts));
    }
    answered(state, number, state)
}

// End: fills in both block lengths and both count fields; or 12, 13. Nothing is taken after it.
#[tactic(auto, using(build_rules::proofs::Numbers::end_room, crate::proofs::Numbers::turned_refused), unfolding(crate::specs::Turns::end_number, crate::specs::Turns::built, crate::specs::Turns::after_end, crate::specs::Turns::filled_in))]
pub fn end(state: Builder, buf: &mut [u8]) -> Turned
    ensures told { result ≡ built state (length buf.old) }
    ensures written { buf.new ≡ after_end state buf.old }
{
    let number = build_rules::end_number(rank_of(state.stage), buf.len());
    if number == 0 {
        build_front::fill_in(
            buf,
            state.border,
            state.at,
            state.alleles,
            state.infos,
            state.formats,
            state.facts.people,
        );
        let next = Builder {
            stage: Stage::Ended,
            ..state
        };
        return answered(state, number, next);
    }
    answered(state, number, state)
}

// A site turn's answer, with so many alleles and INFO fields more.
#[tactic(auto, using(crate::proofs::Numbers::turned_refused))]
fn site_turn(state: Builder, done: Written, stage: Stage, alleles: u16, infos: u16) -> Turned
    requires { done.number ≡ 0 → (state.at + done.size ≤ most_bytes) × (state.alleles + alleles < 65536) × (state.infos + infos < 65536) }
    ensures { result ≡ turned state done.number (in_site state stage (state.alleles + alleles) (state.infos + infos) done.size) }
{
    let number = done.number;
    if number == 0 {
        let stop = state.at + done.size as u32;
        let next = Builder {
            at: stop,
            border: stop,
            alleles: state.alleles + alleles,
            infos: state.infos + infos,
            stage,
            ..state
        };
        return answered(state, number, next);
    }
    answered(state, number, state)
}

// The state after one more FORMAT field, of so many bytes.
fn with_format(state: Builder, key: u32, size: usize) -> Builder
    requires { (state.at + size ≤ most_bytes) × (state.formats < 255) }
    ensures { result ≡ in_genotypes state key size }
{
    let mut keys = state.keys;
    keys[usize::from(state.formats)] = key;
    Builder {
        at: state.at + size as u32,
        formats: state.formats + 1,
        stage: Stage::Formats,
        keys,
        ..state
    }
}

// A FORMAT turn's answer.
#[tactic(auto, using(crate::proofs::Numbers::turned_refused))]
fn format_turn(state: Builder, done: Written, key: u32) -> Turned
    requires { done.number ≡ 0 → (state.at + done.size ≤ most_bytes) × (state.formats < 255) }
    ensures { result ≡ turned state done.number (in_genotypes state key done.size) }
{
    let number = done.number;
    if number == 0 {
        return answered(state, number, with_format(state, key, done.size));
    }
    answered(state, number, state)
}

// ID: any text, appended; or 12, 9, 2, 13.
#[tactic(auto, using(build_append::proofs::Writing::written_room), unfolding(crate::specs::Turns::id_number, crate::specs::Turns::id_given, crate::specs::Turns::after_id, crate::specs::Order::appended, crate::specs::Order::afterwards, build_append::specs::Append::written))]
pub fn id(state: Builder, buf: &mut [u8], part: &[u8]) -> Turned
    ensures told { result ≡ id_given state (length buf.old) part.now }
    ensures written { buf.new ≡ after_id state buf.old part.now }
{
    let rules = build_rules::id_number(rank_of(state.stage), part);
    let done = build_append::append_text(buf, state.at, rules, Field::Alone, part);
    site_turn(state, done, Stage::Named, 0, 0)
}

// An allele, appended: not empty, its bytes from 21 to 7E; or 12, 5, 7, 9, 2, 13.
#[tactic(auto, using(build_append::proofs::Writing::written_room, build_append::proofs::Numbers::first_zero, crate::proofs::Answers::allele_below), unfolding(crate::specs::Turns::allele_rules, crate::specs::Turns::allele_given, crate::specs::Turns::after_allele, crate::specs::Order::appended, crate::specs::Order::afterwards, build_append::specs::Append::written))]
pub fn allele(state: Builder, buf: &mut [u8], part: &[u8]) -> Turned
    ensures told { result ≡ allele_given state (length buf.old) part.now }
    ensures written { buf.new ≡ after_allele state buf.old part.now }
{
    let rules = build_rules::allele_number(rank_of(state.stage), state.alleles, part);
    let done = build_append::append_text(buf, state.at, rules, Field::Alone, part);
    site_turn(state, done, Stage::Alleles, 1, 0)
}

// FILTER, appended: offsets in the dictionary, none twice; or 12, by element 8 then 11, 2, 13.
#[tactic(auto, using(build_append::proofs::Writing::written_room), unfolding(crate::specs::Turns::filter_rules, crate::specs::Turns::filter_given, crate::specs::Turns::after_filter, crate::specs::Order::appended, crate::specs::Order::afterwards, build_append::specs::Append::written))]
pub fn filter(state: Builder, buf: &mut [u8], values: &[i32]) -> Turned
    ensures told { result ≡ filter_given state (length buf.old) (map (of_z w32) values.now) }
    ensures written { buf.new ≡ after_filter state buf.old (map (of_z w32) values.now) }
{
    let rules = build_rules::filter_number(rank_of(state.stage), state.facts.strings, values);
    let done = build_append::append_integers(buf, state.at, rules, Field::Alone, values);
    site_turn(state, done, Stage::Filtered, 0, 0)
}

// What is wrong with an INFO turn before its value is looked at.
#[tactic(auto, unfolding(crate::specs::Turns::info_key))]
fn info_key(stage: Stage, infos: u16, strings: u32, key: u32) -> u32
    ensures { result ≡ info_key stage infos strings key }
{
    build_rules::info_number(rank_of(stage), infos, strings, key)
}

// An element as a builder is given it: an integer, a float by its bits, or a byte of text. Of a value's elements this says by which type's
// rules they are judged, and how they are appended.
trait Element: Copy {
    ghost kind: { Kind };

    ghost shown: { Self → ℕ };

    // The type by whose rules elements are judged: 3 for integers.
    ghost TYPE: { ℕ };

    const TYPE: u8;

    // The number of what is wrong with vectors of `len` each. Of integers a plain one may be `most`.
    fn judge(values: &[Self], len: usize, most: u32) -> u32
        ensures { result ≡ given_number (pick (is_integers kind) most any) kind len (map shown values.now) };

    // Appends elements as a value, unless the rules or the room are against it.
    fn append(buf: &mut [u8], at: u32, rules: u32, field: Field, values: &[Self]) -> Written
        ensures told { result ≡ written at (length buf.old) rules (field_bytes field kind (map shown values.now)) }
        ensures written { buf.new ≡ written_to buf.old at rules (field_bytes field kind (map shown values.now)) };

    // Type 3 alone is integers.
    ghost whole: { eqb TYPE 3 ≡ is_integers kind };
}

impl Element for i32 {
    ghost kind = { integers };

    ghost shown = { of_z w32 };

    ghost TYPE = { 3 };

    const TYPE: u8 = 3;

    #[tactic(auto, unfolding(build_rules::specs::Values::given_number))]
    fn judge(values: &[i32], len: usize, most: u32) -> u32 {
        build_given::judge_integers(values, len, most)
    }

    fn append(buf: &mut [u8], at: u32, rules: u32, field: Field, values: &[i32]) -> Written {
        build_append::append_integers(buf, at, rules, field, values)
    }

    ghost whole = { Prim.search rules };
}

impl Element for u32 {
    ghost kind = { floats };

    ghost shown = { λ x. x };

    ghost TYPE = { 5 };

    const TYPE: u8 = 5;

    #[tactic(auto, unfolding(build_rules::specs::Values::given_number))]
    fn judge(bits: &[u32], len: usize, _most: u32) -> u32 {
        build_given::judge_floats(bits, len)
    }

    fn append(buf: &mut [u8], at: u32, rules: u32, field: Field, bits: &[u32]) -> Written {
        build_append::append_floats(buf, at, rules, field, bits)
    }

    ghost whole = { Prim.search rules };
}

impl Element for u8 {
    ghost kind = { text };

    ghost shown = { λ x. x };

    ghost TYPE = { 7 };

    const TYPE: u8 = 7;

    #[tactic(auto, unfolding(build_rules::specs::Values::given_number))]
    fn judge(part: &[u8], len: usize, _most: u32) -> u32 {
        build_given::judge_text(part, len)
    }

    fn append(buf: &mut [u8], at: u32, rules: u32, field: Field, part: &[u8]) -> Written {
        build_append::append_text(buf, at, rules, field, part)
    }

    ghost whole = { Prim.search rules };
}

// INFO: key and value appended; or 12, 5, 8, 9, 2, 13.
#[tactic(auto, using(build_append::proofs::Writing::written_room, build_append::proofs::Numbers::first_zero, crate::proofs::Answers::info_below, crate::proofs::Answers::info_rules_by), unfolding(crate::specs::Turns::info_given, crate::specs::Turns::after_info, crate::specs::Order::appended, crate::specs::Order::afterwards, build_append::specs::Append::written))]
fn info<T: Element>(state: Builder, buf: &mut [u8], key: u32, values: &[T]) -> Turned
    ensures told { result ≡ info_given state (length buf.old) key T.kind (map T.shown values.now) }
    ensures written { buf.new ≡ after_info state buf.old key T.kind (map T.shown values.now) }
{
    let front = info_key(state.stage, state.infos, state.facts.strings, key);
    let rules = first_of(front, T::judge(values, values.len(), 0xFFFFFFFF));
    let done = T::append(buf, state.at, rules, Field::Info(key), values);
    site_turn(state, done, Stage::Infos, 0, 1)
}

// INFO with integers: key and value appended; or 12, 5, 8, 9, 2, 13.
pub fn info_integers(state: Builder, buf: &mut [u8], key: i32, values: &[i32]) -> Turned
    ensures told { result ≡ info_given state (length buf.old) (of_z w32 key) integers (map (of_z w32) values.now) }
    ensures written { buf.new ≡ after_info state buf.old (of_z w32 key) integers (map (of_z w32) values.now) }
{
    info(state, buf, words::bits(key), values)
}

// INFO with floats, given by their bits: key and value appended; or 12, 5, 8, 9, 2, 13.
pub fn info_floats(state: Builder, buf: &mut [u8], key: i32, bits: &[u32]) -> Turned
    ensures told { result ≡ info_given state (length buf.old) (of_z w32 key) floats bits.now }
    ensures written { buf.new ≡ after_info state buf.old (of_z w32 key) floats bits.now }
{
    info(state, buf, words::bits(key), bits)
}

// INFO with text: key and value appended; or 12, 5, 8, 9, 2, 13.
pub fn info_text(state: Builder, buf: &mut [u8], key: i32, part: &[u8]) -> Turned
    ensures told { result ≡ info_given state (length buf.old) (of_z w32 key) text part.now }
    ensures written { buf.new ≡ after_info state buf.old (of_z w32 key) text part.now }
{
    info(state, buf, words::bits(key), part)
}

// What is wrong with a FORMAT turn before its elements are looked at: given by its key, whether it has integers, and its lengths.
#[tactic(auto, unfolding(crate::specs::Turns::format_front))]
fn format_number(state: Builder, key: u32, whole: bool, len: u32, count: usize) -> u32
    ensures { result ≡ format_front state key whole len count }
{
    build_rules::format_number(
        rank_of(state.stage),
        state.facts,
        state.formats,
        &state.keys[..usize::from(state.formats)],
        key,
        whole,
        len,
        count,
    )
}

// The most that an integer may be: GT's code of the last allele, else any.
#[tactic(auto, using(std::proofs::lemmas::Bool::Decides::nat_tests), unfolding(genotypes::specs::Formats::role_of, vectors::specs::Sound::code_most, vectors::specs::Sound::highest))]
fn most_for(gt: u32, key: u32, alleles: u16) -> u32
    ensures { result ≡ most_of (role_of key gt) alleles 3 }
{
    if key == gt {
        return u32::from(alleles) * 2 + 1;
    }
    0xFFFFFFFF
}

// FORMAT, so many elements for each person: key and value appended; or 12, 5, 8, 11, 6, 7, by element 9 and 10, 2, 13.
#[tactic(auto, using(build_append::proofs::Writing::written_room, build_append::proofs::Numbers::first_zero, crate::proofs::Answers::format_below, crate::proofs::Answers::format_rules_by), unfolding(crate::specs::Turns::format_given, crate::specs::Turns::after_format, crate::specs::Order::appended, crate::specs::Order::afterwards, build_append::specs::Append::written))]
fn format<T: Element>(state: Builder, buf: &mut [u8], key: u32, len: u32, values: &[T]) -> Turned
    ensures told { result ≡ format_given state (length buf.old) key T.kind len (map T.shown values.now) }
    ensures written { buf.new ≡ after_format state buf.old key T.kind len (map T.shown values.now) }
{
    let front = format_number(state, key, T::TYPE == 3, len, values.len());
    let most = most_for(state.facts.gt, key, state.alleles);
    let rules = first_of(front, T::judge(values, len as usize, most));
    let done = T::append(buf, state.at, rules, Field::Format(key, len), values);
    format_turn(state, done, key)
}

// FORMAT with integers, so many for each person: key and value appended; or 12, 5, 8, 11, 7, by element 9 and 10, 2, 13.
pub fn format_integers(state: Builder, buf: &mut [u8], key: i32, len: u32, values: &[i32]) -> Turned
    ensures told { result ≡ format_given state (length buf.old) (of_z w32 key) integers len (map (of_z w32) values.now) }
    ensures written { buf.new ≡ after_format state buf.old (of_z w32 key) integers len (map (of_z w32) values.now) }
{
    format(state, buf, words::bits(key), len, values)
}

// FORMAT with floats, given by their bits, so many for each person: key and value appended; or 12, 5, 8, 11, 6, 7, 9, 2, 13.
pub fn format_floats(state: Builder, buf: &mut [u8], key: i32, len: u32, bits: &[u32]) -> Turned
    ensures told { result ≡ format_given state (length buf.old) (of_z w32 key) floats len bits.now }
    ensures written { buf.new ≡ after_format state buf.old (of_z w32 key) floats len bits.now }
{
    format(state, buf, words::bits(key), len, bits)
}

// FORMAT with text, so many bytes for each person: key and value appended; or 12, 5, 8, 11, 6, 7, 9, 2, 13.
pub fn format_text(state: Builder, buf: &mut [u8], key: i32, len: u32, part: &[u8]) -> Turned
    ensures told { result ≡ format_given state (length buf.old) (of_z w32 key) text len part.now }
    ensures written { buf.new ≡ after_format state buf.old (of_z w32 key) text len part.now }
{
    format(state, buf, words::bits(key), len, part)
}
