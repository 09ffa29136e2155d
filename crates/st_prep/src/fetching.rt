//! Fetching of an entry, one instruction word at a time: which word is read next, and the decoded
//! instruction once all have been read. An entry has at most four instruction words: two of its
//! own, and two of the target if it is EX. The caller passes the contents of the words so far.
//! `st_next` calls `fetch_on` and `halves_known` as words arrive; preparation.rt and `st_plain`
//! call `fetch_all`, which reads all words from a state; `st_exec`, `st_ahead` and `st_plain` call
//! `place_of`. docs/machine.md ("Instruction words") has the rules.
//!
//! Proved: each result is that of specs/Reading.antt, which asks for words one by one, after the
//! given contents (`left_after`); the place is `place_of` of specs/Fetch.antt. Law:
//! `InstructionWordsComeOneByOne` (specs/Laws.antt).
//!
//! Pinned, by these definitions, docs/machine.md and vectors/checks.txt: the order of the words,
//! and that a word is checked before it is read. Free: how the known part is found (`Part`), if
//! proofs/fetching follows.
ghost use Rattle.std.specs.Prelude.{◌≡◌, ℕ, ◌+◌, ◌/◌, ◌<◌, ◌≤◌, ◌^◌, Bool, true, false, None, IfSome, length, drop, slice_index};
ghost use Rattle.st_bits.specs.Indicators.{IsIndicatorIfAny};
ghost use Rattle.st_state.specs.Machine.{IsMachine, word};
ghost use Rattle.st_bits.specs.declared.register.TheConstants.{BOUNDS};
ghost use Rattle.st_state.specs.Boundary.{indicator_of_access};
ghost use Rattle.st_state.specs.declared.protection.Access.{Access};
ghost use Rattle.st_prep.specs.Fetch.{index_words as index_words_of, place_of as place_by, reading_by, address_by};
ghost use Rattle.st_prep.specs.declared.entries.Fetched.{Fetched as FetchedOf};
ghost use Rattle.st_prep.specs.declared.entries.Fetching.TheVariants.{Found};
ghost use Rattle.st_prep.specs.Reading.{Continuation, Finds, outcome, left_after, fetching_of, half_of as half_by, no_instr as no_instr_of, with_second as with_second_of, with_first as with_first_of, instruction_at, is_execute as is_execute_of, with_target as with_target_of, own_use, given_by, allowed_found};
ghost use Rattle.st_prep.specs.Ranges.{HasFields, IsPlace, IsPart, IsFoundInRange, IsFetched, IsFetching};

use crate::addresses::effective_address;
use crate::entries::{Fetched, Fetching, Place};
use st_bits::register::{FIRST_INDEX_WORD, INTERRUPT_ADDRESS};
use st_bits::{HalfOp, part};
use st_format::{Decoded, Instr, decode, length_in_halves};
use st_state::{Access, State};

/// The instruction at a half-word address.
#[derive(Clone, Copy, Debug, PartialEq, Eq)]
pub struct FoundInstruction {
    /// The instruction, with zeros in place of words that may not be fetched.
    pub decoded: Decoded,
    /// The indicator that forbids one of its words.
    pub fault: Option<u8>,
}

/// The known part of an instruction, given the contents of the words that were read so far.
#[derive(Clone, Copy, Debug, PartialEq, Eq)]
pub enum Part {
    /// This word must be read next.
    Wants {
        word: u32,
    },
    /// The whole instruction, and how many of these contents belong to it.
    Has {
        found: FoundInstruction,
        used: usize,
    },
}

/// The sixteen index words of a state, where they stand in storage.
pub fn index_words_in(state: &State) -> &[u64; 16]
    ensures { result.now ≡ index_words_of state.now }
{
    let words = state.words();
    let first = FIRST_INDEX_WORD as usize;
    <&[u64; 16]>::try_from(&words[first..first + 16]).unwrap()
}

/// A copy of the sixteen index words of a state.
pub fn index_words(state: &State) -> [u64; 16]
    ensures { result ≡ index_words_of state.now }
{
    *index_words_in(state)
}

/// The place of the next entry, or of the table instruction of an interrupt by the indicator in
/// `table`.
pub fn place_of(state: &State, table: Option<u8>) -> Place
    requires { IsIndicatorIfAny table }
    ensures value { result ≡ place_by state.now table }
    ensures shape { IsPlace result }
    ensures machine { IsMachine state.now }
{
    Place {
        counter: state.ic,
        address: address(state, table),
        table,
    }
}

// The half-word address of the next entry's instruction.
fn address(state: &State, table: Option<u8>) -> u32
    requires { IsIndicatorIfAny table }
    ensures value { result ≡ address_by table state.now }
    ensures bound { result < 2 ^ 19 }
{
    match table {
        None => state.ic,
        Some(i) => (part(state.word(INTERRUPT_ADDRESS), 0, 18) as u32 + u32::from(i)) % (1 << 18)
            * 2,
    }
}

// The half-word at the half-word address `h`, given the content of its word.
fn half_of(content: u64, h: u32) -> u32
    ensures { result ≡ half_by content h }
{
    part(content, 32 * (h % 2), 32) as u32
}

// The result of decoding a half-word that may not be fetched.
fn no_instr() -> Decoded
    ensures { result ≡ no_instr_of }
{
    Decoded {
        instr: Instr::Invalid {
            first: 0,
            second: 0,
            full: false,
        },
        halves: 1,
    }
}

// The two half-word instruction at the half-word address `h`, given its first half-word `first`.
fn with_second(first: u32, h: u32, contents: &[u64], state: &State) -> Part
    requires address { h < 2 ^ 19 }
    requires some { 1 ≤ length contents.now }
    ensures value { (t : Bool) (k : Continuation) → fetching_of (left_after (with_second_of
        (indicator_of_access state.now Access.Fetch ((h + 1) / 2)) t first
        (h + 1) (h / 2) (slice_index contents.now 0) k) (drop 1 contents.now))
        ≡ given_by t result contents.now k }
    ensures shape { IsPart (length contents.now) result }
{
    let word = (h + 1) / 2;
    if let Some(i) = state.may(Access::Fetch, word) {
        return has(decode(first, 0), Some(i), 1);
    }
    if word == h / 2 {
        return has(decode(first, half_of(contents[0], h + 1)), None, 1);
    }
    if contents.len() < 2 {
        return Part::Wants { word };
    }
    has(decode(first, half_of(contents[1], h + 1)), None, 2)
}

// A complete instruction that uses `used` of the contents.
fn has(decoded: Decoded, fault: Option<u8>, used: usize) -> Part
    ensures { result ≡ Part.Has (record { decoded = decoded; fault = fault }) used }
{
    Part::Has {
        found: FoundInstruction { decoded, fault },
        used,
    }
}

// The instruction at the half-word address `h`, given the content of its first word.
fn with_first(h: u32, contents: &[u64], state: &State) -> Part
    requires address { h < 2 ^ 19 }
    requires some { 1 ≤ length contents.now }
    ensures value { (t : Bool) (k : Continuation) →
        fetching_of (left_after (with_first_of t (word state.now BOUNDS)
        state.now.enabled h (slice_index contents.now 0) k) (drop 1 contents.now))
        ≡ given_by t result contents.now k }
    ensures shape { IsPart (length contents.now) result }
{
    let first = half_of(contents[0], h);
    if length_in_halves(first) == 2 {
        with_second(first, h, contents, state)
    } else {
        has(decode(first, 0), None, 1)
    }
}

// The known part of the instruction at the half-word address `h`, given these contents.
#[inline(always)]
fn part_at(h: u32, contents: &[u64], state: &State) -> Part
    requires { h < 2 ^ 19 }
    ensures value { (t : Bool) (k : Continuation) →
        fetching_of (left_after (instruction_at t (word state.now BOUNDS)
        state.now.enabled h k) contents.now) ≡ given_by t result contents.now k }
    ensures shape { IsPart (length contents.now) result }
{
    if let Some(i) = state.may(Access::Fetch, h / 2) {
        return has(no_instr(), Some(i), 0);
    }
    if contents.is_empty() {
        Part::Wants { word: h / 2 }
    } else {
        with_first(h, contents, state)
    }
}

/// Whether an instruction is EX.
pub fn is_execute(instr: &Instr) -> bool
    ensures { result ≡ is_execute_of instr.now }
{
    matches!(*instr, Instr::Half { op: HalfOp::Ex, .. })
}

// EX with its target.
fn with_target(ex: Decoded, target: FoundInstruction) -> Fetched
    requires ex { HasFields ex.instr }
    requires target { IsFoundInRange target }
    ensures value { result ≡ with_target_of ex target }
    ensures shape { IsFetched result }
{
    Fetched {
        instr: ex,
        target: if target.fault.is_none() {
            Some(target.decoded)
        } else {
            None
        },
        fault: target.fault,
    }
}

// The progress of fetching the target of EX, given the contents after those of EX itself.
fn fetch_target(own: FoundInstruction, x: &[u64; 16], contents: &[u64], state: &State) -> Fetching
    requires own { IsFoundInRange own }
    requires execute { is_execute_of own.decoded.instr ≡ true }
    ensures value { result ≡ fetching_of (left_after (own_use x.now
        (word state.now BOUNDS) state.now.enabled
        own) contents.now) }
    ensures shape { IsFetching result }
{
    let e = effective_address(&own.decoded.instr, x);
    match part_at(e / 32, contents, state) {
        Part::Wants { word } => Fetching::Next { word, target: true },
        Part::Has { found, .. } => Fetching::Found(with_target(own.decoded, found)),
    }
}

// The progress of fetching an entry, given its own instruction and the contents after it.
fn own_or_target(own: FoundInstruction, x: &[u64; 16], contents: &[u64], state: &State) -> Fetching
    requires { IsFoundInRange own }
    ensures value { result ≡ fetching_of (left_after (own_use x.now
        (word state.now BOUNDS) state.now.enabled
        own) contents.now) }
    ensures shape { IsFetching result }
{
    if is_execute(&own.decoded.instr) {
        return fetch_target(own, x, contents, state);
    }
    Fetching::Found(Fetched {
        instr: own.decoded,
        target: None,
        fault: own.fault,
    })
}

// The second half-word of the instruction at the half-word address `h`, if it may be fetched and
// the contents have it.
fn second_known(h: u32, contents: &[u64], state: &State) -> Option<u32>
    requires address { h < 2 ^ 19 }
    requires some { 1 ≤ length contents.now }
    requires allowed { indicator_of_access state.now Access.Fetch (h / 2)
        ≡ None }
    ensures { IfSome result (λ second. (first : ℕ) (k : Continuation) (f : FetchedOf) →
        k (allowed_found first second) ≡ Finds f → fetching_of (left_after (with_second_of
        (indicator_of_access state.now Access.Fetch ((h + 1) / 2)) false first
        (h + 1) (h / 2) (slice_index contents.now 0) k) (drop 1 contents.now)) ≡ Found f) }
{
    if (h + 1) / 2 == h / 2 {
        return Some(half_of(contents[0], h + 1));
    }
    if contents.len() < 2 {
        return None;
    }
    match state.may(Access::Fetch, (h + 1) / 2) {
        Some(_) => None,
        None => Some(half_of(contents[1], h + 1)),
    }
}

/// The half-words of the instruction at the half-word address `h`, below 2^19, if its words may be
/// fetched and the contents, at least one, have all of it. The second half-word is 0 if there is
/// only one.
pub fn halves_known(h: u32, contents: &[u64], state: &State) -> Option<(u32, u32)>
    requires address { h < 2 ^ 19 }
    requires some { 1 ≤ length contents.now }
    ensures { IfSome result (λ r. (k : Continuation) (f : FetchedOf) →
        k (allowed_found r.0 r.1) ≡ Finds f → fetching_of
        (left_after (instruction_at false (word state.now BOUNDS)
        state.now.enabled h k) contents.now) ≡ Found f) }
{
    if state.may(Access::Fetch, h / 2).is_some() {
        return None;
    }
    let first = half_of(contents[0], h);
    if length_in_halves(first) != 2 {
        return Some((first, 0));
    }
    let second = second_known(h, contents, state)?;
    Some((first, second))
}

/// The progress of fetching an entry at a place, after words with these contents were read for it
/// in order: the next word to read, or the fetched entry. `x` are the index words, and of `state`
/// only the boundary register and the interrupt flag matter.
#[inline(always)]
pub fn fetch_on(place: &Place, x: &[u64; 16], contents: &[u64], state: &State) -> Fetching
    requires { IsPlace place.now }
    ensures value { result ≡ fetching_of (left_after (reading_by x.now state.now
        place.now) contents.now) }
    ensures shape { IsFetching result }
{
    match part_at(place.address, contents, state) {
        Part::Wants { word } => Fetching::Next {
            word,
            target: false,
        },
        Part::Has { found, used } => own_or_target(found, x, &contents[used..], state),
    }
}

/// The entry that is fetched at a place: its instruction, the target of EX, and the indicator that
/// forbids one of their words. All words are read from the state, and `x` are the index words.
pub fn fetch_all(place: &Place, x: &[u64; 16], state: &State) -> Fetched
    requires { IsPlace place.now }
    ensures value { result
        ≡ outcome (reading_by x.now state.now place.now)
        (word state.now) }
    ensures shape { IsFetched result }
{
    let mut contents = [0; 4];
    let mut n = 0;
    loop {
        match fetch_on(place, x, &contents[..n], state) {
            Fetching::Next { word, .. } => {
                contents[n] = state.word(word);
                n += 1;
            }
            Fetching::Found(fetched) => return fetched,
        }
    }
}
