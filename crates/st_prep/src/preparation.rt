//! Resolved and prepared entries: the other modules' results are put together to the complete
//! preparation of an entry. `plan_in` prepares the next entry of a state in one call, for `st_exec`
//! and `st_sweep`; `prepare_without_side`, `side_word` and `change_by_side` do so in two steps, for
//! the fetch unit `st_next`, which reads the index-side word (the word that changes an index word
//! or is compared with one) later; `st_exec` and `st_ring` call `change_index`. docs/machine.md has
//! the rules. docs/CLAIMS.md also offers `look`, `prepare` and `prepare_in`, which no program
//! calls.
//!
//! Proved: the entry is `plan`, or `prepared_entry` of a decode context, of specs/Plan.antt; by the
//! clause `states` only the boundary register and the interrupt flag of the state matter. The laws
//! are in specs/Laws.antt, as `PlansAreInRange` and `LooksAgree`.
//!
//! Pinned, by specs/Plan.antt, docs/machine.md and vectors/checks.txt: the prepared entry, a
//! suppressed one included (`suppressed_entry`); by these crates and docs/CLAIMS.md: the calls.
//! Free: the bodies, if proofs/preparation follows.
ghost use Rattle.std.specs.Prelude.{◌≡◌, ℕ, ◌<◌, ◌^◌, true, Option, IfSome, is_some, option_map};
ghost use Rattle.st_bits.specs.Indicators.{IsIndicatorIfAny};
ghost use Rattle.st_bits.specs.Storage.{words_of_storage};
ghost use Rattle.st_state.specs.Machine.{Machine, IsMachine, word};
ghost use Rattle.st_prep.specs.SpeculativeChanges.{words_after};
ghost use Rattle.st_prep.specs.Plan.{DecodeContext, decode_context_of, resolved_at as aimed_of, resolved as resolved_of, is_serial as is_serial_of, needs_by, needs as needs_of, asks, suppressed_entry as suppressed_of, entry_at as entry_of, prepared_by, prepared_entry as prepared_of, plan as plan_of, state_at_entry, side_word as side_word_of, side_of, IsSeen, entry_by, decode_context};
ghost use Rattle.st_prep.specs.Fetch.{place_of as place_by};
ghost use Rattle.st_format.specs.Formats.{spelled_as};
ghost use Rattle.st_prep.specs.Reading.{is_execute as is_execute_of};
ghost use Rattle.st_prep.specs.Ranges.{IsPlace, IsFetched, IsResolvedEntry, IsNeeds, IsChange, IsPrepared};

use crate::addresses::effective_address;
use crate::entries::{Fetched, IndexChange, Needs, Place, Prepared, ResolvedEntry};
use crate::faults::{effective_instr, fault};
use crate::fetching::{fetch_all, index_words, is_execute, place_of};
use crate::outcome::{after, cost, is_serial_operation, next, value};
use crate::runs::{has_register, is_register, none, reads, writes};
use crate::speculative::{change, side};
use st_bits::register::INDICATORS;
use st_bits::{HalfOp, Ind, indicator};
use st_format::Format;
use st_state::State;

// The resolved entry before its checks.
#[inline(always)]
fn aimed(place: &Place, fetched: &Fetched, x: &[u64; 16]) -> ResolvedEntry
    requires { IsFetched fetched.now }
    ensures value { result ≡ aimed_of place.now fetched.now x.now }
    ensures ranges { IsResolvedEntry result }
{
    let instr = effective_instr(fetched);
    let e = effective_address(instr, x);
    ResolvedEntry {
        instr: *instr,
        e,
        halves: fetched.instr.halves,
        side: side(instr, x, e),
        reads: reads(instr, e),
        writes: writes(instr, e),
        fault: fetched.fault,
        alone: place.table.is_some() || is_execute(&fetched.instr.instr),
    }
}

// The resolved entry, with the first check that it fails.
#[inline(always)]
fn resolved(place: &Place, fetched: &Fetched, x: &[u64; 16], state: &State) -> ResolvedEntry
    requires { IsFetched fetched.now }
    ensures value { result ≡ resolved_of (decode_context_of place.now fetched.now x.now state.now) }
    ensures ranges { IsResolvedEntry result }
{
    let mut resolved = aimed(place, fetched, x);
    resolved.fault = fault(&resolved, state);
    resolved
}

// Whether an entry that is not suppressed is serializing.
fn is_serial(resolved: &ResolvedEntry) -> bool
    ensures { result ≡ is_serial_of resolved.now }
{
    resolved.alone
        || is_serial_operation(&resolved.instr)
        || is_register(resolved.side)
        || has_register(resolved.reads)
        || has_register(resolved.writes)
}

// The needs of a resolved entry.
fn needs(resolved: &ResolvedEntry) -> Needs
    ensures { result ≡ needs_by resolved.now.fault resolved.now }
{
    match resolved.fault {
        Some(_) => Needs {
            index_read: None,
            serial: resolved.alone,
        },
        None => Needs {
            index_read: resolved.side,
            serial: is_serial(resolved),
        },
    }
}

/// The needs of an entry. `fetched` was fetched at `place`, `x` are the index words, and of `state`
/// only the boundary register and the interrupt flag matter.
pub fn look(place: &Place, fetched: &Fetched, x: &[u64; 16], state: &State) -> Needs
    requires { IsFetched fetched.now }
    ensures value { result ≡ needs_of (decode_context_of place.now fetched.now x.now state.now) }
    ensures ranges { IsNeeds result }

    // They are the needs of the next entry of each state with this decode context.
    ensures states { let v = decode_context_of place.now fetched.now x.now state.now in
        (s : Machine) → IsSeen s v → result ≡ needs_of (decode_context s (place_by s place.now.table)) }
{
    needs(&resolved(place, fetched, x, state))
}

// Fills in an entry that is suppressed by the indicator `i`.
fn suppress(resolved: &ResolvedEntry, i: u8, p: &mut Prepared)
    requires place { p.old.place.counter < 2 ^ 19 }
    requires indicator { i < 64 }
    ensures { p.new ≡ suppressed_of p.old.place resolved.now i }
{
    p.instr = resolved.instr;
    p.e = 0;
    p.following = next(&p.place, resolved.halves);
    p.index = None;
    p.ind = Ind {
        on: indicator(i),
        off: 0,
    };
    p.suppressed = true;
    p.reads = none();
    p.writes = none();
    p.value = 0;
    p.cost = 1;
    p.serial = resolved.alone;
}

// Fills in an entry that is not suppressed; `read` is its index-side word.
#[inline(always)]
fn enter(resolved: &ResolvedEntry, x: &[u64; 16], read: Option<u64>, serial: bool, p: &mut Prepared)
    requires serial { serial ≡ is_serial_of resolved.now }
    requires place { p.old.place.counter < 2 ^ 19 }
    requires resolved { IsResolvedEntry resolved.now }
    ensures { p.new ≡ entry_of p.old.place resolved.now x.now read }
{
    let following = next(&p.place, resolved.halves);
    let speculative = change(&resolved.instr, x, resolved.e, read);
    p.instr = resolved.instr;
    p.e = resolved.e;
    p.following = after(&resolved.instr, x, resolved.e, p.place.counter, following);
    p.index = speculative.index;
    p.ind = speculative.ind;
    p.suppressed = false;
    p.reads = resolved.reads;
    p.writes = resolved.writes;
    p.value = value(&resolved.instr, x, following);
    p.cost = cost(&resolved.instr);
    p.serial = serial;
}

// Fills in the entry at `p.place`, before it changes the index words.
#[inline(always)]
fn fill(resolved: &ResolvedEntry, x: &[u64; 16], read: Option<u64>, serial: bool, p: &mut Prepared)
    requires serial { serial ≡ (needs_by resolved.now.fault resolved.now).serial }
    requires place { p.old.place.counter < 2 ^ 19 }
    requires resolved { IsResolvedEntry resolved.now }
    ensures { p.new ≡ prepared_by resolved.now.fault p.old.place resolved.now x.now read }
{
    match resolved.fault {
        Some(i) => {
            // A copy, so that the caller need not keep `resolved` in memory for it.
            let resolved = *resolved;
            suppress(&resolved, i, p)
        }
        None => enter(resolved, x, read, serial, p),
    }
}

// Provides the fact that a word has 64 bits to the caller's proof.
fn read_shape(read: Option<u64>)
    ensures { IfSome read (λ w. w < 2 ^ 64) }
{
    if let Some(word) = read {
        let _ = word;
    }
}

/// Prepares the entry at `p.place`, in place, as `prepare` does.
pub fn prepare_in(
    p: &mut Prepared,
    fetched: &Fetched,
    x: &mut [u64; 16],
    read: Option<u64>,
    state: &State,
)
    requires place { IsPlace p.old.place }
    requires fetched { IsFetched fetched.now }
    requires asked { is_some read ≡ asks (decode_context_of p.old.place fetched.now x.old state.now) }

    ensures value { p.new ≡ prepared_of (decode_context_of p.old.place fetched.now x.old state.now) read }
    ensures ranges { IsPrepared p.new }
    ensures words { x.new ≡ words_after x.old p.new.index }

    // It is the next entry of each state with this decode context.
    ensures states { let v = decode_context_of p.old.place fetched.now x.old state.now in
        (s : Machine) → IsSeen s v → read ≡ side_of s v → p.new ≡ plan_of s p.old.place.table }
{
    read_shape(read);
    let resolved = resolved(&p.place, fetched, x, state);
    let serial = needs(&resolved).serial;
    fill(&resolved, x, read, serial, p);
    change_index(p.index, x);
}

/// Prepares an entry with 0 in place of its index-side word: all but `index` and `ind` is final,
/// and these are too if the entry needs no such word. Returns the needs of the entry. Does not
/// change `x`.
#[inline(always)]
pub fn prepare_without_side(
    p: &mut Prepared,
    fetched: &Fetched,
    x: &[u64; 16],
    state: &State,
) -> Needs
    requires place { IsPlace p.old.place }
    requires fetched { IsFetched fetched.now }

    ensures value { let v = decode_context_of p.old.place fetched.now x.now state.now in
        p.new ≡ prepared_of v (option_map (λ w. 0) (needs_of v).index_read) }
    ensures needs { result ≡ needs_of (decode_context_of p.old.place fetched.now x.now state.now) }
    ensures place { p.new.place ≡ p.old.place }
    ensures ranges { IsPrepared p.new }
    ensures shape { IsNeeds result }
{
    let resolved = resolved(&p.place, fetched, x, state);
    let needs = needs(&resolved);
    fill(&resolved, x, zero_for(needs.index_read), needs.serial, p);
    needs
}

/// Repeats the speculative change of an entry once its index-side word is read. The entry was
/// prepared with some other word in its place.
pub fn change_by_side(p: &mut Prepared, x: &[u64; 16], read: Option<u64>)
    requires { IsPrepared p.old }
    ensures value { (v : DecodeContext) (other : Option ℕ) → v.x ≡ x.now → asks v ≡ true →
        p.old ≡ prepared_of v other → p.new ≡ prepared_of v read }
    ensures ranges { (v : DecodeContext) (other : Option ℕ) → v.x ≡ x.now → asks v ≡ true →
        p.old ≡ prepared_of v other → IsPrepared p.new }
{
    read_shape(read);
    let speculative = change(&p.instr, x, p.e, read);
    p.index = speculative.index;
    p.ind = speculative.ind;
}

// Zero in place of an index-side word, if the entry needs one.
fn zero_for(word: Option<u32>) -> Option<u64>
    ensures value { result ≡ option_map (λ w. 0) word }
    ensures shape { IfSome result (λ w. w < 2 ^ 64) }
{
    match word {
        Some(_) => Some(0),
        None => None,
    }
}

/// Changes the index word, if there is a change.
pub fn change_index(index: Option<IndexChange>, x: &mut [u64; 16])
    requires { IfSome index IsChange }
    ensures { x.new ≡ words_after x.old index }
{
    if let Some(change) = index {
        x[change.number as usize] = change.word;
    }
}

/// Prepares an entry, and changes its index word in `x`. `fetched` was fetched at `place`, `x` are
/// the index words, `read` is the word that `look` says is needed, and of `state` only the boundary
/// register and the interrupt flag matter.
pub fn prepare(
    place: &Place,
    fetched: &Fetched,
    x: &mut [u64; 16],
    read: Option<u64>,
    state: &State,
) -> Prepared
    requires place { IsPlace place.now }
    requires fetched { IsFetched fetched.now }
    requires asked { is_some read ≡ asks (decode_context_of place.now fetched.now x.old state.now) }

    ensures value { result ≡ prepared_of (decode_context_of place.now fetched.now x.old state.now) read }
    ensures ranges { IsPrepared result }
    ensures words { x.new ≡ words_after x.old result.index }

    // It is the next entry of each state with this decode context.
    ensures states { let v = decode_context_of place.now fetched.now x.old state.now in
        (s : Machine) → IsSeen s v → read ≡ side_of s v → result ≡ plan_of s place.now.table }
{
    let mut p = Prepared::default();
    p.place = *place;
    prepare_in(&mut p, fetched, x, read, state);
    p
}

// The word at the word address `w`, with the indicator in `table` off.
fn found_word(state: &State, table: Option<u8>, w: u32) -> u64
    requires inside { w < words_of_storage }
    requires indicator { IsIndicatorIfAny table }
    ensures value { result ≡ word (state_at_entry table state.now) w }
{
    let word = state.word(w);
    match table {
        Some(i) if w == INDICATORS => word & !indicator(i),
        _ => word,
    }
}

/// The index-side word, as the next entry of a state or its table instruction finds it: an
/// interrupt has turned off the indicator that it takes.
pub fn side_word(state: &State, table: Option<u8>, w: Option<u32>) -> Option<u64>
    requires inside { IfSome w (λ w. w < words_of_storage) }
    requires indicator { IsIndicatorIfAny table }
    ensures { result ≡ side_word_of table state.now w }
{
    match w {
        Some(w) => Some(found_word(state, table, w)),
        None => None,
    }
}

/// Whether an instruction of this format is EX.
pub fn is_execute_format(format: Format) -> bool
    ensures { (first second : ℕ) → result ≡ is_execute_of (spelled_as format first second) }
{
    match format {
        Format::Index(op) => matches!(op, HalfOp::Ex),
        Format::Whole(_) => false,
        Format::Branch(_) | Format::Floating | Format::NoHalf | Format::NoWhole => false,
    }
}

// Fills in the entry of a state at `p.place`, given what is fetched there. Returns the word address
// of its index-side word, if there is one.
fn fill_fetched(fetched: &Fetched, x: &[u64; 16], state: &State, p: &mut Prepared) -> Option<u32>
    requires place { IsPlace p.old.place }
    requires fetched { IsFetched fetched.now }
    ensures value { p.new ≡ entry_by state.now p.old.place fetched.now x.now }
    ensures side { let v = decode_context_of p.old.place fetched.now x.now state.now in
        result ≡ (needs_of v).index_read }
{
    let resolved = resolved(&p.place, fetched, x, state);
    let needs = needs(&resolved);
    let read = side_word(state, p.place.table, needs.index_read);
    fill(&resolved, x, read, needs.serial, p);
    needs.index_read
}

/// Prepares the next entry of a state, or the table instruction of an interrupt by the indicator in
/// `table`, in place. Returns the word address of its index-side word, if there is one.
pub fn plan_in(table: Option<u8>, state: &State, p: &mut Prepared) -> Option<u32>
    requires { IsIndicatorIfAny table }
    ensures value { p.new ≡ plan_of state.now table }
    ensures ranges { IsPrepared p.new }
    ensures side { result ≡ (needs_of (decode_context state.now (place_by state.now table))).index_read }
    ensures machine { IsMachine state.now }
{
    p.place = place_of(state, table);
    let x = index_words(state);
    let fetched = fetch_all(&p.place, &x, state);
    fill_fetched(&fetched, &x, state, p)
}
