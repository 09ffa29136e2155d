//! The facts of an entry (instruction) that its preparation does not have, and which the ledger
//! writes: the index-side word, whether it is EX, and the half-words that are executed.
//! docs/ledger.md has their lines. rows.rt calls `known_if`; rows.rt, looking.rt and `st_account`
//! keep the facts, and `st_lines` writes them. Half-words are 32 bits; the index-side word is a
//! word address, a register included.
//!
//! Proved: the facts are `known_at` of specs/Looking.antt, for each state. Not proved: that the
//! shortcut for an entry that asks for following words (it has no forbidden word) saves time.
//!
//! Pinned, by `known_at`, by specs/EntryLines.antt of `st_lines`, docs/ledger.md and
//! vectors/ledger/lines.txt: the fields of `Known` and `Code`. A new fact is a field here, in
//! `known_at`, and a line of `st_lines`. Free: that shortcut, if proofs/known follows.
ghost use Rattle.std.specs.Prelude.{◌≡◌, None, Some, if◌then◌else◌, true};
ghost use Rattle.st_bits.specs.Indicators.{IsIndicatorIfAny};
ghost use Rattle.st_prep.specs.Fetch.{index_words as index_words_of, place_of as place_by, words_fetched};
ghost use Rattle.st_prep.specs.Plan.{needs as needs_of, decode_context, plan as plan_of};
ghost use Rattle.st_prep.specs.Ranges.{HasFields, IsFetched, IsPrepared};
ghost use Rattle.st_prep.specs.Reading.{is_execute as is_execute_of};
ghost use Rattle.st_segment.specs.Entries.{entry as entry_of};
ghost use Rattle.st_plain.specs.Looking.{code_of as code_by, code_found as code_found_of, known_at, side_at};

use st_format::{Instr, encode};
use st_next::FetchUnit;
use st_prep::{Fetched, fetch_all, is_execute, place_of};
use st_state::State;

/// The half-words of an instruction.
#[derive(Clone, Copy, Debug, Default, PartialEq, Eq)]
pub struct Code {
    /// The first half-word.
    pub first: u32,
    /// The second half-word, if the instruction is a full word.
    pub second: Option<u32>,
}

/// The facts of an entry that its plan does not have.
#[derive(Clone, Copy, Debug, Default, PartialEq, Eq)]
pub struct Known {
    /// The index-side word: a register, or a word that is read from storage.
    pub side: Option<u32>,
    /// Whether the instruction is EX.
    pub execute: bool,
    /// The half-words of the executed instruction, for EX those of its target; None if a word of
    /// the entry may not be fetched.
    pub code: Option<Code>,
}

// The second half-word of bits that spell no instruction.
fn second_where(full: bool, second: u32) -> Option<u32>
    ensures { result ≡ (if full then Some second else None) }
{
    if full { Some(second) } else { None }
}

// The half-words of an instruction, whose fields fit their bits unless it is invalid (`HasFields`).
fn code_of(instr: &Instr) -> Code
    requires { HasFields instr.now }
    ensures { result ≡ code_by instr.now }
{
    match *instr {
        Instr::Invalid {
            first,
            second,
            full,
        } => Code {
            first,
            second: second_where(full, second),
        },
        Instr::Half { .. }
        | Instr::Branch { .. }
        | Instr::Floating { .. }
        | Instr::Vfl { .. }
        | Instr::Connect { .. }
        | Instr::Move { .. }
        | Instr::BitBranch { .. }
        | Instr::IndBranch { .. }
        | Instr::StoreCounter { .. }
        | Instr::Transfer { .. } => {
            let (first, second) = encode(instr);
            Code { first, second }
        }
    }
}

// The half-words that a fetched entry executes; None if one of its words may not be fetched.
fn code_found(fetched: &Fetched) -> Option<Code>
    requires { IsFetched fetched.now }
    ensures { result ≡ code_found_of fetched.now }
{
    if fetched.fault.is_some() {
        return None;
    }
    let executed = fetched.target.unwrap_or(fetched.instr);
    Some(code_of(&executed.instr))
}

// The facts of the next entry of a state, whose words are read again.
#[inline(never)]
fn known_anew(table: Option<u8>, side: Option<u32>, x: &[u64; 16], state: &State) -> Known
    requires indicator { IsIndicatorIfAny table }
    requires words { x.now ≡ index_words_of state.now }
    ensures { let f = words_fetched state.now (place_by state.now table) in result ≡ record {
      side = side;
      execute = is_execute_of f.instr.instr;
      code = code_found_of f;
    } }
{
    let place = place_of(state, table);
    let fetched = fetch_all(&place, x, state);
    Known {
        side,
        execute: is_execute(&fetched.instr.instr),
        code: code_found(&fetched),
    }
}

// The facts of the next entry of a state, which is planned and prepared. If it asks for following
// words, each of its words may be fetched, and it is EX if it has a target.
fn known_of(unit: &FetchUnit, table: Option<u8>, x: &[u64; 16], state: &State) -> Known
    requires indicator { IsIndicatorIfAny table }
    requires words { x.now ≡ index_words_of state.now }
    requires plan { unit.now.prepared ≡ plan_of state.now table }
    requires ranges { IsPrepared unit.now.prepared }
    requires entry { unit.now.entry ≡ entry_of table state.now }
    requires needs { unit.now.needs ≡ needs_of (decode_context state.now (place_by state.now table)) }
    ensures { result ≡ known_at table state.now }
{
    let side = unit.needs.index_read;
    let entry = &unit.entry;
    if !entry.follows {
        return known_anew(table, side, x, state);
    }
    Known {
        side,
        execute: entry.target.len > 0,
        code: Some(code_of(&unit.prepared.instr)),
    }
}

/// The facts of the next entry of a state, which is planned and prepared; if they are not wanted,
/// only the index-side word among them is valid.
pub(crate) fn known_if(
    wanted: bool,
    unit: &FetchUnit,
    table: Option<u8>,
    x: &[u64; 16],
    state: &State,
) -> Known
    requires indicator { IsIndicatorIfAny table }
    requires words { x.now ≡ index_words_of state.now }
    requires plan { unit.now.prepared ≡ plan_of state.now table }
    requires ranges { IsPrepared unit.now.prepared }
    requires entry { unit.now.entry ≡ entry_of table state.now }
    requires needs { unit.now.needs ≡ needs_of (decode_context state.now (place_by state.now table)) }
    ensures side { result.side ≡ side_at table state.now }
    ensures known { wanted ≡ true → result ≡ known_at table state.now }
{
    if wanted {
        return known_of(unit, table, x, state);
    }
    Known {
        side: unit.needs.index_read,
        execute: false,
        code: None,
    }
}
