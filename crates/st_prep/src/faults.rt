//! The checks before an instruction is executed. The first check that an entry fails gives the
//! indicator with which it is suppressed: it does nothing but turn that indicator on.
//! preparation.rt calls `fault`. docs/machine.md ("The checks") has the rules. The order is: a
//! forbidden instruction word, an invalid operation, EX of EX, a forbidden index-side word (the
//! word that changes or is compared with an index word), forbidden operand words, forbidden written
//! words, and the forbidden area of an order.
//!
//! Proved: the result is `fault` of specs/Checks.antt (`value`), an indicator if there is one
//! (`bound`).
//!
//! Pinned, by that definition, docs/machine.md and vectors/checks.txt: the checks and this order;
//! by `forbidden_area` of specs/Checks.antt and docs/machine.md: `AREA`, since an order moves eight
//! words. Free: the bodies, if proofs/faults follows the loop of `forbidden_run`. A new check is a
//! case here and in specs/Checks.antt.
ghost use Rattle.std.specs.Prelude.{◌≡◌, ◌<◌, ◌^◌};
ghost use Rattle.std.specs.Option.{option_or};
ghost use Rattle.st_bits.specs.Indicators.{IsIndicatorIfAny};
ghost use Rattle.st_state.specs.Machine.{word, word as word_of};
ghost use Rattle.st_prep.specs.Ranges.{HasFields, IsResolvedEntry, IsFetched, IsRuns};
ghost use Rattle.st_bits.specs.declared.register.TheConstants.{BOUNDS};
ghost use Rattle.st_state.specs.Boundary.{indicator_of_access};
ghost use Rattle.st_prep.specs.Checks.{effective_instr as effective_instr_of, forbidden_run as forbidden_run_of, forbidden_words as forbidden_words_of, forbidden_side as forbidden_side_of, forbidden_area as forbidden_area_of, operation_invalid, execute_exception, fault as fault_of};

use crate::entries::{Fetched, ResolvedEntry, Words};
use crate::fetching::is_execute;
use st_bits::indicators::{ADDRESS_INVALID, EXECUTE_EXCEPTION, OPERATION_INVALID};
use st_bits::register::FIRST_STORAGE_WORD;
use st_format::Instr;
use st_state::{Access, State};

// The number of words in the area of an order.
const AREA: u8 = 8;

/// The instruction that is executed: the target of EX, or the instruction itself.
pub fn effective_instr(fetched: &Fetched) -> &Instr
    requires { IsFetched fetched.now }
    ensures value { result.now ≡ effective_instr_of fetched.now }
    ensures shape { HasFields result.now }
{
    match &fetched.target {
        Some(target) => &target.instr,
        None => &fetched.instr.instr,
    }
}

// The indicator that forbids an access to a word.
fn forbidden(state: &State, access: Access, w: u32) -> Option<u8>
    ensures value { result ≡ indicator_of_access state.now access w }
    ensures bound { IsIndicatorIfAny result }
{
    state.may(access, w)
}

// The indicator that forbids the first of `len` words that may not be accessed.
fn forbidden_run(state: &State, access: Access, first: u32, len: u8) -> Option<u8>
    requires { first < 2 ^ 18 }
    ensures value { result
        ≡ forbidden_run_of (word state.now BOUNDS) state.now.enabled access first len }
    ensures bound { IsIndicatorIfAny result }
{
    for w in first..first + u32::from(len) {
        let fault = forbidden(state, access, w);
        if fault.is_some() {
            return fault;
        }
    }
    None
}

// The indicator that forbids the first word of two runs that may not be accessed.
fn forbidden_words(state: &State, access: Access, words: Words) -> Option<u8>
    requires { IsRuns words }
    ensures value { result
        ≡ forbidden_words_of (word state.now BOUNDS) state.now.enabled access words }
    ensures bound { IsIndicatorIfAny result }
{
    forbidden_run(state, access, words.first, words.len).or(forbidden_run(
        state,
        access,
        words.first2,
        words.len2,
    ))
}

// The indicator that forbids a read of the index-side word.
fn forbidden_side(state: &State, word: Option<u32>) -> Option<u8>
    ensures value { result ≡ forbidden_side_of (word_of state.now 3) state.now.enabled word }
    ensures bound { IsIndicatorIfAny result }
{
    match word {
        Some(w) => forbidden(state, Access::Read, w),
        None => None,
    }
}

// The indicator that forbids the area of an order with the effective address `e`.
fn forbidden_area(state: &State, instr: &Instr, e: u32) -> Option<u8>
    requires { e < 2 ^ 24 }
    ensures value { result
        ≡ forbidden_area_of (word state.now BOUNDS) state.now.enabled instr.now e }
    ensures bound { IsIndicatorIfAny result }
{
    let Instr::Transfer { write, .. } = *instr else {
        return None;
    };
    if e / 64 < FIRST_STORAGE_WORD {
        return Some(ADDRESS_INVALID);
    }
    // The printer reads its area, the reader writes it.
    let access = if write { Access::Read } else { Access::Write };
    forbidden_run(state, access, e / 64, AREA)
}

// The indicator of an operation that cannot be executed.
#[tactic(auto, unfolding(crate::specs::Checks::operation_invalid, crate::specs::Checks::execute_exception))]
fn operation_fault(instr: &Instr) -> Option<u8>
    ensures value { result ≡ option_or (operation_invalid instr.now) (execute_exception instr.now) }
    ensures bound { IsIndicatorIfAny result }
{
    if !instr.is_valid() {
        Some(OPERATION_INVALID)
    } else if is_execute(instr) {
        Some(EXECUTE_EXCEPTION)
    } else {
        None
    }
}

/// The indicator of the first check that an entry fails. The fault of its words comes first.
#[inline(always)]
pub fn fault(resolved: &ResolvedEntry, state: &State) -> Option<u8>
    requires { IsResolvedEntry resolved.now }
    ensures value { result ≡ fault_of resolved.now (word state.now BOUNDS) state.now.enabled }
    ensures bound { IsIndicatorIfAny result }
{
    resolved
        .fault
        .or(operation_fault(&resolved.instr))
        .or(forbidden_side(state, resolved.side))
        .or(forbidden_words(state, Access::Read, resolved.reads))
        .or(forbidden_words(state, Access::Write, resolved.writes))
        .or(forbidden_area(state, &resolved.instr, resolved.e))
}
