//! External events (signals, cards, prints) between two entries (instructions), and the decision
//! whether the run continues: with the budget used up the run stops; otherwise the machine settles
//! its tick: it takes an interrupt, flushes after a wrong prediction, continues, or is at rest, and
//! then the run stops too. docs/timetable.md has the rules.
//!
//! Only progress.rt uses this module: it calls `pass_on` first, which handles the usual case that
//! nothing happens, by what `Machine::run_to` of `st_ahead` found, and `leave` otherwise. `left` is
//! the number of instructions that may still complete.
//!
//! Proved: the decision is that of the timed run (`IsDecided` in specs/Leaving.antt, `IsChoice` in
//! specs/Between.antt; clauses `decided` and `choice`).
//!
//! Pinned, by `IsChoice`: a run at rest ends at rest, also with the budget used up. Free: the fast
//! path `pass_on`, which may refuse at any time (clause `stays`).
ghost use Rattle.std.specs.Prelude.{◌≡◌, ◌≤◌, true, false, None, length, map, option_map};
ghost use Rattle.st_exch.specs.Printer.{line_of_words};
ghost use Rattle.st_ahead.specs.Overlap.{levels_of};
ghost use Rattle.st_ahead.specs.Calls.{MayServe, run_ended};
ghost use Rattle.st_ahead.specs.RunTo.{is_quiet};
ghost use Rattle.st_refine.specs.Reached.{IsLedOn};
ghost use Rattle.st_run.specs.Events.{address_ahead};
ghost use Rattle.st_run.specs.Together.{IsBehindEntry, moment_of};
ghost use Rattle.st_run.specs.ExternalEvents.{ends_by};
ghost use Rattle.st_run.specs.Leaving.{IsDecided, nothing_decided};
ghost use Rattle.st_run.specs.Between.{IsChoice};
ghost use Rattle.st_run.specs.declared.run_phase.RunPhase.TheVariants as turns;

use crate::between::{Interlude, between};
use crate::driven::Driven;
use crate::run_phase::RunPhase;
use arrayvec::{ArrayString, ArrayVec};
use st_ahead::{Halt, Settled};
use st_exch::print_text;
use st_exec::is_at_rest;
use st_ring::SpecRing;

// The decision between two entries.
#[derive(Clone, Copy, Debug)]
pub(crate) struct Decided {
    // Whether the segment ends.
    pub ends: bool,
    // The text that was printed, if there is one.
    pub text: Option<ArrayString<64>>,
    // The interrupt that is taken, if there is one.
    pub taken: Option<u8>,
    // The next phase of the run.
    pub turn: RunPhase,
}

// The entries in flight, oldest first: the half-word address of each, and the tick at which it was
// prepared.
pub(crate) fn levels_ahead<const N: usize>(driven: &Driven<N>) -> ArrayVec<(u32, u64), 8>
    ensures { result.items ≡ map (λ a. (address_ahead a, a.row.p)) (levels_of driven.now.machine) }
{
    levels_in(driven.machine.ring())
}

// The half-word address of each level, oldest first, and the tick at which it was prepared. There
// are at most eight levels. The label of the loop serves only its proof.
fn levels_in<const N: usize>(ring: &SpecRing<N>) -> ArrayVec<(u32, u64), 8>
    requires { length ring.now ≤ 8 }
    ensures { result.items ≡ map (λ v. (v.prepared.place.address, v.p)) ring.now }
{
    let mut levels = ArrayVec::new();
    'levels: for k in 0..ring.len() {
        let level = ring.level(k);
        levels.push((level.prepared.place.address, level.p));
    }
    levels
}

// Whether the external events end the segment.
fn is_over(came: Interlude) -> bool
    ensures { result ≡ ends_by came }
{
    came.waited || came.card
}

// The text of the printed words.
fn text_of(words: Option<[u64; 8]>) -> Option<ArrayString<64>>
    ensures { option_map (λ x. x.bytes) result ≡ option_map line_of_words words }
{
    match words {
        Some(words) => Some(print_text(&words)),
        None => None,
    }
}

// Ends the run, at rest or with the budget used up.
fn end_run<const N: usize>(
    driven: &mut Driven<N>,
    resting: bool,
    text: Option<ArrayString<64>>,
) -> Decided
    requires { MayServe driven.old.machine }
    ensures rest { driven.new ≡ record driven.old { machine = run_ended driven.old.machine } }
    ensures value { result ≡ record {
      ends = true;
      text = text;
      taken = None;
      turn = turns.AtEnd resting;
    } }
    ensures led { IsLedOn driven.old.machine driven.new.machine }
{
    driven.machine.stop();
    Decided {
        ends: true,
        text,
        taken: None,
        turn: RunPhase::AtEnd(resting),
    }
}

// Decides whether and how the run continues, given the remaining budget and whether the segment has
// ended. The clause `led` of this file says that the machine is used within its protocol: if calls
// within it lead to the machine before, they lead to the machine after.
fn decide<const N: usize>(
    driven: &mut Driven<N>,
    left: u64,
    over: bool,
    text: Option<ArrayString<64>>,
) -> Decided
    requires { MayServe driven.old.machine }
    ensures rest { driven.new ≡ record driven.old { machine = driven.new.machine } }
    ensures text { result.text ≡ text }
    ensures choice { IsChoice result.turn left over driven.old.machine result driven.new.machine }
    ensures led { IsLedOn driven.old.machine driven.new.machine }
{
    if left == 0 {
        let resting = is_at_rest(driven.machine.state());
        return end_run(driven, resting, text);
    }
    let (ends, taken) = match driven.machine.settle() {
        Settled::Goes => (over, None),
        Settled::Interrupt { indicator, .. } => (true, Some(indicator)),
        Settled::Mispredicted { .. } => (true, None),
        Settled::Waits => return end_run(driven, true, text),
    };
    Decided {
        ends,
        text,
        taken,
        turn: RunPhase::Before,
    }
}

// Takes the external events between two entries, then decides whether and how the run continues.
// `left` is the remaining budget. An entry has just completed, and its tick is not settled
// (`IsBehindEntry`).
pub(crate) fn leave<const N: usize>(driven: &mut Driven<N>, left: u64) -> Decided
    requires { IsBehindEntry driven.old }
    ensures decided { IsDecided left (moment_of driven.old) result driven.new }
    ensures delays { driven.new.machine.delays ≡ driven.old.machine.delays }
    ensures levels { driven.new.machine.levels ≡ driven.old.machine.levels }
    ensures led { IsLedOn driven.old.machine driven.new.machine }
{
    let came = between(&mut driven.machine, &mut driven.pending);
    decide(driven, left, is_over(came), text_of(came.words))
}

// ---- no external event

// Continues the run at once if no external event is due and the segment does not end. Returns
// whether it did; if not, nothing changes. `left` is the remaining budget, `halt` the completion.
pub(crate) fn pass_on<const N: usize>(driven: &mut Driven<N>, halt: &Halt, left: u64) -> bool
    requires behind { IsBehindEntry driven.old }
    requires quiet { halt.now.quiet ≡ is_quiet driven.old.machine }
    requires number { halt.now.row.number ≡ driven.old.machine.state.done }
    ensures decided { result ≡ true →
        IsDecided left (moment_of driven.old) nothing_decided driven.new }
    ensures delays { driven.new.machine.delays ≡ driven.old.machine.delays }
    ensures levels { driven.new.machine.levels ≡ driven.old.machine.levels }
    ensures led { IsLedOn driven.old.machine driven.new.machine }
    ensures stays { result ≡ false → driven.new ≡ driven.old }
{
    if left == 0 {
        return false;
    }
    if !halt.quiet {
        return false;
    }
    if driven.pending.is_due(halt.row.number) {
        return false;
    }
    driven.machine.go_on();
    true
}
