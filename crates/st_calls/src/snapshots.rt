//! Tests that compare the snapshots of a run (`st_run`) with single steps of a plain state. A
//! snapshot shows the committed state with the index words of the entries in flight; the test makes
//! these from plain steps and, for the index words, predicted steps after them.
//!
//! Proved: nothing of the test. The law `TheStateIsSplit` (specs/Laws.antt of `st_refine`) states
//! for all machines what the test shows on one job. Pinned: ticks 3 to 41, four levels and delays
//! of one tick, by the assertions on counts in this file. Free: another job and other ticks, if
//! these assertions hold.
ghost use Rattle.std.specs.Prelude.{◌≡◌, true};
ghost use Rattle.std.specs.List.{AllPass};
ghost use Rattle.std.specs.List.Sorted.{IsStrictlyIncreasing};
ghost use Rattle.st_card.specs.Limits.{is_signal};

use crate::blank;
use st_ahead::LevelView;
use st_banks::Delays;
use st_bits::WORDS;
use st_card::Signal;
use st_exch::Hopper;
use st_exec::{interrupt, one};
use st_prep::{Prepared, plan_in};
use st_run::{Run, RunControls, RunEvent};
use st_state::State;
use std::alloc::{AllocError, Global};
use std::process::Abort;
use std::test::Fail;

// A job that adds three numbers in a loop, with an interrupt after six instructions; it starts at
// word 32.
const SUM: [(u32, u64); 11] = [
    (32, 0x0032_0500_0000_8450),
    (33, 0x0009_C210_0008_8570),
    (34, 0x0000_20F1_7000_0C70),
    (35, 0x0002_F0F0_0008_81B0),
    (36, 0x000A_60F0_1040_0C50),
    (37, 0x0000_0970_000A_80F0),
    (38, 0x0000_04B0_0000_0570),
    (39, 0x000A_0000_000C_0000),
    (40, 0x0102_0304_0506_0708),
    (41, 0x0000_0900_0000_0000),
    (213, 0x0009_A0F0_0009_61E0),
];

// The ticks of the snapshots, from 3 to 41.
fn ticks() -> [u64; 20]
    ensures { IsStrictlyIncreasing result }
{
    let mut ticks = [0; 20];
    'fill: for k in 0..20 {
        ticks[k] = 2 * k as u64 + 3;
    }
    ticks
}

// The state at the start of the job.
fn opened(rt: &impl Abort, alloc: Global) -> Result<State, Fail> {
    let mut state = blank::opened(alloc)?;
    for (w, word) in &SUM {
        assert!(rt; *w < WORDS);
        state.store(*w, *word);
    }
    Ok(state)
}

// Delays of storage of one tick for each read.
fn one_tick(alloc: Global) -> Result<Delays, Fail> {
    match Delays::new(alloc, &[1]) {
        Ok(delays) => Ok(delays),
        Err(_) => Err(Fail::from(AllocError)),
    }
}

// The signal that comes after six instructions.
fn signal() -> Signal
    ensures { is_signal result ≡ true }
{
    Signal {
        count: 6,
        indicator: 13,
    }
}

// A run on four levels from a state in which nothing has happened.
fn run_at_start<'a>(
    rt: &impl Abort,
    state: State,
    delays: Delays,
    signals: &'a [Signal],
    snaps: &'a [u64],
) -> Run<'a, 4>
    requires signals { AllPass is_signal signals.now }
    requires snaps { IsStrictlyIncreasing snaps.now }
{
    assert!(rt; state.done == 0 && !state.enabled && !state.waiting);
    assert!(rt; state.reader.is_none() && state.printer.is_none());
    let controls = RunControls {
        signals,
        snaps,
        budget: 1000,
    };
    Run::new(state, delays, Hopper::empty(), &controls)
}

// The number of completed instructions at the next snapshot; earlier events are skipped.
fn next_shown(run: &mut Run<4>) -> Option<u64> {
    for _ in 0..9 {
        let told = run.next()?;
        if let RunEvent::Shown(_) = told.event {
            return Some(told.done);
        }
    }
    None
}

// Makes a step of a state, with the signal that comes after it.
fn go(rt: &impl Abort, state: &mut State) {
    assert!(rt; state.done < 15);
    one(state);
    if state.done == 6 {
        state.signal(13);
    }
}

// The state after `done` steps.
fn stepped(rt: &impl Abort, alloc: Global, done: u64) -> Result<State, Fail> {
    let mut state = opened(rt, alloc)?;
    for _ in 0..done {
        go(rt, &mut state);
    }
    Ok(state)
}

// Makes the speculative change of an index word by the next entry.
fn begin(state: &mut State) {
    let mut entry = Prepared::default();
    plan_in(interrupt(state), state, &mut entry);
    if let Some(change) = entry.index {
        state.store(16 + u32::from(change.number), change.word);
    }
}

// Makes a predicted step of a state, which is a step except for the instruction counter.
fn prediction(rt: &impl Abort, state: &mut State, counter: u32) {
    assert!(rt; state.done < 15 && counter < 512);
    one(state);
    state.ic = counter;
}

// Makes the predicted steps of these levels; of the last one only the speculative change.
fn go_ahead(rt: &impl Abort, state: &mut State, levels: &[Option<LevelView>]) {
    if let [Some(_), after @ ..] = levels {
        for level in after {
            if let Some(level) = level {
                prediction(rt, state, level.address);
            }
        }
        begin(state);
    }
}

// Whether a run shows the index words of one state, and everything else that the job uses of
// another.
fn is_split(run: &Run<4>, ahead: &State, state: &State) -> bool {
    let seen = run.seen();
    for w in 0..256 {
        let from = if w >= 16 && w < 32 { ahead } else { state };
        if seen.word(w) != from.word(w) {
            return false;
        }
    }
    (seen.ic(), seen.enabled()) == (state.ic, state.enabled)
}

#[test]
fn shown_states_are_split(rt: HostRuntime) -> Result<(), Fail> {
    let state = opened(&rt, rt.alloc())?;
    let signals = [signal()];
    let snaps = ticks();
    let mut run = run_at_start(&rt, state, one_tick(rt.alloc())?, &signals, &snaps);
    for _ in 0..20 {
        let Some(done) = next_shown(&mut run) else {
            return Err(Fail::new("a snapshot is missing"));
        };
        let state = stepped(&rt, rt.alloc(), done)?;
        let mut ahead = stepped(&rt, rt.alloc(), done)?;
        go_ahead(&rt, &mut ahead, &run.view().levels);
        assert!(rt; is_split(&run, &ahead, &state), "{done}");
    }
    Ok(())
}
