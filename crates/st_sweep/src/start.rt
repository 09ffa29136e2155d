//! Machines before their first instruction, and the ticks of their runs, without reports, for the
//! command `sweep`. docs/timetable.md has the rules ("One to eight levels"). sweeping.rt makes two
//! groups of four machines, and so allocates all memory before the first run; then each run is made
//! in turn. Ticks are those of the last completion, 0 if there is none.
//!
//! Proved: the ticks are `ticks_from` of specs/Starts.antt, for the delays and signals of the job
//! and each number of levels. Not proved: that `pass_entries`, which skips completions, saves time.
//!
//! Pinned, by `ticks_from`: the reader is empty, and there are no snapshots. Free: the grouping in
//! fours; a number of levels is a parameter of a type, so each number has its own call.
ghost use Rattle.std.specs.Prelude.{◌≡◌, ◌≤◌, ◌<◌, ◌^◌, ℕ, [], ◌∷◌, length, IfOk, IfSome, MatchOption};
ghost use Rattle.std.specs.List.{AllPass};
ghost use Rattle.st_bits.specs.Storage.{IsImage};
ghost use Rattle.st_bits.specs.declared.limits.TheConstants.{LONGEST_LIST, MOST_INSTRUCTIONS};
ghost use Rattle.st_card.specs.Limits.{is_signal};
ghost use Rattle.st_sweep.specs.Starts.{ticks_from, start_of_image, last_told};
ghost use Rattle.st_sweep.specs.SideBySide.{four_of};

use st_banks::Delays;
use st_bits::NoMemory;
use st_card::Signal;
use st_exch::Hopper;
use st_run::{Run, RunControls};
use st_state::State;
use std::alloc::Global;
use std::marker::Model;

// A machine before its first entry.
#[derive(Drop)]
pub(crate) struct Start {
    // The initial state.
    state: State,
    // The delays of reads, in ticks.
    delays: Delays,
}

// Contracts see the state and the list of delays. `IsFreshStart`: no instruction has completed,
// interrupts are disabled, the machine does not wait, and no device has an order.
impl Model for Start {
    ghost use Rattle.st_sweep.specs.Starts.{Start, IsFreshStart};

    ghost Value = { Start };

    ghost view = { λ s. record { machine = s.state; delays = s.delays.list } };

    ghost invariant = { λ s. IsFreshStart s.state };
}

impl Start {
    /// The machine with this image (all words of storage, its register words 0), start (a half-word
    /// address) and delays (1 to 4,096 of them, in ticks). The only error is a failed allocation;
    /// no later call allocates.
    pub fn new(alloc: Global, image: &[u64], start: u32, delays: &[u8]) -> Result<Start, NoMemory>
        requires image { IsImage image.now }
        requires counter { start < 2 ^ 19 }
        requires some { 1 ≤ length delays.now }
        requires few { length delays.now ≤ LONGEST_LIST }

        ensures { IfOk result (λ s. s ≡ start_of_image image.now start delays.now) }
    {
        let Ok(delays) = Delays::new(alloc, delays) else {
            return Err(NoMemory);
        };
        let state = State::new(alloc, image, start)?;
        Ok(Start { state, delays })
    }
}

// The tick of the next event of a run, or of the last of the completions that are skipped; None if
// the run is over.
fn next_tick<const N: usize>(run: &mut Run<'_, N>) -> Option<u64>
    ensures told { MatchOption result (run.old.rest ≡ [])
        (λ tick. (t : ℕ) → last_told t run.old.rest ≡ last_told tick run.new.rest) }
    ensures fewer { IfSome result (λ tick. length run.new.rest < length run.old.rest) }
{
    if let Some(row) = run.pass_entries() {
        return Some(row.c);
    }
    match run.next() {
        Some(told) => Some(told.tick),
        None => None,
    }
}

// The tick of the last completion of a run on N levels, 0 if there is none. `budget` is the
// greatest number of instructions. The label of the loop serves only its proof.
fn ticks<const N: usize>(start: Start, signals: &[Signal], budget: u64) -> u64
    requires some { 1 ≤ N }
    requires few { N ≤ 8 }
    requires signals { AllPass is_signal signals.now }
    requires some_done { 1 ≤ budget }
    requires few_done { budget ≤ MOST_INSTRUCTIONS }

    ensures { result ≡ ticks_from start N budget signals.now }
{
    let Start { state, delays } = start;
    let controls = RunControls {
        signals,
        snaps: &[],
        budget,
    };
    let mut run = Run::<N>::new(state, delays, Hopper::empty(), &controls);
    let mut tick = 0;
    'run: while let Some(next) = next_tick(&mut run) {
        tick = next;
    }
    tick
}

// Four machines before their first entry.
#[derive(Drop)]
pub(crate) struct Four {
    first: Start,
    second: Start,
    third: Start,
    fourth: Start,
}

impl Four {
    /// Four copies of a machine. The only error is a failed allocation.
    pub fn new(alloc: Global, image: &[u64], start: u32, delays: &[u8]) -> Result<Four, NoMemory>
        requires image { IsImage image.now }
        requires counter { start < 2 ^ 19 }
        requires some { 1 ≤ length delays.now }
        requires few { length delays.now ≤ LONGEST_LIST }

        ensures { IfOk result (λ f. f ≡ four_of (start_of_image image.now start delays.now)) }
    {
        Ok(Four {
            first: Start::new(alloc, image, start, delays)?,
            second: Start::new(alloc, image, start, delays)?,
            third: Start::new(alloc, image, start, delays)?,
            fourth: Start::new(alloc, image, start, delays)?,
        })
    }
}

// The ticks of runs on one to four levels.
pub(crate) fn ticks_on_few(four: Four, signals: &[Signal], budget: u64) -> [u64; 4]
    requires signals { AllPass is_signal signals.now }
    requires some_done { 1 ≤ budget }
    requires few_done { budget ≤ MOST_INSTRUCTIONS }
    ensures { let xs = signals.now in
        result ≡ ticks_from four.first 1 budget xs ∷ ticks_from four.second 2 budget xs
        ∷ ticks_from four.third 3 budget xs ∷ ticks_from four.fourth 4 budget xs ∷ [] }
{
    let Four {
        first,
        second,
        third,
        fourth,
    } = four;
    [
        ticks::<1>(first, signals, budget),
        ticks::<2>(second, signals, budget),
        ticks::<3>(third, signals, budget),
        ticks::<4>(fourth, signals, budget),
    ]
}

// The ticks of runs on five to eight levels.
pub(crate) fn ticks_on_many(four: Four, signals: &[Signal], budget: u64) -> [u64; 4]
    requires signals { AllPass is_signal signals.now }
    requires some_done { 1 ≤ budget }
    requires few_done { budget ≤ MOST_INSTRUCTIONS }
    ensures { let xs = signals.now in
        result ≡ ticks_from four.first 5 budget xs ∷ ticks_from four.second 6 budget xs
        ∷ ticks_from four.third 7 budget xs ∷ ticks_from four.fourth 8 budget xs ∷ [] }
{
    let Four {
        first,
        second,
        third,
        fourth,
    } = four;
    [
        ticks::<5>(first, signals, budget),
        ticks::<6>(second, signals, budget),
        ticks::<7>(third, signals, budget),
        ticks::<8>(fourth, signals, budget),
    ]
}
