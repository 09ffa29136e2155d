//! One job on eight machines, run in sequence, and once more as a plain run to find hazards.
//! docs/timetable.md has the rules.
//!
//! Only `st_top` calls `sweep`, besides tests. It passes the image (98,304 words), the start (a
//! half-word address), delays (ticks), signals and the budget (instructions). The only error is a
//! failed allocation, which comes before any run.
//!
//! Proved: the result is `side_by_side` of specs/SideBySide.antt (clause `value`), and if the run
//! is hazard-free the ticks do not rise from one to eight levels (clause `levels`).
//!
//! Pinned, by `side_by_side`: eight numbers in this order, and an empty reader. Pinned, by the
//! proofs of `st_top`: both clauses and the fields of `SweptJob` and `Swept`. Free: the order of
//! the runs.
ghost use Rattle.std.specs.Prelude.{◌≡◌, ◌<◌, ◌≤◌, ◌^◌, true, length, All, IfOk};
ghost use Rattle.std.specs.List.{AllPass};
ghost use Rattle.st_bits.specs.Storage.{IsImage};
ghost use Rattle.st_bits.specs.declared.limits.TheConstants.{LONGEST_LIST, MOST_INSTRUCTIONS};
ghost use Rattle.st_card.specs.Limits.{is_signal};
ghost use Rattle.st_state.specs.Machine.{opening_state};
ghost use Rattle.st_sweep.specs.Sweep.{without_cards};
ghost use Rattle.st_sweep.specs.SideBySide.{side_by_side, AreNotRising};

use crate::hazards::{are_equal, both, run_plain};
use crate::start::{Four, ticks_on_few, ticks_on_many};
use crate::written::WrittenWords;
use st_bits::NoMemory;
use st_card::Signal;
use st_state::State;
use std::alloc::Global;

/// The job of a sweep. Its reader is empty.
#[derive(Clone, Copy)]
pub struct SweptJob<'a> {
    /// The image: all 98,304 words of storage, of which the register words are 0.
    pub image: &'a [u64],
    /// The half-word address at which the program starts.
    pub start: u32,
    /// The delays of reads, 1 to 4,096 of them, each from 1 to 255 ticks.
    pub delays: &'a [u8],
    /// The signals, in order; each has a count of at most 10,000,000 and an indicator 0 to 13.
    pub signals: &'a [Signal],
    /// The budget: the greatest number of instructions, 1 to 10,000,000.
    pub budget: u64,
}

/// The result of a sweep: the run on machines of one to eight levels.
#[derive(Clone, Copy, Debug, PartialEq, Eq)]
pub struct Swept {
    /// The tick of the last completion on each machine, the one with one level first; 0 if there is
    /// none.
    pub ticks: [u64; 8],
    /// The count of completed instructions.
    pub done: u64,
    /// Whether the run is hazard-free: all delays are equal; no interrupt is taken, no branch on an
    /// indicator is mispredicted, and a wait only ends the run; and no instruction has an
    /// index-side word or an operand word that an earlier one writes.
    pub hazard_free: bool,
}

/// Runs a job on machines of one to eight levels, in sequence. The only error is a failed
/// allocation; all memory is allocated before the first instruction. `docs/timetable.md` has the
/// rules.
pub fn sweep(alloc: Global, job: &SweptJob<'_>) -> Result<Swept, NoMemory>
    requires image { IsImage job.now.image.now }
    requires counter { job.now.start < 2 ^ 19 }
    requires some_delays { 1 ≤ length job.now.delays.now }
    requires few_delays { length job.now.delays.now ≤ LONGEST_LIST }
    requires delays { All (λ d. 1 ≤ d) job.now.delays.now }
    requires signals { AllPass is_signal job.now.signals.now }
    requires some_done { 1 ≤ job.now.budget }
    requires few_done { job.now.budget ≤ MOST_INSTRUCTIONS }

    ensures value { IfOk result (λ r. r
        ≡ side_by_side job.now.delays.now job.now.budget
        (without_cards (opening_state job.now.image.now job.now.start) job.now.signals.now)) }
    ensures levels { IfOk result (λ r. r.hazard_free ≡ true → AreNotRising r.ticks) }
{
    let SweptJob {
        image,
        start,
        delays,
        signals,
        budget,
    } = *job;
    let few = Four::new(alloc, image, start, delays)?;
    let many = Four::new(alloc, image, start, delays)?;
    let mut state = State::new(alloc, image, start)?;
    let mut written = WrittenWords::new(alloc)?;
    let found = run_plain(&mut state, signals, &mut written, budget);
    let [one, two, three, four] = ticks_on_few(few, signals, budget);
    let [five, six, seven, eight] = ticks_on_many(many, signals, budget);
    Ok(Swept {
        ticks: [one, two, three, four, five, six, seven, eight],
        done: found.done,
        hazard_free: both(are_equal(delays), found.hazard_free),
    })
}
