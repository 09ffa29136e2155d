//! A whole run of a job on the overlapped machine, event by event: the interface of this crate for
//! reports and sweeps. docs/timetable.md has the rules of ticks, docs/report.md the lines.
//!
//! `st_top`, `st_sweep` and tests make a `Run`. `st_telling` calls `next` or `next_row` for lines,
//! and `pass_entries` where completions have none; `st_sweep` needs only ticks. The run shows its
//! state, its levels and the last printed text until the next call. Budgets are 1 to 10,000,000
//! instructions.
//!
//! Proved, by the clauses `rest` and `told`: the events are `reported_events` of `timed_run`
//! (specs/TimedRun.antt), for all delays and 1 to 8 levels; by the clauses `led`: the machine is
//! used within its protocol. So the three ways to ask give equal events.
//!
//! Pinned, by these clauses and the theorem of `st_top` (docs/THEOREM.md): the events and their
//! order. Free: everything that `IsUnderWay` of specs/Progress.antt allows.
ghost use Rattle.std.specs.Prelude.{◌≡◌, ◌≤◌, false, None, [], ◌∷◌, MatchOption, All};
ghost use Rattle.std.specs.List.{AllPass};
ghost use Rattle.std.specs.List.Sorted.{IsStrictlyIncreasing};
ghost use Rattle.st_bits.specs.declared.limits.TheConstants.{MOST_INSTRUCTIONS};
ghost use Rattle.st_card.specs.Limits.{is_signal};
ghost use Rattle.st_ahead.specs.Overlap.{machine_at_start};
ghost use Rattle.st_ahead.specs.Shown.{view_at_tick};
ghost use Rattle.st_refine.specs.Reached.{IsCard, IsLed, IsLedOn};
ghost use Rattle.st_run.specs.ReportedEvents.{reported_events};
ghost use Rattle.st_run.specs.TimedRun.{timed_run};
ghost use Rattle.st_run.specs.Telling.{state_told, told_as, row_told, AreLeftOut, AreLevelsShown};

use crate::driven::{Driven, due_signals, view_of};
use crate::output_queue::OutputQueue;
use crate::pending::PendingEvents;
use crate::progress::Progress;
use crate::run_events::TimedRunEvent;
use crate::run_phase::RunPhase;
use crate::seen::StateView;
use crate::teller::{Teller, next_of, next_row_of, pass_over};
use arrayvec::ArrayString;
use st_ahead::{Machine, Row, RowQueue, View};
use st_banks::Delays;
use st_card::Signal;
use st_exch::Hopper;
use st_state::State;
use std::marker::Model;

/// The parameters of a run from control cards.
#[derive(Clone, Copy)]
pub struct RunControls<'a> {
    /// The signals, in order.
    pub signals: &'a [Signal],
    /// The ticks of the snapshots, in increasing order.
    pub snaps: &'a [u64],
    /// The budget: the greatest number of instructions, 1 to 10,000,000.
    pub budget: u64,
}

/// A run on a machine with N levels, 1 to 8, as an iterator over its events: completions, flushed
/// entries, printed texts, interrupts, snapshots, and the end. No call allocates. The machine is
/// created from the delays, N levels and the initial state, and the run uses it only by calls
/// within the protocol. `docs/timetable.md` has the rules.
#[derive(Drop)]
pub struct Run<'a, const N: usize> {
    teller: Teller<'a, N>,
}

// Contracts see the remaining events, and the state that is shown.
impl<'a, const N: usize> Model for Run<'a, N> {
    ghost use Rattle.std.specs.Prelude.{◌≡◌};
    ghost use Rattle.st_run.specs.Telling.{Telling, state_told, ahead_of};
    ghost use Rattle.st_run.specs.Progress.{IsUnderWay, rest_with_rows};

    ghost Value = { Telling };

    ghost view = { λ r. record {
      rest = rest_with_rows r.teller;
      machine = r.teller.progress.driven.machine;
      seen = state_told r.teller.progress.driven.machine;
      ahead = ahead_of r.teller.progress.driven.machine;
      text = r.teller.progress.printed.bytes;
    } };

    ghost invariant = { λ r. IsUnderWay r.teller.progress × (r.teller.rows.room ≡ 0) };
}

impl<'a, const N: usize> Run<'a, N> {
    ghost use Rattle.std.specs.List.{AllPass};
    ghost use Rattle.std.specs.List.Sorted.{IsStrictlyIncreasing};
    ghost use Rattle.st_card.specs.Limits.{is_signal};
    ghost use Rattle.st_ahead.specs.Overlap.{machine_at_start};
    ghost use Rattle.st_ahead.specs.Shown.{view_at_tick};
    ghost use Rattle.st_refine.specs.Reached.{IsCard, IsLed, IsLedOn};
    ghost use Rattle.st_run.specs.ReportedEvents.{reported_events};
    ghost use Rattle.st_run.specs.TimedRun.{timed_run};
    ghost use Rattle.st_run.specs.Telling.{state_told, told_as, row_told, AreLeftOut, AreLevelsShown};

    /// A run from an initial state, with the reader's cards, and the parameters from control cards.
    /// No instruction has completed, interrupts are disabled, the machine does not wait, and no
    /// device has an order. Each card has eight words, each signal a count of at most 10,000,000
    /// and an indicator 0 to 13.
    pub fn new(
        state: State,
        delays: Delays,
        cards: Hopper,
        controls: &RunControls<'a>,
    ) -> Run<'a, N>
        requires some { 1 ≤ N }
        requires few { N ≤ 8 }
        requires done { state.done ≡ 0 }
        requires enabled { state.enabled ≡ false }
        requires waiting { state.waiting ≡ false }
        requires reader { state.reader ≡ None }
        requires printer { state.printer ≡ None }
        requires cards { All IsCard cards }
        requires signals { AllPass is_signal controls.now.signals.now }
        requires snaps { IsStrictlyIncreasing controls.now.snaps.now }
        requires some_done { 1 ≤ controls.now.budget }
        requires few_done { controls.now.budget ≤ MOST_INSTRUCTIONS }

        ensures rest { let k = controls.now in result.rest
            ≡ reported_events (timed_run delays.list N k.budget
            (record { machine = state; signals = k.signals.now; cards = cards }) k.snaps.now) }

        // The machine is created from these delays, N levels and this state.
        ensures led { IsLed (machine_at_start delays.list N state) result.machine }
    {
        let RunControls {
            signals,
            snaps,
            budget,
        } = *controls;
        let mut machine = Machine::new(state, delays);
        let rest = due_signals(&mut machine, signals);
        let pending = PendingEvents::new(rest, cards);
        let driven = Driven { machine, pending };
        let queue = OutputQueue::new();
        let progress = Progress {
            driven,
            snaps,
            left: budget - 1,
            tick: 0,
            queue,
            printed: ArrayString::new(),
            turn: RunPhase::Before,
        };
        Run {
            teller: Teller {
                progress,
                rows: RowQueue::new(),
            },
        }
    }

    /// The next event; `None` if and only if the run is over.
    pub fn next(&mut self) -> Option<TimedRunEvent>
        ensures told { MatchOption result (self.old.rest ≡ []) (λ t. self.old.rest
            ≡ told_as t self.new.seen self.new.ahead self.new.text ∷ self.new.rest) }
        ensures led { IsLedOn self.old.machine self.new.machine }
    {
        next_of(&mut self.teller)
    }

    /// Skips completions up to the next event of another kind, as that many calls of `next` would.
    /// Returns the row of the last completion. Returns None if another kind of event is next, or
    /// may be because snapshots remain.
    pub fn pass_entries(&mut self) -> Option<Row>
        ensures told { MatchOption result (self.new.rest ≡ self.old.rest)
            (λ row. AreLeftOut row self.old.rest self.new.rest) }
        ensures led { IsLedOn self.old.machine self.new.machine }
    {
        pass_over(&mut self.teller)
    }

    /// The next event if it is a completion, as its row. May return None while snapshots remain.
    pub fn next_row(&mut self) -> Option<Row>
        ensures told { MatchOption result (self.new.rest ≡ self.old.rest) (λ row. self.old.rest
            ≡ row_told row ∷ self.new.rest) }
        ensures led { IsLedOn self.old.machine self.new.machine }
    {
        next_row_of(&mut self.teller)
    }

    /// The state that is shown: the state of the machine with the index words of the entries in
    /// flight.
    pub fn seen(&self) -> StateView<'_>
        ensures seen { result ≡ self.entry.now.seen }
        ensures machine { result ≡ state_told self.entry.now.machine }
    {
        StateView::with_index(
            self.teller.progress.driven.machine.state(),
            self.teller.progress.driven.machine.index(),
        )
    }

    /// The view of the machine, with its levels.
    pub fn view(&self) -> View
        ensures levels { AreLevelsShown result.levels self.entry.now.ahead }
        ensures machine { result ≡ view_at_tick self.entry.now.machine }
    {
        view_of(&self.teller.progress.driven)
    }

    /// The text that was printed last.
    pub fn printed(&self) -> &ArrayString<64>
        ensures { result.now.bytes ≡ self.now.text }
    {
        &self.teller.progress.printed
    }
}
