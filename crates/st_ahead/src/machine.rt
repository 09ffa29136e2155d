//! The overlapped machine, which prepares instructions ahead, and the calls that drive it: a tick,
//! then a decision, with signals and orders of devices between them. docs/inside.md has the
//! protocol, and each clause `requires` is a part of it. `st_run` drives it, and `st_calls` tests
//! it. Ticks count from 0 and are below 2^63; 1 to 8 levels are a parameter of the type, and delays
//! are those of `new`.
//!
//! Proved: every call gives the abstract machine that specs/Calls.antt defines from the one before,
//! so no result depends on the fields here. Laws of all runs of calls are in specs/Laws.antt of
//! `st_refine`.
//!
//! Pinned: the order of decisions (interrupt, wait, misprediction, continuation), by `answer` there
//! and docs/machine.md; the protocol, by the clauses `requires`, docs/inside.md and `st_run`. Free:
//! the fields, as long as `IsInside` of specs/Inside.antt holds of them, and the bodies, if
//! proofs/machine follows.
ghost use Rattle.std.specs.Prelude.{◌≡◌, ◌<◌, ◌≤◌, ◌^◌, false, is_some, IsSome, IfSome, None, Some, option_map, get_or, length};
ghost use Rattle.st_bits.specs.Indicators.{IsIndicatorIfAny};

use crate::committed::CommittedState;
use crate::events::{Event, Halt, LevelView, Row, Settled, View};
use crate::lookahead::Lookahead;
use crate::lookahead_run::Limits;
use crate::phase::{Decision, Phase};
use crate::row_queue::RowQueue;
use st_banks::{Delays, LastAnswers};
use st_exec::is_at_rest;
use st_prep::place_of;
use st_ring::SpecRing;
use st_state::{State, counter_in, done_in};
use std::marker::Model;

/// A machine with N levels, 1 to 8, over storage whose reads take the given delays. Each `tick`
/// owes a decision: `settle`, `go_on` or `stop`. After `stop` no call that changes the machine is
/// allowed. No call allocates. `docs/timetable.md` has the rules, `docs/inside.md` the calls.
#[derive(Drop)]
pub struct Machine<const N: usize> {
    delays: Delays,
    committed: CommittedState,
    // The predicted counter, if a branch was mispredicted at this tick.
    mispredicted: Option<u32>,
    // The next tick if the machine is ready for it, or else the last one.
    now: u64,
    phase: Phase,
    lookahead: Lookahead<N>,
}

// The view is the abstract state of the machine.
impl<const N: usize> Model for Machine<N> {
    ghost use Rattle.st_ahead.specs.Overlap.{Overlap};
    ghost use Rattle.st_ahead.specs.Inside.{overlap_of, IsInside};

    ghost Value = { Overlap };

    ghost view = { λ a. overlap_of N a.delays.list a.committed.state a.committed.taken a.mispredicted a.now
        a.phase a.lookahead };

    ghost invariant = { λ a. IsInside (overlap_of N a.delays.list a.committed.state a.committed.taken
        a.mispredicted a.now a.phase a.lookahead) a.lookahead };
}

impl<const N: usize> Machine<N> {
    ghost use Rattle.st_state.specs.Machine.{IsMachine};
    ghost use Rattle.st_exec.specs.Step.{rests};
    ghost use Rattle.st_ahead.specs.Overlap.{Ready, Ticked, Ended, has_ended as has_ended_at, machine_at_start, interrupt_due as interrupt_due_of};
    ghost use Rattle.st_ahead.specs.Decided.{IsDecision};
    ghost use Rattle.st_ahead.specs.Calls.{IsEvent, machine_after_tick, drop_count, machine_after_segment, run_ended, answer, machine_after_settling, machine_after_pass, signalled_by, MaySettle, MaySignal, MayServe, read_in_by, dropped_by, printed_by};
    ghost use Rattle.st_exec.specs.Transfer.{read_in as read_in_of, words_from};
    ghost use Rattle.st_ahead.specs.Overlap.{last_tick_made as last_tick_of};
    ghost use Rattle.st_ahead.specs.Shown.{AreLevelsOf, lent_index_words, view_at_tick};
    ghost use Rattle.st_ahead.specs.RunTo.{RunsTo, is_quiet};
    ghost use Rattle.st_ahead.specs.RowsDone.{queue_with, rows_in_ticks, ticks_passed};

    /// A machine before its first tick. Interrupts are disabled, and the state is not waiting.
    pub fn new(state: State, delays: Delays) -> Machine<N>
        requires some { 1 ≤ N }
        requires few { N ≤ 8 }
        requires enabled { state.enabled ≡ false }
        requires waiting { state.waiting ≡ false }

        // The machine at its start; the state is valid.
        ensures value { result ≡ machine_at_start delays.list N state }
        ensures machine { IsMachine state }
    {
        let lookahead = Lookahead::new(&state, None, LastAnswers::new(), 0);
        Machine {
            delays,
            committed: CommittedState { state, taken: None },
            mispredicted: None,
            now: 0,
            phase: Phase::Ready,
            lookahead,
        }
    }

    /// Makes one tick, the first of which is tick 0: the oldest entry completes if its C is this
    /// tick, and operands arrive. Before the call no decision is owed, and the number of the tick
    /// and that of the completed instructions are below 2^63.
    pub fn tick(&mut self) -> Event
        requires settled { self.old.phase ≡ Ready }
        requires tick { self.old.now < 2 ^ 63 }
        requires done { self.old.state.done < 2 ^ 63 }
        ensures event { IsEvent self.old result }
        ensures after { self.new ≡ machine_after_tick self.old }
    {
        let now = self.now;
        let done = self.lookahead.tick(&mut self.committed.state, now);
        let number = done_in(&self.committed.state);
        let Some(done) = done else {
            self.phase = Phase::Ticked;
            return Event::Passed;
        };
        self.committed.taken = None;
        self.mispredicted = done.mispredicted;
        self.phase = Phase::Completed;
        Event::Done(Row {
            number,
            address: done.address,
            p: done.p,
            r: done.r,
            c: now,
        })
    }

    /// Makes ticks as repeated calls of `tick` and `settle` do, until an entry completes after
    /// which an event is possible: `count` instructions are completed, an order is due, or `settle`
    /// would not answer `Goes`. Returns the row of this entry, and whether no order is due and
    /// `settle` would answer `Goes`; its decision is left owed. If there is no such entry up to the
    /// tick `last`, that tick is settled too, and the result is None. The rows of earlier
    /// completions are appended to `rows`, if there is room. Before the call no decision is owed;
    /// `last` and the number of completed instructions are below 2^63, and `count` is at most 2^63.
    pub fn run_to(&mut self, count: u64, last: u64, rows: &mut RowQueue) -> Option<Halt>
        requires settled { self.old.phase ≡ Ready }
        requires count { count ≤ 2 ^ 63 }
        requires last { last < 2 ^ 63 }
        requires done { self.old.state.done < 2 ^ 63 }

        // The ticks that are made, what is known of the decision, and the rows that are queued.
        ensures runs { RunsTo count last (option_map (λ h. h.row) result) self.old self.new }
        ensures quiet { IfSome result (λ h. h.quiet ≡ is_quiet self.new) }
        ensures rows { rows.new ≡ queue_with (rows_in_ticks (ticks_passed last self.old.now
            (option_map (λ h. h.row.c) result)) self.old) rows.old }
    {
        let now = self.now;
        if now > last {
            return None;
        }
        let limits = Limits { count, last };
        let stop = self
            .lookahead
            .run_to(limits, &mut self.committed, rows, &self.delays);
        let number = done_in(&self.committed.state);
        let Some(stop) = stop else {
            self.now = last + 1;
            return None;
        };
        self.mispredicted = stop.done.mispredicted;
        self.phase = Phase::Completed;
        self.now = stop.tick;
        let row = Row {
            number,
            address: stop.done.address,
            p: stop.done.p,
            r: stop.done.r,
            c: stop.tick,
        };
        Some(Halt {
            row,
            quiet: stop.quiet,
        })
    }

    /// Decides after the last tick: an interrupt is taken; or the machine waits, and the decision
    /// is still owed; or a mispredicted branch ends the segment; or the machine continues. A
    /// decision is owed, and the run has not ended.
    pub fn settle(&mut self) -> Settled
        requires turn { MaySettle self.old }
        ensures answer { result ≡ answer self.old }
        ensures after { self.new ≡ machine_after_settling self.old }
    {
        match self.decision() {
            Decision::Interrupt(indicator) => self.interrupt(indicator),
            Decision::Waits => {
                self.end();
                Settled::Waits
            }
            Decision::Mispredicted => {
                let dropped = self.end();
                self.pass();
                Settled::Mispredicted { dropped }
            }
            Decision::Goes => {
                self.go_on();
                Settled::Goes
            }
        }
    }

    /// Continues after the last tick, as `settle` does if it answers `Goes`: no interrupt is due,
    /// the machine is not at rest, and no branch was mispredicted. A decision is owed, and the run
    /// has not ended.
    pub fn go_on(&mut self)
        requires turn { MaySettle self.old }
        requires due { interrupt_due_of self.old ≡ None }
        requires goes { rests self.old.state ≡ false }
        requires right { self.old.mispredicted ≡ None }

        ensures { self.new ≡ machine_after_pass self.old }
    {
        if self.has_ended() {
            self.pass();
            return;
        }
        let now = self.now;
        self.lookahead
            .go_on(now, &self.committed.state, &self.delays);
        self.phase = Phase::Ready;
        self.now += 1;
    }

    // The decision after the last tick. If no entry completed at it, the machine continues.
    fn decision(&self) -> Decision
        requires turn { MaySettle self.now }
        ensures { IsDecision self.entry.now result }
    {
        if self.phase == Phase::Ticked {
            return Decision::Goes;
        }
        if let Some(indicator) = self.interrupt_due() {
            return Decision::Interrupt(indicator);
        }
        if is_at_rest(&self.committed.state) {
            return Decision::Waits;
        }
        if self.is_mispredicted() {
            return Decision::Mispredicted;
        }
        Decision::Goes
    }

    // Whether the segment has ended at the last tick.
    fn has_ended(&self) -> bool
        ensures { result ≡ has_ended_at self.entry.now.phase }
    {
        matches!(self.phase, Phase::Ended | Phase::Stopped)
    }

    // The indicator whose interrupt is taken before the next entry, if there is one.
    fn interrupt_due(&self) -> Option<u8>
        ensures value { result ≡ interrupt_due_of self.entry.now }
        ensures bound { IsIndicatorIfAny result }
    {
        if self.committed.taken.is_some() {
            return None;
        }
        st_exec::interrupt(&self.committed.state)
    }

    // Whether a branch was mispredicted at this tick.
    fn is_mispredicted(&self) -> bool
        ensures { result ≡ is_some self.entry.now.mispredicted }
    {
        self.mispredicted.is_some()
    }

    // Ends the segment at this tick, which completed an entry, unless it has already ended. Returns
    // the number of flushed levels.
    fn end(&mut self) -> u8
        requires turn { MayServe self.old }
        ensures dropped { result ≡ drop_count self.old }
        ensures after { self.new ≡ machine_after_segment self.old }
    {
        if self.has_ended() {
            return 0;
        }
        let now = self.now;
        let dropped = self.lookahead.end(&self.committed.state, None, now);
        self.phase = Phase::Ended;
        dropped
    }

    // Takes the interrupt of this indicator, which is due.
    fn interrupt(&mut self, indicator: u8) -> Settled
        requires turn { MayServe self.old }
        requires due { interrupt_due_of self.old ≡ Some indicator }
        requires known { indicator < 64 }

        ensures answer { result ≡ answer self.old }
        ensures after { self.new ≡ machine_after_settling self.old }
    {
        let dropped = self.end();
        let place = place_of(&self.committed.state, Some(indicator));
        let done = done_in(&self.committed.state);
        let ic = counter_in(&self.committed.state);
        self.lookahead.stand(place);
        self.committed.taken = Some(indicator);
        self.mispredicted = None;
        self.phase = Phase::Ready;
        self.now += 1;
        Settled::Interrupt {
            indicator,
            done,
            ic,
            dropped,
        }
    }

    // Settles a tick at which the segment has ended, no interrupt is due, and the machine is not at
    // rest.
    fn pass(&mut self)
        requires ended { self.old.phase ≡ Ended }
        requires due { interrupt_due_of self.old ≡ None }
        requires goes { rests self.old.state ≡ false }

        ensures { self.new ≡ machine_after_pass self.old }
    {
        self.mispredicted = None;
        self.phase = Phase::Ready;
        self.now += 1;
    }

    /// Turns on the indicator `i`, 0 to 13: before the first tick, or after a tick that completed
    /// an entry, while its decision is owed. The run has not ended.
    pub fn signal(&mut self, i: u8)
        requires known { i ≤ 13 }
        requires turn { MaySignal self.old }
        ensures { self.new ≡ signalled_by i self.old }
    {
        self.committed.state.signal(i);
    }

    /// Ends the run, and with it the segment, at a tick whose decision is owed. Returns the number
    /// of flushed levels. After `stop` no call that changes the machine is allowed.
    pub fn stop(&mut self) -> u8
        requires turn { MaySettle self.old }
        ensures dropped { result ≡ drop_count self.old }
        ensures after { self.new ≡ run_ended self.old }
    {
        if self.phase == Phase::Ticked {
            self.give_up()
        } else {
            let dropped = self.end();
            self.phase = Phase::Stopped;
            dropped
        }
    }

    // Ends the run, and with it the segment, at a tick that completed no entry. Returns the number
    // of flushed levels.
    fn give_up(&mut self) -> u8
        requires none { self.old.phase ≡ Ticked }
        ensures dropped { result ≡ drop_count self.old }
        ensures after { self.new ≡ run_ended self.old }
    {
        let now = self.now;
        let dropped = self
            .lookahead
            .give_up(&self.committed.state, self.committed.taken, now);
        self.phase = Phase::Stopped;
        dropped
    }

    /// The reader's order, which must exist, takes effect: with the next card, which ends the
    /// segment, or without one. An entry completed at the last tick, whose decision is owed.
    /// Returns the number of flushed levels.
    pub fn read_in(&mut self, card: Option<[u64; 8]>) -> u8
        requires order { IsSome self.old.state.reader }
        requires turn { MayServe self.old }
        ensures dropped { result ≡ dropped_by card self.old }
        ensures after { IfSome self.old.state.reader (λ order. self.new
            ≡ read_in_by order.word card self.old) }
    {
        let Some(words) = card else {
            self.read_nothing();
            return 0;
        };
        let dropped = self.end();
        self.store_card(words);
        dropped
    }

    // The reader's order takes effect without a card.
    fn read_nothing(&mut self)
        requires order { IsSome self.old.state.reader }
        requires turn { MayServe self.old }
        ensures { IfSome self.old.state.reader (λ order. self.new
            ≡ read_in_by order.word None self.old) }
    {
        st_exec::read_in(&mut self.committed.state, None);
    }

    // The reader's order takes effect with a card; the segment has ended.
    fn store_card(&mut self, card: [u64; 8])
        requires order { IsSome self.old.state.reader }
        requires turn { MayServe self.old }
        requires ended { self.old.phase ≡ Ended }
        ensures { IfSome self.old.state.reader (λ order.
            self.new ≡ record self.old {
              state = read_in_of self.old.state order.word
                  (Some card);
            }) }
    {
        st_exec::read_in(&mut self.committed.state, Some(card));
    }

    /// The printer's order, which must exist, takes effect. An entry completed at the last tick,
    /// whose decision is owed. Returns the eight words of the order.
    pub fn print_out(&mut self) -> [u64; 8]
        requires order { IsSome self.old.state.printer }
        requires turn { MayServe self.old }
        ensures words { IfSome self.old.state.printer (λ order. result
            ≡ words_from self.old.state order.word 8) }
        ensures after { self.new ≡ printed_by self.old }
    {
        st_exec::print_out(&mut self.committed.state)
    }

    /// The levels, oldest first.
    pub fn ring(&self) -> &SpecRing<N>
        ensures levels { AreLevelsOf self.entry.now result.now }
        ensures few { length result.now ≤ 8 }
    {
        self.lookahead.ring()
    }

    /// The index words with the speculative changes of all levels.
    pub fn index(&self) -> &[u64; 16]
        ensures { result.now ≡ lent_index_words self.entry.now }
    {
        self.lookahead.index()
    }

    /// The view of the machine.
    pub fn view(&self) -> View
        ensures { result ≡ view_at_tick self.entry.now }
    {
        View {
            tick: self.last_tick(),
            done: self.done(),
            x: *self.index(),
            levels: [
                self.level(0),
                self.level(1),
                self.level(2),
                self.level(3),
                self.level(4),
                self.level(5),
                self.level(6),
                self.level(7),
            ],
        }
    }

    // The last tick made, 0 before the first one.
    fn last_tick(&self) -> u64
        ensures { result ≡ last_tick_of self.entry.now }
    {
        if self.phase != Phase::Ready {
            return self.now;
        }
        if self.now == 0 { 0 } else { self.now - 1 }
    }

    // The number of completed instructions.
    fn done(&self) -> u64
        ensures { result ≡ self.entry.now.state.done }
    {
        done_in(&self.committed.state)
    }

    // The view of level k, where level 0 is the oldest; None if there is no level k.
    fn level(&self, k: usize) -> Option<LevelView>
        ensures value { result ≡ get_or (view_at_tick self.entry.now).levels k None }
        ensures eight { length (view_at_tick self.entry.now).levels ≡ 8 }
    {
        let tick = self.last_tick();
        self.lookahead.level(k, tick)
    }

    /// The committed state.
    pub fn state(&self) -> &State
        ensures { result.now ≡ self.entry.now.state }
    {
        &self.committed.state
    }
}
