//! A second machine that repeats the run of the first by itself, and whose last steps can be
//! undone: the machine of `/BACK k`, the request for the state k instructions (1 to 64) before the
//! end. docs/report.md describes `/BACK` ("Stepping back").
//!
//! execution.rt creates it with room for k steps (the depth of `Back` of `st_back`), and
//! reporting.rt runs it after the report and shows the state. Its steps are plain: one instruction
//! after the other, without the levels and ticks of the first machine. It takes the signals and
//! cards of the job; prints are discarded.
//!
//! Proved: after `run_beside` the machine is where the run ended, and after `rewind` in the state
//! that many steps before (specs/Beside.antt, specs/StepsBack.antt).
//!
//! Pinned, by `IsKept` of specs/Beside.antt: a card is undone with the step before it. Pinned, by
//! docs/report.md: 1 to 64 steps. Free: that the run is made twice; the three loops, if
//! proofs/beside follows.
ghost use Rattle.std.specs.Prelude.{
  ◌≡◌,
  ◌+◌,
  ◌<◌,
  ◌≤◌,
  ◌^◌,
  ℕ,
  [],
  ◌∷◌,
  ◌++◌,
  false,
  take,
  length,
  IsSome,
  IfSome,
};
ghost use Rattle.st_bits.specs.Storage.{words_of_storage};
ghost use Rattle.st_bits.specs.declared.limits.TheConstants.{MOST_INSTRUCTIONS};
ghost use Rattle.st_run.specs.Run as run;
ghost use Rattle.st_exec.specs.Transfer.{all_stored, read_in as read_in_of};
ghost use Rattle.st_exec.specs.Step.{rests};
ghost use Rattle.st_back.specs.Steps.{states_before};
ghost use Rattle.st_top.specs.Beside.{IsFreshStep, IsBesideReady, IsBesideAtStart, IsMoved, IsStepped, IsBeside, HasMadeRun, StandsAtStart, StandsAtEnd};

use st_back::Back;
use st_bits::indicators::{END_EXCEPTION, END_OF_OPERATION};
use st_card::Signal;
use st_exch::Hopper;
use st_exec::is_at_rest;
use st_run::between::between;
use st_run::{ExternalEvents, PendingEvents};
use st_state::State;
use std::marker::Model;

/// A machine with its last steps recorded, so that they can be undone. Its prints are discarded.
#[derive(Drop)]
pub struct Noted {
    /// The state of the machine.
    pub state: State,
    /// Its last steps, at most as many as the depth of the ring buffer: the number of steps that
    /// `/BACK` requests, 1 to 64. After fewer instructions all steps are there.
    pub steps: Back,
}

/// A second machine with its external events: signals, and cards of the reader.
#[derive(Drop)]
pub struct MachineBeside<'a> {
    // The machine and its last steps.
    noted: Noted,
    // The signals and cards that are still to come.
    pending: PendingEvents<'a>,
}

// Contracts see a pair: the machine with its external events, and the recorded steps.
impl<'a> Model for MachineBeside<'a> {
    ghost use Rattle.st_top.specs.Beside.{Beside};

    ghost Value = { Beside };

    ghost view = { λ p. (
      record {
        machine = p.noted.state;
        signals = p.pending.signals;
        cards = p.pending.cards;
      },
      p.noted.steps,
    ) };
}

impl<'a> MachineBeside<'a> {
    ghost use Rattle.std.specs.List.{AllPass};
    ghost use Rattle.st_card.specs.Limits.{is_signal};

    /// A second machine with this state, these external events, and these recorded steps. Each
    /// signal has a count of at most 10,000,000 instructions and an indicator 0 to 13.
    pub fn new(state: State, signals: &'a [Signal], cards: Hopper, steps: Back) -> MachineBeside<'a>
        requires { AllPass is_signal signals.now }
        ensures scene { result.0 ≡ record {
          machine = state;
          signals = signals.now;
          cards = cards;
        } }
        ensures steps { result.1 ≡ steps }
    {
        MachineBeside {
            noted: Noted { state, steps },
            pending: PendingEvents::new(signals, cards),
        }
    }

    /// The state of the second machine.
    pub fn state(&self) -> &State
        ensures { result.now ≡ self.now.0.machine }
    {
        &self.noted.state
    }
}

// Writes the words of a card to the eight words from the word address `w`, and records each with
// the newest step. Words below 32 are registers, which no card changes: the area of a reader's
// order begins at 32 or above, by the invariant of the state. `IsFreshStep`: there is a newest
// step, and no word was put since; it has room for eight words. The states that steps back restore
// (`states_before`) do not change.
fn put_card(steps: &mut Back, machine: &mut State, w: u32, card: &[u64; 8])
    requires above { 32 ≤ w }
    requires inside { w + 8 ≤ words_of_storage }
    requires fresh { IsFreshStep steps.old.kept }

    ensures state { machine.new ≡ all_stored machine.old w card.now }
    ensures depth { steps.new.depth ≡ steps.old.depth }
    ensures states { states_before steps.new.kept machine.new
        ≡ states_before steps.old.kept machine.old }
{
    for k in 0..8 {
        steps.put(machine, w + k, card[k as usize]);
    }
}

// The reader's order takes effect as in `st_exec::read_in`, and the words of the card are recorded.
// The reader must have an order, and there must be room for a card (`IsFreshStep`). Without a card
// the order is removed, and the indicator of the end of the cards is turned on.
fn read_noted(steps: &mut Back, machine: &mut State, card: Option<[u64; 8]>)
    requires order { IsSome machine.old.reader }
    requires fresh { IsFreshStep steps.old.kept }
    ensures state { IfSome machine.old.reader
        (λ order. machine.new ≡ read_in_of machine.old order.word card) }
    ensures depth { steps.new.depth ≡ steps.old.depth }
    ensures states { states_before steps.new.kept machine.new
        ≡ states_before steps.old.kept machine.old }
{
    let Some(order) = machine.reader else {
        unreachable!()
    };
    machine.reader = None;
    let Some(card) = card else {
        machine.signal(END_EXCEPTION);
        return;
    };
    put_card(steps, machine, order.word, &card);
    machine.signal(END_OF_OPERATION);
}

impl ExternalEvents for Noted {
    ghost use Rattle.std.specs.Prelude.{refl};
    ghost use Rattle.st_top.specs.Beside.{IsOpen, IsKept};
    ghost use Rattle.st_top.specs.BesideLaws.{kept-both};

    // The plain state of the machine.
    ghost state = { λ n. n.state };

    // An event may come: the depth is 1 to 64, and if the reader has an order, there is a newest
    // step since which no word was put.
    ghost is_open = { IsOpen };

    // An event keeps the depth and the states that steps back restore, and the machine open.
    ghost leaves = { IsKept };

    // The three laws that the trait requires: no event changes nothing, an event keeps the machine
    // open, and two events in turn are one.
    ghost leaves_same = { λ _. (refl, refl, λ now. now) };

    ghost stays_open = { λ _ _ _ kept now. kept.2 now };

    ghost leaves_both = { kept-both };

    fn state(&self) -> &State {
        &self.state
    }

    fn signal(&mut self, indicator: u8) {
        self.state.signal(indicator);
    }

    fn read_in(&mut self, card: Option<[u64; 8]>) {
        read_noted(&mut self.steps, &mut self.state, card);
    }

    fn print_out(&mut self) -> [u64; 8] {
        st_exec::print_out(&mut self.state)
    }

    // A wait ends nothing here: only an overlapped machine has a segment to end.
    fn rest(&mut self) {}
}

// Makes the transition between two steps: the due signals and orders, and the events that may end a
// wait. Prints are discarded. `IsBesideReady` is `is_open` of the machine; `IsMoved`: afterwards it
// is ready, in the scene (state, signals and cards) of the definition, and steps back restore the
// same states.
fn pass_interlude(second: &mut MachineBeside)
    requires { IsBesideReady second.old }
    ensures { IsMoved second.old second.new (run.interlude second.old.0).scene }
{
    between(&mut second.noted, &mut second.pending);
}

// Makes the next step of a machine that is not at rest, and records it. `IsStepped`: afterwards the
// machine is in the next scene of the plain run, and steps back also restore the state before,
// up to the depth. `few` keeps the count of instructions in its 63 bits.
fn step(second: &mut MachineBeside)
    requires few { second.old.0.machine.done < 2 ^ 63 }
    requires ready { IsBesideReady second.old }
    ensures { rests second.old.0.machine ≡ false → IsStepped second.old second.new }
{
    second.noted.steps.forth(&mut second.noted.state);
}

// Runs to the end: at rest, or with the budget used up. `budget` is a number of instructions, at
// most 10,000,000. At the start no instruction is complete and the machine is ready
// (`IsBesideAtStart`); at the end it has made the whole run (`HasMadeRun`). The loop has its label
// for its proof only.
fn run_to_end(second: &mut MachineBeside, budget: u64)
    requires start { IsBesideAtStart second.old }
    requires limit { budget ≤ MOST_INSTRUCTIONS }
    ensures end { (depth : ℕ) → IsBeside depth second.old [] →
        HasMadeRun depth budget second.old.0 second.new }
    ensures ready { IsBesideReady second.new }
{
    let mut left = budget;
    'running: loop {
        pass_interlude(second);
        if is_at_rest(second.state()) {
            return;
        }
        if left == 0 {
            return;
        }
        step(second);
        left -= 1;
    }
}

/// Runs the second machine to the end, if there is one: at rest, or with the budget used up.
/// `budget` is the number of instructions that the job requests at most, that of the first run.
/// There is a second machine if and only if steps back are requested; `back` in the clause is their
/// number.
pub fn run_beside(second: &mut Option<MachineBeside>, budget: u64)
    requires start { IfSome second.old IsBesideAtStart }
    requires limit { budget ≤ MOST_INSTRUCTIONS }
    ensures end { (back : ℕ) (start : run.Scene) → StandsAtStart back start second.old
        → StandsAtEnd back budget start second.new }
    ensures ready { IfSome second.new IsBesideReady }
{
    if let Some(second) = second.as_mut() {
        run_to_end(second, budget);
    }
}

// Undoes all recorded steps: the state becomes the oldest that steps back restore, or stays if
// there is none.
fn undo_all(steps: &mut Back, machine: &mut State)
    ensures { machine.new ∷ [] ≡ take 1
        (states_before steps.old.kept machine.old ++ machine.old ∷ []) }
{
    let count = steps.len();
    for _ in 0..count {
        steps.back(machine);
    }
}

/// Undoes all recorded steps, the newest first, and returns their number: the requested one, or the
/// number of completed instructions if that is less; at most 64.
pub fn rewind(second: &mut MachineBeside) -> u8
    requires { IsBesideReady second.old }
    ensures count { result ≡ length second.old.1.kept }
    ensures state { second.new.0.machine ∷ [] ≡ take 1
        (states_before second.old.1.kept second.old.0.machine ++ second.old.0.machine ∷ []) }
{
    let count = second.noted.steps.len() as u8;
    undo_all(&mut second.noted.steps, &mut second.noted.state);
    count
}
