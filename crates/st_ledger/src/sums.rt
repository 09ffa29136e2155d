//! The ticks of waits, by stage and by kind of wait, in a whole run. docs/ledger.md has the rules
//! ("Waits"). `st_lines` adds the waits of each charge and writes the sums at the end; `st_account`
//! and `st_tally` keep the totals. Only three stages wait for words (instruction, index, operand),
//! and an index-side word never waits for a turn, so there are eight sums.
//!
//! Proved: each sum grows by the ticks of its waits (`sums`, by specs/Sums.antt), and none exceeds
//! the tick, so none overflows (`within`, `AreWaitsWithin`). By the law `WaitSumsAddUp`
//! (specs/Laws.antt of `st_causes`) the sums of a stage add up to its charges.
//!
//! Pinned, by `wait_sums_by` of specs/Sums.antt, docs/ledger.md and vectors/ledger/lines.txt: the
//! sums and their order, that of the lines. A new kind of wait needs a field of `Shares`, its arm
//! in `add_one`, and its sums in `wait_sums_by`. Free: the recursion, if proofs/sums follows.
ghost use Rattle.std.specs.Prelude.{◌≡◌, ◌+◌, ◌-◌, ◌≤◌, ◌<◌, ◌^◌, true, if◌then◌else◌};
ghost use Rattle.st_ledger.specs.declared.charges.Stage.{Stage as StageOf};
ghost use Rattle.st_ledger.specs.Charges.{is_stage};
ghost use Rattle.st_ledger.specs.declared.waits.Stall.{Stall as StallOf};
ghost use Rattle.st_ledger.specs.Sums.{is_stall, stalled_for, all_stalled, share_at, AreWaitsWithin, is_parted, waited_at, wait_sums_by};

use crate::charges::{Charge, Stage};
use crate::waits::{Stall, Wait};

/// The ticks of waits, by kind of wait.
#[derive(Clone, Copy, Debug, Default, PartialEq, Eq)]
pub struct Shares {
    /// The ticks of waits for a turn on the bus.
    pub turn: u64,
    /// The ticks of waits for a bank.
    pub bank: u64,
    /// The ticks in which reads were in progress.
    pub storage: u64,
}

/// The ticks of the waits of charges, by stage.
#[derive(Clone, Copy, Debug, Default, PartialEq, Eq)]
pub struct WaitTotals {
    /// The waits for instruction words.
    pub instruction: Shares,
    /// The waits for index-side words.
    pub index: Shares,
    /// The waits for operand words.
    pub operand: Shares,
}

impl Shares {
    // Adds the ticks of a wait.
    fn add_one(&mut self, wait: &Wait)
        requires turn { self.old.turn + (wait.now.to - wait.now.from) < 2 ^ 64 }
        requires bank { self.old.bank + (wait.now.to - wait.now.from) < 2 ^ 64 }
        requires storage { self.old.storage + (wait.now.to - wait.now.from) < 2 ^ 64 }
        ensures sums { (s : StallOf) → share_at s self.new ≡ share_at s self.old
            + (if is_stall s wait.now.why then wait.now.to - wait.now.from else 0) }
    {
        let ticks = wait.to.saturating_sub(wait.from);
        match wait.why {
            Stall::Turn => self.turn += ticks,
            Stall::Bank => self.bank += ticks,
            Stall::Storage => self.storage += ticks,
        }
    }

    // Adds the ticks of several waits.
    fn add(&mut self, waits: &[Wait])
        requires turn { self.old.turn + all_stalled waits.now < 2 ^ 64 }
        requires bank { self.old.bank + all_stalled waits.now < 2 ^ 64 }
        requires storage { self.old.storage + all_stalled waits.now < 2 ^ 64 }
        ensures sums { (s : StallOf) → share_at s self.new
            ≡ share_at s self.old + stalled_for s waits.now }
    {
        let Some((wait, more)) = waits.split_first() else {
            return;
        };
        self.add_one(wait);
        self.add(more);
    }
}

impl WaitTotals {
    /// Adds the waits of a charge, which have at most as many ticks as the charge. No total may be
    /// greater than the tick at which the charge begins.
    #[inline(always)]
    pub fn add(&mut self, charge: Charge, waits: &[Wait])
        requires within { AreWaitsWithin charge.from self.old }
        requires few { charge.from + all_stalled waits.now ≤ charge.to }
        ensures within { AreWaitsWithin charge.to self.new }
        ensures sums { (r : StageOf) (s : StallOf) → is_parted r ≡ true →
            waited_at r s self.new ≡ waited_at r s self.old
            + (if is_stage r charge.stage then stalled_for s waits.now else 0) }
    {
        match charge.stage {
            Stage::Instruction => self.instruction.add(waits),
            Stage::Index => self.index.add(waits),
            Stage::Operand => self.operand.add(waits),
            Stage::Restart | Stage::Address | Stage::Preparing | Stage::Executing => {}
        }
    }
}

/// The ticks of one kind of wait in a stage, in the whole run.
#[derive(Clone, Copy, Debug, PartialEq, Eq)]
pub struct WaitSum {
    /// The stage.
    pub stage: Stage,
    /// The kind of wait.
    pub why: Stall,
    /// Its ticks.
    pub ticks: u64,
}

// The total of one kind of wait in a stage as a `WaitSum`.
fn made_sum(stage: Stage, why: Stall, ticks: u64) -> WaitSum
    ensures { result ≡ record { stage = stage; why = why; ticks = ticks } }
{
    WaitSum { stage, why, ticks }
}

/// The totals in the order of their lines.
pub fn wait_sums(totals: &WaitTotals) -> [WaitSum; 8]
    ensures { result ≡ wait_sums_by (λ r s. waited_at r s totals.now) }
{
    let (first, side, data) = (&totals.instruction, &totals.index, &totals.operand);
    [
        made_sum(Stage::Instruction, Stall::Turn, first.turn),
        made_sum(Stage::Instruction, Stall::Bank, first.bank),
        made_sum(Stage::Instruction, Stall::Storage, first.storage),
        made_sum(Stage::Index, Stall::Bank, side.bank),
        made_sum(Stage::Index, Stall::Storage, side.storage),
        made_sum(Stage::Operand, Stall::Turn, data.turn),
        made_sum(Stage::Operand, Stall::Bank, data.bank),
        made_sum(Stage::Operand, Stall::Storage, data.storage),
    ]
}
