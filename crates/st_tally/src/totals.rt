//! The totals of a run as the sums over all of its slots: those of the cards, and the one of rows
//! whose card has no place. Each row was added to one of them (tables.rt). `st_account` (running.rt)
//! calls both methods at the end of a run, before it writes the lines SUM.
//!
//! Proved: if the tables are those of some rows (`IsTally` in specs/Tally.antt), the totals are
//! `stage_ticks` and `wait_ticks` of all these rows. No sum overflows, since all slots together are
//! within the ticks so far (`AreTablesWithin` in specs/Slots.antt).
//!
//! Pinned, by docs/ledger.md ("Totals and tables"): the lines SUM are over all rows. Free: the
//! bodies.
ghost use Rattle.std.specs.Prelude.{◌≡◌, ◌^◌, true, List};
ghost use Rattle.st_ledger.specs.Totals.{sum_at as ticks_at};
ghost use Rattle.st_ledger.specs.Sums.{waited_at, is_parted};
ghost use Rattle.st_ledger.specs.declared.charges.Stage.{Stage};
ghost use Rattle.st_ledger.specs.declared.waits.Stall.{Stall};
ghost use Rattle.st_tally.specs.Slots.{AreTablesWithin, CanAddTotals, CanAddShares, CanAddWaits, both_totals, both_shares, both_waits};
ghost use Rattle.st_tally.specs.Tally.{TalliedRow, stage_ticks, wait_ticks, IsTally};

use crate::tables::{Tables, sum_at};
use st_ledger::{Shares, Totals, WaitTotals};

// Adds the ticks by stage of a slot.
fn add_stages(sums: &mut Totals, more: &Totals)
    requires { CanAddTotals sums.old more.now }
    ensures { sums.new ≡ both_totals sums.old more.now }
{
    sums.restart += more.restart;
    sums.instruction += more.instruction;
    sums.address += more.address;
    sums.index += more.index;
    sums.preparing += more.preparing;
    sums.operand += more.operand;
    sums.executing += more.executing;
}

// Adds the ticks of waits in a stage.
fn add_shares(shares: &mut Shares, more: &Shares)
    requires { CanAddShares shares.old more.now }
    ensures { shares.new ≡ both_shares shares.old more.now }
{
    shares.turn += more.turn;
    shares.bank += more.bank;
    shares.storage += more.storage;
}

// Adds the ticks of waits of a slot.
fn add_found(waits: &mut WaitTotals, more: &WaitTotals)
    requires { CanAddWaits waits.old more.now }
    ensures { waits.new ≡ both_waits waits.old more.now }
{
    add_shares(&mut waits.instruction, &more.instruction);
    add_shares(&mut waits.index, &more.index);
    add_shares(&mut waits.operand, &more.operand);
}

impl Tables {
    /// The ticks of all rows by stage. All slots together may have at most 2^63.
    pub fn stage_totals(&self) -> Totals
        requires { AreTablesWithin (2 ^ 63) self.now }
        ensures { (xs : List TalliedRow) (s : Stage) → IsTally xs self.now →
            ticks_at s result ≡ stage_ticks s xs }
    {
        let mut sums = self.others.sums;
        let mut k = 0;
        'cards: while k < self.cards.len() {
            add_stages(&mut sums, &sum_at(&self.cards, k).sums);
            k += 1;
        }
        sums
    }

    /// The ticks of the waits of all rows. All slots together may have at most 2^63.
    pub fn wait_totals(&self) -> WaitTotals
        requires { AreTablesWithin (2 ^ 63) self.now }
        ensures { (xs : List TalliedRow) (r : Stage) (s : Stall) → is_parted r ≡ true →
            IsTally xs self.now → waited_at r s result ≡ wait_ticks r s xs }
    {
        let mut waits = self.others.waits;
        let mut k = 0;
        'cards: while k < self.cards.len() {
            add_found(&mut waits, &sum_at(&self.cards, k).waits);
            k += 1;
        }
        waits
    }
}
