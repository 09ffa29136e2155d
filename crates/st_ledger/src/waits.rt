//! Finds the waits in the ticks of a charge (the ticks that one stage of an instruction took): for
//! which word a row waited, and whether for its turn on the bus, for a bank, or for storage.
//! docs/ledger.md has the rules ("Waits"). `st_lines` calls `fill_waits` for each charge, with the
//! words of the row and of the row before it; earlier reads do not matter. A wait has the ticks
//! `from` + 1 to `to`; the last wait comes first in the list.
//!
//! Proved: the list is `charge_waits` of specs/Waits.antt. By the laws `WaitsAreTrue` and
//! `WaitsCoverTheirCharge` (specs/WaitLaws.antt) the waits are true and cover the charge.
//!
//! Pinned, by `charge_waits`, docs/ledger.md and vectors/ledger/reasons.txt: the waits; by the
//! clauses and proofs/waits: room for 514 waits, from 48 words of each row and four instruction
//! words; by `st_lines`, `st_tally` and `st_account`: the types. Free: the recursions, if
//! proofs/waits follows.
ghost use Rattle.std.specs.Prelude.{◌≡◌, ◌+◌, ◌*◌, ◌≤◌, ◌<◌, ◌++◌, List, length, reverse, nat_eq, ◌&&◌};
ghost use Rattle.st_rows.specs.declared.uses.Use.{Use as UseOf};
ghost use Rattle.st_ledger.specs.Words.{is_read as is_read_of, read_of as read_by};
ghost use Rattle.st_ledger.specs.Waits.{wait_piece, acceptance_of as accepted_of, is_accepted_between as is_between_of, turns, read_waits, data_waits, held_waits, bus_waits, fetch_waits, charge_waits};

use crate::charges::{Charge, Stage};
use crate::uses::{decides, is_read, last_use, read_of};
use arrayvec::ArrayVec;
use st_rows::{Role, Supply, Use};

/// The kind of a wait for a word.
#[derive(Clone, Copy, Debug, PartialEq, Eq)]
pub enum Stall {
    /// Another read is accepted on the bus.
    Turn,
    /// The read that is next on the bus waits for its bank.
    Bank,
    /// The word's read is in progress in storage.
    Storage,
}

impl Default for Stall {
    ghost use Rattle.std.specs.Prelude.{◌≡◌};
    ghost use Rattle.st_ledger.specs.declared.waits.Stall.TheVariants.{Turn as FirstStall};

    ghost is_default = { λ stall. stall ≡ FirstStall };

    fn default() -> Stall {
        Stall::Turn
    }
}

/// The ticks `from` + 1 to `to`, in which a row waits for a word.
#[derive(Clone, Copy, Debug, Default, PartialEq, Eq)]
pub struct Wait {
    /// The tick before the first one of the wait.
    pub from: u64,
    /// The last tick of the wait.
    pub to: u64,
    /// The kind of the wait.
    pub why: Stall,
    /// The address of the word that the row waits for.
    pub word: u32,
    /// The address of the word whose read is in progress, is next on the bus, or is accepted.
    pub read: u32,
}

/// An accepted read.
#[derive(Clone, Copy, Debug, Default, PartialEq, Eq)]
pub struct Accepted {
    /// The address of the word that is read.
    pub word: u32,
    /// The tick at which the read was accepted.
    pub tick: u64,
}

/// The waits of a charge, the last one first. The room of 514 is 104 for each of four instruction
/// words (two for each of the three words and 48 words before it, and two of its own) and 98 for
/// the 48 words of the row before.
pub type Waits = ArrayVec<Wait, 514>;

// The ticks `from` + 1 to `to`: those of a charge, or of a part of it.
#[derive(Clone, Copy, Debug, PartialEq, Eq)]
struct Span {
    // The tick before the first one of the span.
    from: u64,
    // The last tick of the span.
    to: u64,
}

// Adds the wait of a span, unless the span is empty.
fn add_piece(waits: &mut Waits, span: Span, why: Stall, word: u32, read: u32)
    requires { length waits.old.items < 514 }
    ensures items { waits.new.items
        ≡ waits.old.items ++ wait_piece span.from span.to why word read }
    ensures room { length waits.new.items ≤ length waits.old.items + 1 }
{
    let Span { from, to } = span;
    if to <= from {
        return;
    }
    waits.push(Wait {
        from,
        to,
        why,
        word,
        read,
    });
}

// The acceptance of a word's read.
fn acceptance(one: &Use) -> Accepted
    ensures { result ≡ accepted_of one.now }
{
    Accepted {
        word: one.word,
        tick: read_of(&one.supply).accept,
    }
}

// Whether a word is read, and its read is accepted at `from` or later and before the tick `before`.
fn is_between(from: u64, before: u64, supply: &Supply) -> bool
    ensures { result ≡ is_between_of from before supply.now }
{
    let accept = read_of(supply).accept;
    is_read(supply) && from <= accept && accept < before
}

// Adds the waits before the acceptance of a read, from tick `from` on, given the reads among some
// words, the last one first. Returns the read that is then next.
fn add_turns(waits: &mut Waits, from: u64, word: u32, next: Accepted, uses: &[Use]) -> Accepted
    requires room { length waits.old.items + 2 * length uses.now ≤ 514 }
    ensures items { (older : List UseOf) →
        waits.new.items ++ turns from word result older
        ≡ waits.old.items ++ turns from word next (reverse uses.now ++ older) }
    ensures room { length waits.new.items ≤ length waits.old.items + 2 * length uses.now }
{
    let Some((last, earlier)) = last_use(uses) else {
        return next;
    };
    if is_between(from, next.tick, &last.supply) {
        let read = acceptance(last);
        let behind = read.tick + 1;
        let at_bank = Span {
            from: behind,
            to: next.tick,
        };
        add_piece(waits, at_bank, Stall::Bank, word, next.word);
        let on_bus = Span {
            from: read.tick,
            to: behind,
        };
        add_piece(waits, on_bus, Stall::Turn, word, last.word);
        return add_turns(waits, from, word, read, earlier);
    }
    add_turns(waits, from, word, next, earlier)
}

// Adds all waits before the acceptance of a read, from tick `from` on, given the earlier words of
// its row and the words of the row before. Most reads are accepted by then and have no such waits.
fn add_all_turns(waits: &mut Waits, from: u64, read: Accepted, earlier: &[Use], before: &[Use])
    requires room { length waits.old.items + 2 * (length earlier.now + length before.now) < 514 }
    ensures items { waits.new.items ≡ waits.old.items
        ++ turns from read.word read (reverse earlier.now ++ reverse before.now) }
    ensures room { length waits.new.items
        ≤ length waits.old.items + 2 * (length earlier.now + length before.now) + 1 }
{
    if read.tick <= from {
        return;
    }
    let here = add_turns(waits, from, read.word, read, earlier);
    let there = add_turns(waits, from, read.word, here, before);
    let at_bank = Span {
        from,
        to: there.tick,
    };
    add_piece(waits, at_bank, Stall::Bank, read.word, there.word);
}

// Adds the waits of a word that is read and is answered at the end of the span.
fn add_read(waits: &mut Waits, span: Span, one: &Use, earlier: &[Use], before: &[Use])
    requires room { length waits.old.items + 2 * (length earlier.now + length before.now) + 2
        ≤ 514 }
    ensures items { waits.new.items ≡ waits.old.items
        ++ read_waits span.from span.to one.now (reverse earlier.now ++ reverse before.now) }
    ensures room { length waits.new.items
        ≤ length waits.old.items + 2 * (length earlier.now + length before.now) + 2 }
{
    let ticks = read_of(&one.supply);
    let on_its_way = Span {
        from: span.from.max(ticks.accept),
        to: span.to,
    };
    add_piece(waits, on_its_way, Stall::Storage, one.word, one.word);
    add_all_turns(
        waits,
        span.from.max(ticks.want),
        acceptance(one),
        earlier,
        before,
    );
}

// Adds the waits of the first word of a role that is answered at the end of the span.
fn add_data(waits: &mut Waits, role: Role, span: Span, uses: &[Use], before: &[Use])
    requires room { length waits.old.items + 2 * (length uses.now + length before.now) + 2 ≤ 514 }
    ensures items { waits.new.items ≡ waits.old.items
        ++ data_waits role span.from span.to (reverse before.now) (reverse uses.now) }
{
    let Some((last, earlier)) = last_use(uses) else {
        return;
    };
    if decides(role, span.to, last, earlier) {
        add_read(waits, span, last, earlier, before);
        return;
    }
    add_data(waits, role, span, earlier, before);
}

// Whether a use is a read of the word with this address and is answered at tick `t`.
fn is_read_at(word: u32, t: u64, one: &Use) -> bool
    ensures { result ≡ (is_read_of one.now.supply
        && (nat_eq one.now.word word && nat_eq (read_by one.now.supply).answer t)) }
{
    is_read(&one.supply) && one.word == word && read_of(&one.supply).answer == t
}

// Adds the waits of an instruction word that is held and answered at the end of the span, given the
// words of the row before.
fn add_held(waits: &mut Waits, span: Span, word: u32, before: &[Use])
    requires room { length waits.old.items + 2 * length before.now + 2 ≤ 514 }
    ensures items { waits.new.items ≡ waits.old.items
        ++ held_waits span.from span.to word (reverse before.now) }
    ensures room { length waits.new.items ≤ length waits.old.items + 2 * length before.now + 2 }
{
    let Some((last, earlier)) = last_use(before) else {
        add_piece(waits, span, Stall::Storage, word, word);
        return;
    };
    if is_read_at(word, span.to, last) {
        add_read(waits, span, last, &[], earlier);
        return;
    }
    add_held(waits, span, word, earlier);
}

// Adds the waits before the acceptance of the last read of the row before, if that is accepted at
// the end of the span.
fn add_bus(waits: &mut Waits, span: Span, before: &[Use])
    requires room { length waits.old.items + 2 * length before.now + 2 ≤ 514 }
    ensures items { waits.new.items ≡ waits.old.items
        ++ bus_waits span.from span.to (reverse before.now) }
    ensures room { length waits.new.items ≤ length waits.old.items + 2 * length before.now + 2 }
{
    let Some((last, earlier)) = last_use(before) else {
        return;
    };
    if !is_read(&last.supply) {
        add_bus(waits, span, earlier);
        return;
    }
    let ticks = read_of(&last.supply);
    if ticks.accept == span.to {
        add_all_turns(
            waits,
            span.from.max(ticks.want),
            acceptance(last),
            &[],
            earlier,
        );
    }
}

// Adds the waits of instruction words: of the first one that is answered at the end of the span,
// and before its want those of the words before it.
fn add_fetches(waits: &mut Waits, span: Span, words: &[Use], before: &[Use])
    requires words { length words.now ≤ 4 }
    requires before { length before.now ≤ 48 }
    requires room { length waits.old.items + 104 * length words.now + 98 ≤ 514 }
    ensures items { waits.new.items ≡ waits.old.items
        ++ fetch_waits span.from span.to (reverse before.now) (reverse words.now) }
{
    let Some((last, earlier)) = last_use(words) else {
        add_bus(waits, span, before);
        return;
    };
    if !decides(Role::Instruction, span.to, last, earlier) {
        add_fetches(waits, span, earlier, before);
        return;
    }
    if !is_read(&last.supply) {
        add_held(waits, span, last.word, before);
        return;
    }
    add_read(waits, span, last, earlier, before);
    let until_wanted = Span {
        from: span.from,
        to: read_of(&last.supply).want,
    };
    add_fetches(waits, until_wanted, earlier, before);
}

/// Fills a list with the waits of a charge of a row that uses the words `uses`; `before` are the
/// words of the row before it in its segment, none for the first row of a segment. The previous
/// contents are overwritten.
#[inline(always)]
pub fn fill_waits(waits: &mut Waits, charge: Charge, uses: &[Use], before: &[Use])
    requires uses { length uses.now ≤ 48 }
    requires before { length before.now ≤ 48 }
    ensures { waits.new.items ≡ charge_waits charge uses.now before.now }
{
    waits.clear();
    let span = Span {
        from: charge.from,
        to: charge.to,
    };
    match charge.stage {
        Stage::Instruction => add_fetches(waits, span, &uses[..uses.len().min(4)], before),
        Stage::Index => add_data(waits, Role::Index, span, uses, before),
        Stage::Operand => add_data(waits, Role::Operand, span, uses, before),
        Stage::Restart | Stage::Address | Stage::Preparing | Stage::Executing => {}
    }
}
