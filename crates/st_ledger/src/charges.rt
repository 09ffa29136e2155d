//! Charges: the ticks that are attributed to the stages of entries (executed instructions). An
//! entry is charged with the ticks after the completion of the entry before it, up to its own;
//! `from` is not in a charge, `to` is. docs/ledger.md has the rules ("Charges"). telling.rt makes
//! the stages of a row; totals.rt and `st_lines` make charges; waits.rt splits them; contracts of
//! `st_account` and `st_tally` name `Stage`.
//!
//! Proved: nothing here, there is no code. `charges` of specs/Charges.antt defines the charges of a
//! row; the law `ChargesFollow` (specs/Laws.antt) says that they have no gap.
//!
//! Pinned, by specs/Charges.antt, docs/ledger.md and vectors/ledger/lines.txt: the order of the
//! stages, which is that of the lines. A new stage needs its place in `parts_of_row` and `stage_at`
//! of specs/Charges.antt, its name in specs/Lines.antt, its total, and a decision in waits.rt
//! whether it has waits. Free: the derived traits.

/// A stage of an entry, in the order in which an entry passes through them.
#[derive(Clone, Copy, Debug, PartialEq, Eq)]
pub enum Stage {
    /// The machine restarts: the ticks up to the start of the segment.
    Restart,
    /// The entry waits for instruction words, or for the bus to finish reads of the row before.
    Instruction,
    /// The entry's address is formed.
    Address,
    /// The entry waits for its index-side word.
    Index,
    /// The entry is prepared.
    Preparing,
    /// The entry waits for operand words.
    Operand,
    /// The entry executes.
    Executing,
}

/// The ticks `from` + 1 to `to`, and the stage that they are charged to.
#[derive(Clone, Copy, Debug, PartialEq, Eq)]
pub struct Charge {
    /// The tick before the first one of the charge.
    pub from: u64,
    /// The last tick of the charge.
    pub to: u64,
    /// The stage.
    pub stage: Stage,
}

/// A stage, with the tick at which it ends.
#[derive(Clone, Copy, Debug, PartialEq, Eq)]
pub struct StagePart {
    /// The stage.
    pub stage: Stage,
    /// The tick at which the stage ends.
    pub end: u64,
}
