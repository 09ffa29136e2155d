//! The tables of a run, for `ledger sums`: the rows and ticks of each card and of each reason, and
//! a few counts. docs/ledger.md has the rules ("Totals and tables"). `st_account` makes `Tables`,
//! adds each row, and writes the totals of all rows and the lines.
//!
//! Proved: the tables are the sums over the rows that were added (`IsTally` in specs/Tally.antt),
//! the lines are `table_lines` of specs/TallyLines.antt, and specs/Laws.antt says that cards and
//! headings share the rows (`CardsShareTheRows` and others). That the rows are those of the run is
//! the law `TablesHaveTheRowsOfTheRun` of `st_causes` (specs/Laws.antt there).
//!
//! Pinned, by the proofs of `st_account`, docs/ledger.md and vectors/ledger/sums.txt: `new`, `add`,
//! `stage_totals`, `wait_totals` and `write` with their clauses. Free: the modules are private.
#![tactic(auto)]

mod headings;
mod lines;
mod tables;
mod totals;
mod writing;

pub use headings::Heading;
pub use tables::{CardSum, ReasonSum, Tables};
