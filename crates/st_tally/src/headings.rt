//! The headings under which the tables of a run count rows by their reason, for the lines `REASON`.
//! docs/ledger.md has the table ("Totals and tables"). tables.rt finds the heading of each row;
//! lines.rt and writing.rt write its name and its line. No other crate uses them.
//!
//! Proved: `heading_at` is the definition of its name in specs/Headings.antt, none for a row
//! without a line BECAUSE; `place` is `heading_number` of that file. The headings share all rows
//! that have a reason: law `HeadingsShareTheRowsWithReasons` in specs/Laws.antt.
//!
//! Pinned, by `headings` of specs/Headings.antt and vectors/ledger/sums.txt: the eleven headings
//! and their order, which is that of the lines. `all_headings` of writing.rt repeats it. A new
//! `Reason` or `StallCause` of `st_ledger`, or a new `Why` of `st_lines`, needs its heading here
//! and in specs/Headings.antt. Free: the split into functions.
ghost use Rattle.std.specs.Prelude.{◌≡◌, ◌<◌};
ghost use Rattle.st_tally.specs.Headings.{heading_number, heading_of_start as start_heading, heading_of_reason as reason_heading, heading_of as heading_by, heading_at as heading_for};

use st_ledger::{Reason, StallCause};
use st_lines::{EntryDone, Why};

/// The reason of a row; the start of its segment by why the segment begins.
#[derive(Clone, Copy, Debug, PartialEq, Eq)]
pub enum Heading {
    /// The run begins.
    Run,
    /// An interrupt is taken.
    Interrupt,
    /// A branch on an indicator was mispredicted.
    Missed,
    /// The reader read a card into storage.
    Card,
    /// The row before completed, and that row or this one is serialized.
    Serial,
    /// A row completed that wrote one of the instruction words.
    Store,
    /// A row completed whose level this row takes over.
    Level,
    /// A row completed that wrote the index-side word.
    Forwarding,
    /// The row before made reads, the last of which was accepted before those of this row.
    Bus,
    /// An earlier row requested one of the instruction words.
    Prefetch,
    /// The row before was prepared.
    Order,
}

/// The number of headings.
pub(crate) const HEADINGS: usize = 11;

impl Heading {
    /// The position of the heading in the order of the lines.
    pub(crate) fn place(self) -> usize
        ensures value { result ≡ heading_number self }
        ensures inside { result < 11 }
    {
        match self {
            Heading::Run => 0,
            Heading::Interrupt => 1,
            Heading::Missed => 2,
            Heading::Card => 3,
            Heading::Serial => 4,
            Heading::Store => 5,
            Heading::Level => 6,
            Heading::Forwarding => 7,
            Heading::Bus => 8,
            Heading::Prefetch => 9,
            Heading::Order => 10,
        }
    }
}

// The heading of a row whose cause is the start of its segment.
fn heading_of_start(why: Why) -> Heading
    ensures { result ≡ start_heading why }
{
    match why {
        Why::Run => Heading::Run,
        Why::Interrupt(_) => Heading::Interrupt,
        Why::Mispredicted => Heading::Missed,
        Why::Card => Heading::Card,
    }
}

// The heading of a row that an earlier row delayed.
fn heading_of_reason(reason: Reason) -> Heading
    ensures { result ≡ reason_heading reason }
{
    match reason {
        Reason::Serial => Heading::Serial,
        Reason::Store => Heading::Store,
        Reason::Level => Heading::Level,
        Reason::Forwarding => Heading::Forwarding,
        Reason::Bus => Heading::Bus,
        Reason::Order => Heading::Order,
    }
}

// The heading of a cause, given why the row's segment begins.
fn heading_of(why: Why, because: &StallCause) -> Heading
    ensures { result ≡ heading_by why because.now }
{
    match because {
        StallCause::Start(_) => heading_of_start(why),
        StallCause::Prefetch(_) => Heading::Prefetch,
        StallCause::Earlier(cause) => heading_of_reason(cause.reason),
    }
}

/// The heading of a completed entry, given why its segment begins; `None` if no cause delayed it.
#[tactic(auto, unfolding(crate::specs::Headings::heading_at))]
pub(crate) fn heading_at(why: Why, done: &EntryDone) -> Option<Heading>
    ensures { result ≡ heading_for why done.now }
{
    if done.before < done.row.ticks.r {
        Some(heading_of(why, &done.because))
    } else {
        None
    }
}
