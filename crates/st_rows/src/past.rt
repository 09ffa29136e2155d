//! The recent entries (instructions) of a segment, which a flush ends: when they complete, and the
//! words that they write. The next entry awaits their completion or takes words from them, and
//! takes over the level of one of them. docs/timetable.md has the rules.
//!
//! issue.rt, fetching.rt and reading.rt ask for the latest writer of a word; `st_plain` and
//! `st_ledger` ask for the ledger. watch.rt calls `latest_back`. Words below 32 are registers.
//!
//! Proved: the answers are `latest_done` and `done_before` of the list of the last eight entries
//! (specs/Entries.antt, specs/Rows.antt), as the clauses of these calls say.
//!
//! Pinned, by `put`, docs/timetable.md and the largest number of levels (timing.rt): eight entries.
//! Older ones do not matter (law `OlderEntriesDecideNothing` in specs/Laws.antt). Free: the bits
//! and bounds, which only save searches, as long as `IsEntryRing` keeps them true.
ghost use Rattle.std.specs.Prelude.{◌≡◌, ◌∷◌, ℕ, ◌+◌, ◌<◌, ◌≤◌, ◌^◌, take, replicate, true, false, if◌then◌else◌};
ghost use Rattle.st_rows.specs.Entries.{no_runs, is_in, is_outside, has_words, no_entry as no_entry_of, latest_done as latest_done_of};
ghost use Rattle.st_rows.specs.Rows.{done_before as done_before_of};
ghost use Rattle.st_rows.specs.Supplies.{writer_back};

use crate::entry::{WordRun, WordRuns};
use st_bits::register::FIRST_STORAGE_WORD;
use std::marker::Model;
use std::snapshot::Snapshot;

/// The data of an earlier entry of the segment that the timetable keeps.
#[derive(Clone, Copy, Debug, Default, PartialEq, Eq)]
pub struct Past {
    /// The tick at which it completes; 0 if there was no such entry.
    pub c: u64,
    /// The words that it writes.
    pub writes: WordRuns,
}

// The number of entries that are kept.
const KEPT: usize = 8;

/// The last eight entries of the segment. Contracts see them as a list, newest first.
#[derive(Drop)]
pub struct LastEntries {
    // A ring: the newest entry is at `head`, older ones follow, wrapping around the end.
    done: [Done; KEPT],
    // The words that each entry writes, in the same places; if it writes none, any words.
    writes: [WordRuns; KEPT],
    head: usize,
    // One bit per entry, the lowest for the newest: whether the entry writes any word.
    writers: u64,
    // Bounds of all words from 32 up that entries of the segment write.
    bounds: Bounds,
}

// A completed entry.
#[derive(Drop)]
struct Done {
    // The tick at which it completes.
    c: u64,
    // The entry, which only clauses read.
    entry: Snapshot<Past>,
}

// The words from `low` up, below `high`.
#[derive(Clone, Copy, Debug)]
struct Bounds {
    low: u64,
    high: u64,
}

// Contracts see the entries, newest first.
impl Model for LastEntries {
    ghost use Rattle.std.specs.Prelude.{List};
    ghost use Rattle.st_fetch.specs.Queue.{window};
    ghost use Rattle.st_rows.specs.Entries.{entries_in, ticks_in, IsEntryRing};
    ghost use Rattle.st_rows.specs.declared.past.Past.{Past as Entry};

    ghost Value = { List Entry };

    ghost view = { λ last. window last.head 8 (entries_in last.done) };

    ghost invariant = { λ last. IsEntryRing last.head (entries_in last.done) (ticks_in last.done)
        last.writes last.writers last.bounds.low last.bounds.high };
}

impl Default for LastEntries {
    ghost is_default = { λ last. last ≡ replicate 8 (record { c = 0; writes = no_runs }) };

    fn default() -> LastEntries {
        LastEntries::new()
    }
}

impl LastEntries {
    /// The history before the first entry.
    pub fn new() -> LastEntries
        ensures { result ≡ replicate 8 (record { c = 0; writes = no_runs }) }
    {
        LastEntries {
            done: [
                no_entry(),
                no_entry(),
                no_entry(),
                no_entry(),
                no_entry(),
                no_entry(),
                no_entry(),
                no_entry(),
            ],
            writes: [WordRuns::default(); KEPT],
            head: 0,
            writers: 0,
            bounds: Bounds {
                low: u64::MAX,
                high: 0,
            },
        }
    }

    /// Adds an entry as the newest one, and keeps the seven before it.
    pub fn put(&mut self, newest: Past)
        ensures { self.new ≡ newest ∷ take 7 self.old }
    {
        self.head = (self.head + KEPT - 1) % KEPT;
        put_done(&mut self.done[self.head], &newest);
        self.writers = self.writers % 128 * 2;
        let place = &mut self.writes[self.head];
        keep_words(place, &mut self.writers, &mut self.bounds, newest.writes);
    }

    /// The completion tick of the `n`th previous entry, n from 1 to 8; 0 if there was none.
    pub fn done_before(&self, n: usize) -> u64
        requires { (1 ≤ n) × (n ≤ 8) }
        ensures { result ≡ done_before_of n self.now }
    {
        self.done[(self.head + n - 1) % KEPT].c
    }

    /// The completion tick of the latest of these entries that writes the word `w`, from 32 up; 0
    /// if none does.
    pub fn latest_done(&self, w: u32) -> u64
        requires storage { 32 ≤ w }
        ensures { result ≡ latest_done_of self.now w }
    {
        if lies_outside(self.bounds, w) {
            return 0;
        }
        self.latest_writer(w)
    }

    // The completion tick of the latest writer of the word `w`, without a test of the bounds.
    fn latest_writer(&self, w: u32) -> u64
        ensures { result ≡ latest_done_of self.now w }
    {
        let mut left = self.writers;
        'writers: while left > 0 {
            let newest = left.trailing_zeros();
            let at = (self.head + newest as usize) % KEPT;
            if self.writes[at].has(w) {
                return self.done[at].c;
            }
            left &= !(1 << newest);
        }
        0
    }

    /// The distance of the latest of these entries that writes the word `w`, 1 for the newest, up
    /// to 8; 0 if none does.
    pub fn latest_back(&self, w: u32) -> u8
        ensures { result ≡ writer_back self.now w }
    {
        let mut left = self.writers;
        'writers: while left > 0 {
            let at = left.trailing_zeros();
            if self.writes[(self.head + at as usize) % KEPT].has(w) {
                return at as u8 + 1;
            }
            left &= !(1 << at);
        }
        0
    }
}

// The content of an unused place.
fn no_entry() -> Done
    ensures { result ≡ no_entry_of }
{
    let none = WordRun { first: 0, len: 0 };
    let writes = WordRuns {
        one: none,
        two: none,
    };
    Done {
        c: 0,
        entry: Snapshot::of(&Past { c: 0, writes }),
    }
}

// Sets a place to an entry.
fn put_done(place: &mut Done, newest: &Past)
    ensures tick { place.new.c ≡ newest.now.c }
    ensures entry { place.new.entry.value ≡ newest.now }
{
    place.c = newest.c;
    place.entry = Snapshot::of(newest);
}

// If an entry writes any words, keeps them in its place, sets its bit, which is the lowest and is 0,
// and extends the bounds by them.
fn keep_words(place: &mut WordRuns, writers: &mut u64, bounds: &mut Bounds, words: WordRuns)
    requires { writers.old < 2 ^ 8 }
    ensures writers { writers.new ≡ writers.old + (if has_words words then 1 else 0) }
    ensures words { has_words words ≡ true → place.new ≡ words }
    ensures bounds { (w : ℕ) → 32 ≤ w → is_outside bounds.new.low bounds.new.high w ≡ true →
        (is_in w words.one ≡ false) × (is_in w words.two ≡ false)
        × (is_outside bounds.old.low bounds.old.high w ≡ true) }
{
    if !words.any() {
        return;
    }
    *place = words;
    *writers += 1;
    let one = widened_by(*bounds, words.one);
    *bounds = widened_by(one, words.two);
}

// Whether a word lies outside the bounds.
fn lies_outside(bounds: Bounds, w: u32) -> bool
    ensures { result ≡ is_outside bounds.low bounds.high w }
{
    let word = u64::from(w);
    word < bounds.low || word >= bounds.high
}

// The bounds extended by the words of a run, except registers, which are not read.
fn widened_by(bounds: Bounds, run: WordRun) -> Bounds
    ensures { (w : ℕ) → 32 ≤ w → is_outside result.low result.high w ≡ true →
        (is_in w run ≡ false) × (is_outside bounds.low bounds.high w ≡ true) }
{
    let first = u64::from(run.first);
    let behind = first + u64::from(run.len);
    if run.len == 0 || behind <= u64::from(FIRST_STORAGE_WORD) {
        return bounds;
    }
    Bounds {
        low: bounds.low.min(first),
        high: bounds.high.max(behind),
    }
}
