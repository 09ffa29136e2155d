//! The data of an entry (one executed instruction) that the timetable uses: its words, its cost in
//! ticks, and two properties. The instruction itself plays no part. docs/timetable.md has the
//! rules. `st_next` fills an `Entry` in from the prepared entry, and `st_segment` takes the
//! registers out of the words that are read. past.rt calls the tests.
//!
//! Proved: the tests `has` and `any` are `is_in`, `is_among` and `has_words` of specs/Entries.antt;
//! specs/Ranges.antt has the ranges that the calls of issue.rt require (`IsEntryInTime`).
//!
//! Pinned, by specs/Rows.antt and `entry_with` of `st_segment`: the fields. A new field is a new
//! input of the timetable, and changes both. A run has at most 16 words (`IsEntryInTime`). Free:
//! the bodies of the tests.
ghost use Rattle.std.specs.Prelude.{◌≡◌};
ghost use Rattle.st_rows.specs.Entries.{is_in, is_among, has_words};

/// A run of consecutive words.
#[derive(Clone, Copy, Debug, Default, PartialEq, Eq)]
pub struct WordRun {
    /// The address of its first word.
    pub first: u32,
    /// The number of its words, 0 to 16.
    pub len: u8,
}

/// Two runs of words, in this order.
#[derive(Clone, Copy, Debug, Default, PartialEq, Eq)]
pub struct WordRuns {
    /// The first run.
    pub one: WordRun,
    /// The second run.
    pub two: WordRun,
}

/// The data of an entry that the timetable uses: the words that it reads and writes, and its cost.
/// Registers need no read, so the words that are read are all from 32 up.
#[derive(Clone, Copy, Debug, Default, PartialEq, Eq)]
pub struct Entry {
    /// Its own instruction words, up to the first forbidden one.
    pub own: WordRun,
    /// The instruction words of the target of EX, up to the first forbidden one.
    pub target: WordRun,
    /// Its index-side word.
    pub side: Option<u32>,
    /// Its operand words, in order.
    pub reads: WordRuns,
    /// The words that it writes.
    pub writes: WordRuns,
    /// The ticks from the arrival of its operands to its completion, 1 to 24.
    pub cost: u8,
    /// Whether it is serializing: it waits for all earlier entries, and all later ones wait for it.
    pub serial: bool,
    /// Whether it prefetches the two words after its own.
    pub follows: bool,
}

impl WordRun {
    /// Whether the word `w` is in the run.
    pub fn has(self, w: u32) -> bool
        ensures { result ≡ is_in w self }
    {
        self.first <= w && u64::from(w) < u64::from(self.first) + u64::from(self.len)
    }
}

impl WordRuns {
    /// Whether the word `w` is in one of the runs.
    pub fn has(self, w: u32) -> bool
        ensures { result ≡ is_among w self }
    {
        self.one.has(w) || self.two.has(w)
    }

    /// Whether there is any word in the runs.
    pub fn any(self) -> bool
        ensures { result ≡ has_words self }
    {
        self.one.len > 0 || self.two.len > 0
    }
}
