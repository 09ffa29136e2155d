//! The last eight entries (instructions) of an issue state, kept a second time: an issue state
//! cannot be copied, and `look_behind` (behind.rt) needs a copy at the end of a segment. last.rt
//! keeps one `KeptPast`, and stepping.rt puts each entry into it. docs/timetable.md has the rules.
//!
//! Proved: `put` and `copied` are those of a list of eight entries, newest first.
//!
//! Pinned, by the clauses `past` of last.rt and `LastEntries` of `st_rows`: eight entries, newest
//! first. Free: the ring, as long as `window` gives the list.
ghost use Rattle.std.specs.Prelude.{◌≡◌, ◌∷◌, ◌<◌, take, replicate, get_or, length};
ghost use Rattle.st_rows.specs.Entries.{no_runs};

use st_rows::{LastEntries, Past};
use std::marker::Model;

// The number of entries that are kept.
const KEPT: usize = 8;

/// The last eight entries of the segment. Contracts see them as a list, newest first.
#[derive(Drop)]
pub(crate) struct KeptPast {
    // A ring: the newest entry is at `head`, older ones follow, wrapping around the end.
    entries: [Past; KEPT],
    head: usize,
}

// Contracts see the entries, newest first.
impl Model for KeptPast {
    ghost use Rattle.std.specs.Prelude.{List};
    ghost use Rattle.st_fetch.specs.Queue.{window, IsRing};
    ghost use Rattle.st_rows.specs.declared.past.Past.{Past as Entry};

    ghost Value = { List Entry };

    ghost view = { λ past. window past.head 8 past.entries };

    ghost invariant = { λ past. IsRing 8 past.head 8 past.entries };
}

impl KeptPast {
    /// The history before the first entry.
    pub fn new() -> KeptPast
        ensures { result ≡ replicate 8 (record { c = 0; writes = no_runs }) }
    {
        KeptPast {
            entries: [Past::default(); KEPT],
            head: 0,
        }
    }

    /// Adds an entry as the newest one, and keeps the seven before it.
    pub fn put(&mut self, newest: Past)
        ensures { self.new ≡ newest ∷ take 7 self.old }
    {
        self.head = (self.head + KEPT - 1) % KEPT;
        self.entries[self.head] = newest;
    }

    // The `n`th entry, 0 for the newest.
    fn entry(&self, n: usize) -> Past
        requires { n < 8 }
        ensures value { result ≡ get_or self.now n (record { c = 0; writes = no_runs }) }
        ensures whole { length self.now ≡ 8 }
    {
        self.entries[(self.head + n) % KEPT]
    }

    /// The entries in the form that an issue state has.
    pub fn copied(&self) -> LastEntries
        ensures { result ≡ self.now }
    {
        let mut entries = LastEntries::new();
        entries.put(self.entry(7));
        entries.put(self.entry(6));
        entries.put(self.entry(5));
        entries.put(self.entry(4));
        entries.put(self.entry(3));
        entries.put(self.entry(2));
        entries.put(self.entry(1));
        entries.put(self.entry(0));
        entries
    }
}
