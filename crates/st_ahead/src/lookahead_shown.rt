//! The view of the look-ahead, and the place of its next entry: the calls by which machine.rt shows
//! levels (entries in flight), lends them, and sets the table instruction of an interrupt.
//!
//! A level is shown with its address (half-words), its P (tick of preparation), the index word that
//! it changed speculatively with the old content, and whether its operands have arrived by the tick
//! that is shown. `st_run` shows these in snapshots. `stand` only sets the place: machine.rt calls
//! it when the segment has just ended, so that no word of the next entry is requested yet.
//!
//! Proved: a view is `level_shown` of specs/Shown.antt if the levels are the entries in flight
//! (`AreAhead` of `st_ring`), which `IsInside` keeps in machine.rt. Laws in specs/Laws.antt of
//! `st_refine` say what this means for a run: `TheStateIsSplit` for views, `LevelsAreLent` for
//! `ring` and `index`. Pinned: that `ready` is by R of the row, without forwarded words, by
//! `level_shown`, docs/timetable.md and vectors/timetable.txt. Free: the bodies, if
//! proofs/lookahead follows.
ghost use Rattle.std.specs.Prelude.{◌≡◌, ◌≤◌, ℕ, List, map, get_or, Option, None, Some, option_map};
ghost use Rattle.st_state.specs.Machine.{Machine};
ghost use Rattle.st_rows.specs.declared.issue.IssueState.{IssueState as IssueStateOf};
ghost use Rattle.st_ahead.specs.Shown.{word_before_change};

use crate::events::LevelView;
use crate::lookahead::Lookahead;
use st_prep::{IndexChange, Place};
use st_ring::SpecRing;

impl<const N: usize> Lookahead<N> {
    ghost use Rattle.st_ahead.specs.Forecast.{count};
    ghost use Rattle.st_ahead.specs.Shown.{level_shown};
    ghost use Rattle.st_ring.specs.Levels.{AreAhead};
    ghost use Rattle.st_segment.specs.Ahead.{ahead};

    // Sets the place of the next entry.
    pub(crate) fn stand(&mut self, place: Place)
        ensures { self.new ≡ record self.old { next = record self.old.next { place = place } } }
    {
        self.next.place = place;
    }

    // The levels, oldest first.
    pub(crate) fn ring(&self) -> &SpecRing<N>
        ensures levels { result.now ≡ self.now.levels.ring }
        ensures few { count self.now ≤ N }
    {
        self.levels.ring()
    }

    // The index words with the speculative changes of all levels.
    pub(crate) fn index(&self) -> &[u64; 16]
        ensures words { result.now ≡ self.now.levels.x }
        ensures few { count self.now ≤ N }
    {
        self.levels.index()
    }

    // The view of level k at a tick, where level 0 is the oldest; None if there is no level k.
    pub(crate) fn level(&self, k: usize, tick: u64) -> Option<LevelView>
        ensures value { (ds : List ℕ) (n now : ℕ) (t : Option ℕ) (s : Machine) (f : IssueStateOf) →
            AreAhead ds n now t s f self.now.issue self.now.levels →
            result ≡ get_or (map (λ a. Some (level_shown tick a))
            (ahead ds n (count self.now) t s f)) k None }
        ensures few { count self.now ≤ N }
    {
        if k >= self.levels.len() {
            return None;
        }
        let level = self.levels.ring().level(k);
        let ready = self.levels.plan(k).r <= tick;
        Some(LevelView {
            address: level.prepared.place.address,
            p: level.p,
            index: number_of(level.prepared.index),
            kept: kept_of(level.prepared.index),
            ready,
        })
    }
}

// The number of the index word that is changed speculatively, if there is one.
fn number_of(change: Option<IndexChange>) -> Option<u8>
    ensures { result ≡ option_map (λ c. c.number) change }
{
    match change {
        None => None,
        Some(change) => Some(change.number),
    }
}

// The old content of the index word that is changed speculatively; 0 if there is none.
fn kept_of(change: Option<IndexChange>) -> u64
    ensures { result ≡ word_before_change change }
{
    match change {
        None => 0,
        Some(change) => change.kept,
    }
}
