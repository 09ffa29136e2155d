//! A level of the look-ahead: an entry that is prepared and not completed, with its P (tick of
//! preparation) and the operand words that have arrived. docs/timetable.md has the rules. ring.rt
//! keeps eight levels and calls the two functions here, which write a level in place. Ticks count
//! from the start of the run. `r` is a running maximum of arrivals; R of the row is in the planned
//! row (plans.rt).
//!
//! Proved: a level becomes `prepared_at` by `begin`, and `level_with_word` by `put_word`
//! (specs/OneLevel.antt).
//!
//! Pinned, by these two definitions and by `LevelView` of `st_ahead`, which shows a level: the
//! fields. A new field needs its value there, and in `Default`, which marks an unused slot. Free:
//! the bodies.
ghost use Rattle.std.specs.Prelude.{◌≡◌, ◌<◌};
ghost use Rattle.st_ring.specs.OneLevel.{level_with_word as filled_of, prepared_at};

use st_prep::Prepared;

/// An entry that is prepared and not completed.
#[derive(Clone, Copy, Debug, Default, PartialEq, Eq)]
pub struct Level {
    /// The prepared entry.
    pub prepared: Prepared,
    /// P, the tick at which the entry was prepared.
    pub p: u64,
    /// The greatest of `p` and the arrival ticks of the words in `have`.
    pub r: u64,
    /// The operand words that have arrived, each in its slot.
    pub have: [Option<u64>; 2],
}

// Sets the level to an entry that is prepared at the tick `p`, with these operand words.
pub(crate) fn begin(level: &mut Level, prepared: &Prepared, p: u64, have: [Option<u64>; 2])
    ensures { level.new ≡ prepared_at prepared.now p have }
{
    level.prepared = *prepared;
    level.p = p;
    level.r = p;
    level.have = have;
}

// Puts an operand word that arrived at the tick into a slot of the level.
pub(crate) fn put_word(level: &mut Level, slot: u8, word: u64, tick: u64)
    requires { slot < 2 }
    ensures { level.new ≡ filled_of level.old slot word tick }
{
    level.have[slot as usize] = Some(word);
    level.r = level.r.max(tick);
}
