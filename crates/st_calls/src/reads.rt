//! Tests of banks (`st_banks`), held words (`st_fetch`) and levels (`st_ring`), call by call; the
//! machine itself plans its reads and its levels in place.
//!
//! Proved: nothing of the tests; the contracts of the calls stand in the three crates, over their
//! specs. The tests check that these definitions mean what docs/timetable.md says. Pinned: the
//! expected ticks, by docs/timetable.md, from which they are worked out by hand, for banks in the
//! table `READS`, with delays of 3 and 5 ticks in turn; a changed rule changes these ticks. Free:
//! further values.
ghost use Rattle.std.specs.Prelude.{◌<◌};
ghost use Rattle.st_ring.specs.OneLevel.{HasNumber};

use st_banks::{Banks, DelayError, Delays};
use st_bits::WORDS;
use st_fetch::Hold;
use st_prep::{IndexChange, Prepared};
use st_ring::{Level, SpecRing};
use std::alloc::{AllocError, Global};
use std::process::Abort;
use std::test::Fail;

// The delays of storage with this list.
fn delays_of(alloc: Global, list: &[u8; 2]) -> Result<Delays, Fail> {
    match Delays::new(alloc, list) {
        Ok(delays) => Ok(delays),
        Err(_) => Err(Fail::from(AllocError)),
    }
}

#[test]
fn a_list_is_refused_for_its_first_zero(rt: HostRuntime) {
    let refused = match Delays::new(rt.alloc(), &[1, 2, 0, 4, 0]) {
        Err(DelayError::ZeroDelay { place }) => Some(place),
        Ok(_) | Err(DelayError::NoMemory) => None,
    };
    assert_eq!(rt; refused, Some(2));
}

// A read: the word's address, the tick of the read, and the tick of the answer.
type Read = (u32, u64, Option<u64>);

// Reads over the six banks, where a read takes 3 ticks at even and 5 at odd ticks: banks 0, 1, 3,
// 4, 5, 2, and again 4.
const READS: [Read; 13] = [
    (32, 0, Some(3)),
    (36, 2, None),
    (36, 3, Some(8)),
    (33, 4, Some(7)),
    (35, 5, Some(10)),
    (65_535, 9, None),
    (65_535, 10, Some(13)),
    (65_536, 11, Some(16)),
    (98_302, 12, None),
    (65_537, 12, Some(15)),
    (98_303, 14, None),
    (34, 16, Some(19)),
    (98_302, 16, Some(19)),
];

// Makes a read of the table, and returns the tick of its answer.
fn accepted(rt: &impl Abort, banks: &mut Banks, w: u32, tick: u64) -> Option<u64> {
    assert!(rt; 32 <= w && w < WORDS && tick < 100);
    banks.accept(w, tick)
}

#[test]
fn reads_wait_for_their_bank(rt: HostRuntime) -> Result<(), Fail> {
    let mut banks = Banks::new(delays_of(rt.alloc(), &[3, 5])?);
    for (w, tick, answer) in READS {
        assert_eq!(rt; accepted(&rt, &mut banks, w, tick), answer, "{w} at {tick}");
    }
    Ok(())
}

// Requests a word, if it is not held.
fn ask(hold: &mut Hold, w: u32) {
    if !hold.held(w) {
        hold.request(w);
    }
}

// Answers a word, if it is held.
fn answer(hold: &mut Hold, w: u32, word: u64, tick: u64) {
    if hold.held(w) {
        hold.answer(w, word, tick);
    }
}

#[test]
fn a_fifth_word_drops_the_oldest_and_a_store_changes_answered_ones(rt: HostRuntime) {
    let mut hold = Hold::new();
    for w in [40, 41, 42, 43] {
        ask(&mut hold, w);
    }
    answer(&mut hold, 40, 7, 12);
    answer(&mut hold, 42, 9, 14);
    ask(&mut hold, 44);
    for (w, word) in [(41, 80), (42, 90), (45, 100)] {
        hold.patch(w, word);
    }
    let held = (hold.held(40), hold.held(41), hold.held(44), hold.held(45));
    assert_eq!(rt; held, (false, true, true, false));
    let words = (hold.word(41), hold.word(42), hold.word(44));
    assert_eq!(rt; words, (None, Some((90, 14)), None));
    hold.forget();
    assert!(rt; !hold.held(42));
}

// A level that is prepared at tick `p` and changes the index word `number` from `kept` to `word`.
// The clause says that its index word has a number below 16, which `push` requires.
fn changing(p: u64, number: u8, kept: u64, word: u64) -> Level
    requires { number < 16 }
    ensures { HasNumber result }
{
    Level {
        prepared: Prepared {
            index: Some(IndexChange { number, kept, word }),
            ..Prepared::default()
        },
        p,
        ..Level::default()
    }
}

// Appends a level to the ring, if there is room.
fn push(ring: &mut SpecRing<4>, level: Level)
    requires { HasNumber level }
{
    if ring.len() < 4 {
        ring.push(level);
    }
}

// Removes the oldest level, and returns the tick at which it was prepared.
fn retire(ring: &mut SpecRing<4>) -> Option<u64> {
    if ring.len() == 0 {
        return None;
    }
    Some(ring.retire().p)
}

#[test]
fn levels_leave_in_their_order_and_are_undone_from_the_youngest_on(rt: HostRuntime) {
    let mut ring = SpecRing::<4>::new();
    let mut x = [0; 16];
    x[3] = 13;
    for p in [1, 2, 3] {
        push(&mut ring, changing(p, 5, 0, 0));
    }
    for p in [1, 2, 3] {
        assert_eq!(rt; retire(&mut ring), Some(p));
    }
    for kept in [10, 11, 12] {
        push(&mut ring, changing(kept, 3, kept, kept + 1));
    }
    let undone = ring.undo_into(&mut x);
    assert_eq!(rt; (undone, x[3], ring.len()), (3, 10, 0));
}
