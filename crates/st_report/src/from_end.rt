//! A line that is composed from its end, for the lines of each executed instruction in reports and
//! ledgers, where speed counts. `EntryLine` contains one; `st_ledger`, `st_lines` and `st_tally`
//! compose their lines by the calls. docs/report.md and docs/ledger.md have the texts.
//!
//! Proved: contracts see a line as the list of its bytes so far, and each `put` puts exactly its
//! text in front of them; decimals and addresses are `decimal` and `half_address` of
//! specs/Numerals.antt in `st_text`. The clauses `room` bound the length, so no line exceeds ROOM.
//! Not proved: speed.
//!
//! Pinned, by the clauses of these crates and their proofs: the clauses, and 192, the value of
//! ROOM, which clauses and proofs of all writers name as a figure. Free: the bodies and fast paths,
//! if proofs/from_end follows.

ghost use Rattle.std.specs.Prelude.{◌≡◌, ◌+◌, ◌*◌, ◌<◌, ◌≤◌, ◌++◌, [], length, drop, codes, decimal};
ghost use Rattle.st_text.specs.Numerals.{half_address};

use crate::kept::{KeptDigits, two_digits, zeros_before};
use itoa::write_digits;
use std::marker::Model;

// The capacity of a line in bytes; the clauses of each writer prove that its lines fit.
const ROOM: usize = 192;

/// A line of at most 192 bytes that is composed from its end: each piece is put before the previous
/// ones. So the digits of a number are written to their final place, and the line is never moved.
#[derive(Debug, Drop)]
pub struct LineFromEnd {
    // The line is these bytes from `start` on.
    bytes: [u8; ROOM],
    start: usize,
}

impl Model for LineFromEnd {
    ghost use Rattle.std.specs.Prelude.{ℕ, List, ◌≤◌, drop};

    // The bytes of the line so far.
    ghost Value = { List ℕ };

    ghost view = { λ l. drop l.start l.bytes };

    // The line begins within the array.
    ghost invariant = { λ l. l.start ≤ 192 };
}

impl LineFromEnd {
    /// The empty line.
    pub fn new() -> LineFromEnd
        ensures { result ≡ [] }
    {
        LineFromEnd {
            bytes: [0; ROOM],
            start: ROOM,
        }
    }

    /// The bytes of the line.
    pub fn as_bytes(&self) -> &[u8]
        ensures { result.now ≡ self.now }
    {
        &self.bytes[self.start..]
    }

    /// Removes all bytes.
    pub fn clear(&mut self)
        ensures { self.new ≡ [] }
    {
        self.start = ROOM;
    }

    /// Puts a piece before the line.
    pub fn put(&mut self, piece: &[u8])
        requires { length piece.now + length self.old ≤ 192 }
        ensures { self.new ≡ piece.now ++ self.old }
    {
        let start = self.start - piece.len();
        self.bytes[start..self.start].copy_from_slice(piece);
        self.start = start;
    }

    /// Puts a number in decimal before the line; it has at most 20 digits.
    pub fn put_decimal(&mut self, n: u64)
        requires { length self.old + 20 ≤ 192 }
        ensures bytes { self.new ≡ decimal n ++ self.old }
        ensures room { length self.new ≤ length self.old + 20 }
    {
        self.start = write_digits(n, &mut self.bytes, self.start);
    }

    /// Puts a word before the line. The word is a copy, so no test for aliasing with the line is
    /// needed.
    pub fn put_word<const K: usize>(&mut self, word: [u8; K])
        requires { K + length self.old ≤ 192 }
        ensures { self.new ≡ word.entry ++ self.old }
    {
        self.put(&word);
    }

    // Puts a piece without its first `before` bytes before the line.
    fn put_end(&mut self, piece: [u8; 16], before: usize)
        requires few { before ≤ 16 }
        requires room { length self.old + 16 ≤ 192 }
        ensures { self.new ≡ drop before piece ++ self.old }
    {
        self.put(&piece);
        self.start += before;
    }

    /// Puts a number in decimal before the line, as `put_decimal` does. If its digits except the
    /// last two are those of `kept`, they are copied; otherwise `kept` is updated with its digits.
    #[inline(always)]
    pub fn put_near(&mut self, n: u64, kept: &mut KeptDigits)
        requires { length self.old + 20 ≤ 192 }
        ensures bytes { self.new ≡ decimal n ++ self.old }
        ensures room { length self.new ≤ length self.old + 20 }
    {
        let past = kept.past(n);
        if past >= 100 {
            kept.keep(n);
            self.put_decimal(n);
            return;
        }
        self.put_kept(n, past, kept);
    }

    /// Puts a number in decimal before the line, whose digits except the last two are those of
    /// `kept`; `past` is the number that its last two digits form.
    pub fn put_kept(&mut self, n: u64, past: u64, kept: &KeptDigits)
        requires few { past < 100 }
        requires near { (1 ≤ kept.now) × (n ≡ 100 * kept.now + past) }
        requires room { length self.old + 20 ≤ 192 }
        ensures bytes { self.new ≡ decimal n ++ self.old }
        ensures room { length self.new ≤ length self.old + 20 }
    {
        self.put(&two_digits(past));
        let (digits, start) = kept.digits();
        self.put_end(*digits, start);
    }

    // Puts a number below 100 before the line, without a leading zero.
    fn put_few(&mut self, n: u64)
        requires few { n < 100 }
        requires room { length self.old + 2 ≤ 192 }
        ensures { self.new ≡ decimal n ++ self.old }
    {
        self.put(&two_digits(n));
        let before = zeros_before(n);
        self.start += before;
    }

    // Puts the number of a word in decimal before the line, as `put_decimal` does, with a fast path
    // for numbers below 100.
    #[inline(always)]
    fn put_word_number(&mut self, n: u64)
        requires { length self.old + 20 ≤ 192 }
        ensures bytes { self.new ≡ decimal n ++ self.old }
        ensures room { length self.new ≤ length self.old + 20 }
    {
        if n < 100 {
            self.put_few(n);
        } else {
            self.put_decimal(n);
        }
    }

    // Puts the first bit of a half of a word before the line.
    fn put_half(&mut self, half: u32)
        requires few { half < 2 }
        requires room { length self.old + 3 ≤ 192 }
        ensures bytes { self.new ≡ (codes "." ++ decimal (32 * half)) ++ self.old }
        ensures room { length self.new ≤ length self.old + 3 }
    {
        if half == 0 {
            self.put_word(*b".0");
        } else {
            self.put_word(*b".32");
        }
    }

    /// Puts a half-word address before the line, as word.bit.
    pub fn put_half_address(&mut self, address: u32)
        requires { length self.old + 23 ≤ 192 }
        ensures bytes { self.new ≡ half_address address ++ self.old }
        ensures room { length self.new ≤ length self.old + 23 }
    {
        self.put_half(address % 2);
        self.put_word_number(u64::from(address / 2));
    }
}
