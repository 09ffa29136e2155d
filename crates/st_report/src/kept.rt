//! The leading digits that a number shares with numbers close to it, so that a counter which grows
//! by small steps is mostly written without a division. `LineFromEnd`, `EntryLine`, `st_ledger` and
//! `st_lines` use `KeptDigits` for the lines of docs/report.md and docs/ledger.md.
//!
//! Proved: contracts see a `KeptDigits` as the number that its digits form, that is n / 100. `past`
//! is below 100 if and only if n has these leading digits (`has`), and `digits` are the decimal
//! digits of that number. Not proved: speed.
//!
//! Pinned, by these callers, of which `st_lines` calls `past` and `keep`: the clauses. ROOM and
//! MOST belong together, as a number below 10^18 has at most 16 digits without its last two, and
//! are figures in the invariant and in proofs/kept. Free: the bodies and this way to save a
//! division, if proofs/kept follows, since no line depends on them.

ghost use Rattle.std.specs.Prelude.{◌≡◌, ◌↔◌, ◌+◌, ◌*◌, ◌/◌, ◌^◌, ◌<◌, ◌≤◌, drop, decimal};
ghost use Rattle.st_report.specs.Line.{two_digits as two_digits_of};

use itoa::write_digits;
use std::marker::Model;

// The two decimal digits of each number below 100; pinned by the clause of `two_digits`.
static PAIRS: [u8; 200] = *b"00010203040506070809101112131415161718192021222324\
    25262728293031323334353637383940414243444546474849\
    50515253545556575859606162636465666768697071727374\
    75767778798081828384858687888990919293949596979899";

// The capacity for digits.
const ROOM: usize = 16;

// Numbers from 10^18 on have too many digits.
const MOST: u64 = 1_000_000_000_000_000_000;

/// All decimal digits of a number except the last two. Successive numbers mostly have equal leading
/// digits.
#[derive(Debug, Drop)]
pub struct KeptDigits {
    // The digits are those from `start`.
    digits: [u8; ROOM],
    start: usize,
    // The number with these digits followed by two zeros.
    hundred: u64,
}

// Contracts see the number that these digits form.
impl Model for KeptDigits {
    ghost use Rattle.std.specs.Prelude.{◌≡◌, ℕ, ◌*◌, ◌/◌, ◌^◌, ◌<◌, ◌≤◌, drop, decimal};

    // The number n / 100 that the digits form.
    ghost Value = { ℕ };

    ghost view = { λ k. k.hundred / 100 };

    // The digits are those of that number, which has 1 to 16 of them.
    ghost invariant = { λ k. (k.start ≤ 16) × (drop k.start k.digits ≡ decimal (k.hundred / 100))
        × (100 ≤ k.hundred) × (k.hundred < 10 ^ 18) × (k.hundred ≡ 100 * (k.hundred / 100)) };
}

impl KeptDigits {
    /// The digits of 100 except the last two.
    pub fn new() -> KeptDigits
        ensures { result ≡ 1 }
    {
        KeptDigits {
            digits: *b"0000000000000001",
            start: 15,
            hundred: 100,
        }
    }

    /// The difference of `n` and the first number with these leading digits: below 100 if and only
    /// if `n` has them.
    pub fn past(&self, n: u64) -> u64
        ensures some { 1 ≤ self.now }
        ensures has { (result < 100) ↔ (n / 100 ≡ self.now) }
        ensures past { result < 100 → n ≡ 100 * self.now + result }
    {
        n.wrapping_sub(self.hundred)
    }

    /// The digits in a larger buffer, and the place where they begin.
    pub fn digits(&self) -> (&[u8; 16], usize)
        ensures few { result.1 ≤ 16 }
        ensures digits { drop result.1 result.0.now ≡ decimal self.now }
    {
        (&self.digits, self.start)
    }

    /// Replaces the digits by those of `n` if it has 3 to 18 digits; otherwise they do not change.
    pub fn keep(&mut self, n: u64)
        ensures few { n < 100 → self.new ≡ self.old }
        ensures kept { 100 ≤ n → n < 10 ^ 18 → self.new ≡ n / 100 }
        ensures many { 10 ^ 18 ≤ n → self.new ≡ self.old }
    {
        if n < 100 {
            return;
        }
        if n >= MOST {
            return;
        }
        self.start = write_digits(n / 100, &mut self.digits, ROOM);
        self.hundred = n - n % 100;
    }
}

/// A number below 100 as two decimal digits.
pub fn two_digits(n: u64) -> [u8; 2]
    requires { n < 100 }
    ensures { result ≡ two_digits_of n }
{
    let from = n as usize * 2;
    [PAIRS[from], PAIRS[from + 1]]
}

/// The number of leading zeros in the two digits of a number below 100.
pub fn zeros_before(n: u64) -> usize
    requires { n < 100 }
    ensures few { result ≤ 1 }
    ensures rest { drop result (two_digits_of n) ≡ decimal n }
{
    if n < 10 { 1 } else { 0 }
}
