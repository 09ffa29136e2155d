//! Lines with hexadecimal digits, built from their end: changed words, index words, half-words, and
//! the short lines that come with each entry. docs/ledger.md has the lines. changes.rt, facts.rt
//! and writing.rt call these, into a buffer that is overwritten. No other crate sees them.
//!
//! Proved: each line is the definition of its form in specs/Lines.antt (`changed_line`,
//! `index_line`, `code_line`, `writes_line`); `ic_line` is that of specs/Line.antt of `st_report`.
//! Not proved: speed.
//!
//! Pinned, by these definitions, docs/ledger.md and vectors/ledger/lines.txt: each byte; a word has
//! 16 digits, a half-word eight. Free: the table of digit pairs, which saves time, if proofs/digits
//! follows.
ghost use Rattle.std.specs.Prelude.{◌≡◌, ◌+◌, ◌≤◌, ◌++◌, length};
ghost use Rattle.st_text.specs.Numerals.{hex_text, hex_word};
ghost use Rattle.st_report.specs.Line.{ic_line};
ghost use Rattle.st_lines.specs.Lines.{changed_line, index_line, code_line, writes_line};

use st_plain::Code;
use st_prep::IndexChange;
use st_report::LineFromEnd;

// The hexadecimal digits of the numbers below 256, two for each.
static PAIRS: [u8; 512] = *b"000102030405060708090A0B0C0D0E0F101112131415161718191A1B1C1D1E1F\
    202122232425262728292A2B2C2D2E2F303132333435363738393A3B3C3D3E3F\
    404142434445464748494A4B4C4D4E4F505152535455565758595A5B5C5D5E5F\
    606162636465666768696A6B6C6D6E6F707172737475767778797A7B7C7D7E7F\
    808182838485868788898A8B8C8D8E8F909192939495969798999A9B9C9D9E9F\
    A0A1A2A3A4A5A6A7A8A9AAABACADAEAFB0B1B2B3B4B5B6B7B8B9BABBBCBDBEBF\
    C0C1C2C3C4C5C6C7C8C9CACBCCCDCECFD0D1D2D3D4D5D6D7D8D9DADBDCDDDEDF\
    E0E1E2E3E4E5E6E7E8E9EAEBECEDEEEFF0F1F2F3F4F5F6F7F8F9FAFBFCFDFEFF";

// The last two hexadecimal digits of a number.
fn pair_of(n: u64) -> [u8; 2]
    ensures { result ≡ hex_text 2 n }
{
    let from = (n % 256) as usize * 2;
    [PAIRS[from], PAIRS[from + 1]]
}

// Puts the last eight hexadecimal digits of a number in front of a line.
fn put_digits(line: &mut LineFromEnd, n: u64)
    requires { length line.old + 8 ≤ 128 }
    ensures bytes { line.new ≡ hex_text 8 n ++ line.old }
    ensures room { length line.new ≡ length line.old + 8 }
{
    line.put_word(pair_of(n));
    line.put_word(pair_of(n / 256));
    line.put_word(pair_of(n / 65_536));
    line.put_word(pair_of(n / 16_777_216));
}

// Puts the sixteen hexadecimal digits of a word in front of a line.
fn put_hex(line: &mut LineFromEnd, word: u64)
    requires { length line.old + 16 ≤ 128 }
    ensures bytes { line.new ≡ hex_word word ++ line.old }
    ensures room { length line.new ≡ length line.old + 16 }
{
    put_digits(line, word);
    put_digits(line, word >> 32);
}

/// Fills a line with `WORD w WAS h IS g`: word w changed from h to g. The previous contents are
/// overwritten.
pub fn fill_changed(line: &mut LineFromEnd, w: u32, was: u64, is: u64)
    ensures { line.new ≡ changed_line w was is }
{
    line.clear();
    line.put_word(*b"\n");
    put_hex(line, is);
    line.put_word(*b" IS ");
    put_hex(line, was);
    line.put_word(*b" WAS ");
    line.put_decimal(u64::from(w));
    line.put_word(*b"WORD ");
}

/// Fills a line with `INDEX k WAS h IS g`: an entry changes index word k speculatively, from h to
/// g. The previous contents are overwritten.
pub fn fill_index(line: &mut LineFromEnd, change: &IndexChange)
    ensures { line.new ≡ index_line change.now }
{
    line.clear();
    line.put_word(*b"\n");
    put_hex(line, change.word);
    line.put_word(*b" IS ");
    put_hex(line, change.kept);
    line.put_word(*b" WAS ");
    line.put_decimal(u64::from(change.number));
    line.put_word(*b"INDEX ");
}

/// Fills a line with `CODE h` or `CODE h g`: the half-words that an entry executes. The previous
/// contents are overwritten.
pub fn fill_code(line: &mut LineFromEnd, code: Code)
    ensures { line.new ≡ code_line code }
{
    line.clear();
    line.put_word(*b"\n");
    if let Some(half) = code.second {
        put_digits(line, u64::from(half));
        line.put_word(*b" ");
    }
    put_digits(line, u64::from(code.first));
    line.put_word(*b"CODE ");
}

/// Fills a line with `IC a`: the instruction counter. The previous contents are overwritten. Each
/// row has this line, and building it from its beginning, as `line_ic` does, takes 137 host
/// instructions more.
pub fn fill_counter(line: &mut LineFromEnd, ic: u32)
    ensures { line.new ≡ ic_line ic }
{
    line.clear();
    line.put_word(*b"\n");
    line.put_half_address(ic);
    line.put_word(*b"IC ");
}

/// Fills a line with `WRITES w n`: an entry writes n words from word w on. The previous contents
/// are overwritten.
pub fn fill_writes(line: &mut LineFromEnd, w: u32, n: u8)
    ensures { line.new ≡ writes_line w n }
{
    line.clear();
    line.put_word(*b"\n");
    line.put_decimal(u64::from(n));
    line.put_word(*b" ");
    line.put_decimal(u64::from(w));
    line.put_word(*b"WRITES ");
}
