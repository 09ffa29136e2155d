//! The lines of a ledger about the machine and about segments: one call for each kind of line, with
//! its line end. docs/ledger.md has the lines. writing.rt and facts.rt write them; `st_account` and
//! `st_tally` use `Why`, the reason for the start of a segment. Lines with many repetitions are in
//! digits.rt, built faster.
//!
//! Proved: the bytes are those of specs/Lines.antt (`start_line`, `word_line`, `dropped_line` and
//! so on), so another form changes the definition and this module.
//!
//! Pinned, by these definitions, docs/ledger.md and vectors/ledger/lines.txt: each byte; numbers
//! are decimal, ticks count from the start of the run, addresses are half-word addresses in the
//! form `word.bit`, segments and entries are numbered from 1. A new reason (`Why`, `Alone`) needs
//! its text here and in specs/Lines.antt, and a new `Why` its heading in `st_tally`. Free: the
//! bodies, if proofs/lines follows `push_numbers`.
ghost use Rattle.std.specs.Prelude.{◌≡◌, ◌+◌, ◌*◌, ◌≤◌, ◌++◌, length};
ghost use Rattle.arrayvec.specs.ArrayString.{array_string_len};
ghost use Rattle.st_lines.specs.Lines.{ledger_levels_line, numbers_text, delays_line, why_text, start_line, segment_end_line, word_line, missed_line, alone_text, alone_line, suppressed_line, ahead_text, dropped_line, begun_line, level_wait_line};

use st_rows::EntryTicks;
use st_text::{
    Line, close_line, open_line, push_decimal, push_flag, push_half_address, push_hex,
    push_short_decimal,
};

/// Why a segment begins.
#[derive(Clone, Copy, Debug, PartialEq, Eq)]
pub enum Why {
    /// The run begins.
    Run,
    /// An interrupt by this indicator, 0 to 63, is taken.
    Interrupt(u8),
    /// A branch on an indicator was mispredicted.
    Mispredicted,
    /// The reader read a card into storage.
    Card,
}

/// Why an entry is serialized.
#[derive(Clone, Copy, Debug, PartialEq, Eq)]
pub enum Alone {
    /// The entry is the instruction in an interrupt table, for this indicator, 0 to 63.
    Table(u8),
    /// The entry is EX.
    Execute,
    /// The entry uses or writes a register as a word.
    Register,
    /// The entry's operation is one that serializes.
    Operation,
}

/// `LEVELS n`: the machine has n levels.
pub fn line_levels(n: u8) -> Line
    ensures { result.bytes ≡ ledger_levels_line n }
{
    let mut line = open_line("LEVELS ");
    push_short_decimal(&mut line, u32::from(n));
    close_line(line)
}

// Appends numbers, each after a blank.
fn push_numbers(line: &mut Line, ns: &[u8])
    requires { array_string_len line.old + 11 * length ns.now ≤ 128 }
    ensures bytes { line.new.bytes ≡ line.old.bytes ++ numbers_text ns.now }
    ensures room { array_string_len line.new ≤ array_string_len line.old + 11 * length ns.now }
{
    let Some((&first, more)) = ns.split_first() else {
        return;
    };
    line.push_str(" ");
    push_short_decimal(line, u32::from(first));
    push_numbers(line, more);
}

/// `DELAYS d ..`: at most ten delays.
#[tactic(auto, unfolding(crate::specs::Lines::delays_line))]
pub fn line_delays(ds: &[u8]) -> Line
    requires { length ds.now ≤ 10 }
    ensures { result.bytes ≡ delays_line ds.now }
{
    let mut line = open_line("DELAYS");
    push_numbers(&mut line, ds);
    close_line(line)
}

// Appends why a segment begins.
fn push_why(line: &mut Line, why: Why)
    requires { array_string_len line.old + 20 ≤ 128 }
    ensures bytes { line.new.bytes ≡ line.old.bytes ++ why_text why }
    ensures room { array_string_len line.new ≤ array_string_len line.old + 20 }
{
    match why {
        Why::Run => line.push_str("RUN"),
        Why::Interrupt(i) => {
            line.push_str("INTERRUPT ");
            push_short_decimal(line, u32::from(i));
        }
        Why::Mispredicted => line.push_str("MISSED"),
        Why::Card => line.push_str("CARD"),
    }
}

/// `SEGMENT k START s WAITED f BY why`: segment k starts at tick s; f says whether the machine had
/// waited.
pub fn line_start(k: u32, tick: u64, waited: bool, why: Why) -> Line
    ensures { result.bytes ≡ start_line k tick waited why }
{
    let mut line = open_line("SEGMENT ");
    push_short_decimal(&mut line, k);
    line.push_str(" START ");
    push_decimal(&mut line, tick);
    line.push_str(" WAITED ");
    push_flag(&mut line, waited);
    line.push_str(" BY ");
    push_why(&mut line, why);
    close_line(line)
}

/// `SEGMENT k END t`: segment k ends at tick t.
pub fn line_end(k: u32, tick: u64) -> Line
    ensures { result.bytes ≡ segment_end_line k tick }
{
    let mut line = open_line("SEGMENT ");
    push_short_decimal(&mut line, k);
    line.push_str(" END ");
    push_decimal(&mut line, tick);
    close_line(line)
}

/// `WORD w IS h`: word w is h, which is not zero.
pub fn line_word(w: u32, word: u64) -> Line
    ensures { result.bytes ≡ word_line w word }
{
    let mut line = open_line("WORD ");
    push_short_decimal(&mut line, w);
    line.push_str(" IS ");
    push_hex(&mut line, 16, word);
    close_line(line)
}

/// `MISSED`: a branch on an indicator was mispredicted.
pub fn line_missed() -> Line
    ensures { result.bytes ≡ missed_line }
{
    close_line(open_line("MISSED"))
}

// Appends why an entry is serialized.
fn push_alone(line: &mut Line, why: Alone)
    requires { array_string_len line.old + 20 ≤ 128 }
    ensures bytes { line.new.bytes ≡ line.old.bytes ++ alone_text why }
    ensures room { array_string_len line.new ≤ array_string_len line.old + 20 }
{
    match why {
        Alone::Table(i) => {
            line.push_str("TABLE ");
            push_short_decimal(line, u32::from(i));
        }
        Alone::Execute => line.push_str("EXECUTE"),
        Alone::Register => line.push_str("REGISTER"),
        Alone::Operation => line.push_str("OPERATION"),
    }
}

/// `ALONE why`: an entry is serialized, for this reason.
pub fn line_alone(why: Alone) -> Line
    ensures { result.bytes ≡ alone_line why }
{
    let mut line = open_line("ALONE ");
    push_alone(&mut line, why);
    close_line(line)
}

/// `SUPPRESSED i`: an entry is suppressed, with indicator i.
pub fn line_suppressed(i: u8) -> Line
    ensures { result.bytes ≡ suppressed_line i }
{
    let mut line = open_line("SUPPRESSED ");
    push_short_decimal(&mut line, u32::from(i));
    close_line(line)
}

// Appends the number of an entry that ran ahead, its half-word address, and its ticks.
fn push_ahead(line: &mut Line, n: u32, address: u32, row: &EntryTicks)
    requires { array_string_len line.old + 94 ≤ 128 }
    ensures bytes { line.new.bytes ≡ line.old.bytes ++ ahead_text n address row.now }
    ensures room { array_string_len line.new ≤ array_string_len line.old + 94 }
{
    push_short_decimal(line, n);
    line.push_str(" ");
    push_half_address(line, address);
    line.push_str(" A ");
    push_decimal(line, row.a);
    line.push_str(" P ");
    push_decimal(line, row.p);
    line.push_str(" R ");
    push_decimal(line, row.r);
}

/// `DROP n a A x P p R r`: the n-th entry ran ahead and is dropped (flushed); its half-word
/// address, and its ticks.
pub fn line_drop(n: u32, address: u32, row: &EntryTicks) -> Line
    ensures { result.bytes ≡ dropped_line n address row.now }
{
    let mut line = open_line("DROP ");
    push_ahead(&mut line, n, address, row);
    close_line(line)
}

/// `BEGUN n a A x P p R r`: the n-th entry had begun but was not prepared in time; its half-word
/// address, and the ticks that it would have had.
pub fn line_begun(n: u32, address: u32, row: &EntryTicks) -> Line
    ensures { result.bytes ≡ begun_line n address row.now }
{
    let mut line = open_line("BEGUN ");
    push_ahead(&mut line, n, address, row);
    close_line(line)
}

/// `LEVEL d`: an entry waited d ticks for a level.
pub fn line_level(d: u64) -> Line
    ensures { result.bytes ≡ level_wait_line d }
{
    let mut line = open_line("LEVEL ");
    push_decimal(&mut line, d);
    close_line(line)
}
