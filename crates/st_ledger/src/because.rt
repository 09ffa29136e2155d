//! Finds the cause for which a row (one instruction with its ticks) was not prepared earlier: the
//! path from its address back in time, to the completion, read or preparation that decided it.
//! docs/ledger.md has the rules ("Reasons"). `st_account` calls `find_reason` between the two
//! halves of a row; `st_lines` writes the `BECAUSE` line, `st_tally` counts by `Reason`. Distances
//! count rows, 1 to 8; ticks are those of the run.
//!
//! Proved: the cause is `because` of specs/Reasons.antt. By the law `ReasonsAreTrue`
//! (specs/ReasonLaws.antt) it did delay the row, by the ticks that `late` says.
//!
//! Pinned, by `because`, docs/ledger.md and vectors/ledger/reasons.txt: the cause, and so the order
//! in which causes are tried, which decides between causes at one tick. A new cause needs a
//! variant, its case in specs/Reasons.antt, its name in `st_lines`, and its heading in `st_tally`.
//! Free: the recursions, if proofs/because follows.
ghost use Rattle.std.specs.Prelude.{◌≡◌, ◌-◌, ◌≤◌, nat_eq, find, reverse, All, unwrap_or};
ghost use Rattle.st_ledger.specs.declared.because.StallCause.TheVariants.{Prefetch as PrefetchOf};
ghost use Rattle.std.specs.List.{list_any};
ghost use Rattle.st_rows.specs.Rows.{done_before};
ghost use Rattle.st_ledger.specs.Reasons.{row_reason, back_to as back_by, is_first as is_first_of, is_written as is_written_of, is_stored as is_stored_of, reason_done, reason_in_order, reason_of_bus, reason_of_words, reason_of_address, writer_of_supply as writer_by, side_writer as side_writer_of, because as because_of};

use crate::uses::{decides, is_index, is_instruction, is_read, last_use, read_of};
use st_bits::register::FIRST_STORAGE_WORD;
use st_plain::Begun;
use st_rows::{Entry, IssueState, LastEntries, Role, Supply, Use, Writer};

/// The kind of dependence of a row on an earlier row that delayed it.
#[derive(Clone, Copy, Debug, PartialEq, Eq)]
pub enum Reason {
    /// The row before completed, and that row or this one is serialized.
    Serial,
    /// A row completed that wrote one of the instruction words.
    Store,
    /// A row completed whose level this row takes over.
    Level,
    /// A row completed that wrote the index-side word.
    Forwarding,
    /// The row before made reads, the last of which was accepted before those of this row.
    Bus,
    /// The row before was prepared.
    Order,
}

/// A reason with the row that it concerns.
#[derive(Clone, Copy, Debug, PartialEq, Eq)]
pub struct Cause {
    /// The kind of dependence.
    pub reason: Reason,
    /// The distance to that row in rows: 1 is the row before, 0 the row itself.
    pub back: u8,
    /// The tick at which the path to the row's completion begins.
    pub tick: u64,
    /// The greatest number of ticks by which this cause delayed the row.
    pub late: u64,
}

/// An instruction word that an earlier row requested.
#[derive(Clone, Copy, Debug, PartialEq, Eq)]
pub struct Prefetched {
    /// The word's address.
    pub word: u32,
    /// The greatest number of ticks by which this cause delayed the row.
    pub late: u64,
}

/// The cause for which a row was not prepared earlier.
#[derive(Clone, Copy, Debug, PartialEq, Eq)]
pub enum StallCause {
    /// The row's segment starts at this tick.
    Start(u64),
    /// An earlier row requested one of the row's instruction words.
    Prefetch(Prefetched),
    /// An earlier row, or a property of the row itself.
    Earlier(Cause),
}

// The cause with these parts.
fn earlier_reason(reason: Reason, back: u8, tick: u64, late: u64) -> StallCause
    ensures { result ≡ row_reason reason back tick late }
{
    StallCause::Earlier(Cause {
        reason,
        back,
        tick,
        late,
    })
}

// The first of some distances, 1 to 8, such that the entry at that distance completes at tick `t`;
// 0 if there is none.
fn first_done(t: u64, past: &LastEntries, numbers: &[u8]) -> u8
    requires { All (λ k. (1 ≤ k) × (k ≤ 8)) numbers.now }
    ensures { result
        ≡ unwrap_or (find (λ k. nat_eq (done_before k past.now) t) numbers.now) 0 }
{
    match numbers {
        [k, more @ ..] => {
            if past.done_before(usize::from(*k)) == t {
                return *k;
            }
            first_done(t, past, more)
        }
        [] => 0,
    }
}

// The distance, 1 to 8, to the entry that completes at tick `t`; 0 if there is none.
fn back_to(t: u64, past: &LastEntries) -> u8
    ensures { result ≡ back_by t past.now }
{
    first_done(t, past, &[1, 2, 3, 4, 5, 6, 7, 8])
}

// Whether the entry after this issue state is the first of its segment.
fn is_first(issue: &IssueState) -> bool
    ensures { result ≡ is_first_of issue.now }
{
    issue.past.done_before(1) == 0
}

// Whether the latest writer of a word of storage completes at tick `t`.
fn is_written(past: &LastEntries, t: u64, w: u32) -> bool
    ensures { result ≡ is_written_of past.now t w }
{
    w >= FIRST_STORAGE_WORD && past.latest_done(w) == t
}

// Whether a word is used as an instruction word and was written by an entry that completes at tick
// `t`.
fn is_stored(past: &LastEntries, t: u64, one: &Use) -> bool
    ensures { result ≡ is_stored_of past.now t one.now }
{
    is_instruction(one.role) && is_written(past, t, one.word)
}

// Whether one of some words is an instruction word that was written by an entry that completes at
// tick `t`.
fn is_any_stored(past: &LastEntries, t: u64, uses: &[Use]) -> bool
    ensures { result ≡ list_any (is_stored_of past.now t) (reverse uses.now) }
{
    let Some((last, earlier)) = last_use(uses) else {
        return false;
    };
    if is_stored(past, t, last) {
        return true;
    }
    is_any_stored(past, t, earlier)
}

// The cause that a completion at tick `t` gives: the entry before, if it or this entry is
// serialized, or an entry that wrote one of these words.
#[inline(always)]
fn done_at(issue: &IssueState, alone: bool, t: u64, words: &[Use]) -> Option<StallCause>
    ensures { result ≡ reason_done issue.now alone t (reverse words.now) }
{
    if is_first(issue) {
        return None;
    }
    let late = t.saturating_sub(issue.p);
    if t == issue.c && (alone || issue.serial) {
        return Some(earlier_reason(Reason::Serial, u8::from(issue.serial), t, late));
    }
    if is_any_stored(&issue.past, t, words) {
        return Some(earlier_reason(Reason::Store, back_to(t, &issue.past), t, late));
    }
    None
}

// The cause without any other dependence: the start of the segment, or the preparation of the entry
// before.
fn in_order(issue: &IssueState) -> StallCause
    ensures { result ≡ reason_in_order issue.now }
{
    if is_first(issue) {
        return StallCause::Start(issue.p);
    }
    earlier_reason(Reason::Order, 1, issue.p, 0)
}

// The cause `Bus` if the last read of the row before was accepted at tick `t`, after that row was
// prepared; else the cause from the order. The answer is put into `cause`, here and below, since a
// recursion whose answer is returned keeps all its frames.
fn bus_or_order(issue: &IssueState, t: u64, before: &[Use], cause: &mut StallCause)
    ensures { cause.new ≡ reason_of_bus issue.now t (reverse before.now) }
{
    let Some((last, earlier)) = last_use(before) else {
        *cause = in_order(issue);
        return;
    };
    if !is_read(&last.supply) {
        bus_or_order(issue, t, earlier, cause);
        return;
    }
    let read = read_of(&last.supply);
    if read.accept == t && issue.p < t {
        *cause = earlier_reason(Reason::Bus, 1, read.want, t.saturating_sub(issue.p));
        return;
    }
    *cause = in_order(issue);
}

// The cause of an instruction word that an earlier row requested.
fn asked_before(issue: &IssueState, word: u32, t: u64) -> StallCause
    ensures { result ≡ PrefetchOf (record { word = word; late = t - issue.now.p }) }
{
    StallCause::Prefetch(Prefetched {
        word,
        late: t.saturating_sub(issue.p),
    })
}

// The cause for which the words requested so far came late, on the path from tick `t` backwards.
fn of_words(
    issue: &IssueState,
    own: u8,
    t: u64,
    words: &[Use],
    before: &[Use],
    cause: &mut StallCause,
)
    ensures { cause.new
        ≡ reason_of_words issue.now own (reverse before.now) t (reverse words.now) }
{
    let Some((last, earlier)) = last_use(words) else {
        bus_or_order(issue, t, before, cause);
        return;
    };
    if !decides(Role::Instruction, t, last, earlier) {
        of_words(issue, own, t, earlier, before, cause);
        return;
    }
    if !is_read(&last.supply) {
        *cause = asked_before(issue, last.word, t);
        return;
    }
    let want = read_of(&last.supply).want;
    let of_target = usize::from(own) <= earlier.len();
    match done_at(issue, of_target, want, earlier) {
        Some(reason) => *cause = reason,
        None => of_words(issue, own, want, earlier, before, cause),
    }
}

// The cause for which the address was not formed earlier; it is formed at the tick after `t`.
fn of_address(
    issue: &IssueState,
    entry: &Entry,
    t: u64,
    words: &[Use],
    before: &[Use],
    cause: &mut StallCause,
)
    ensures { cause.new ≡ reason_of_address issue.now entry.now t (reverse before.now)
        (reverse words.now) }
{
    match done_at(issue, entry.serial, t, words) {
        Some(reason) => *cause = reason,
        None => of_words(issue, entry.own.len, t, words, before, cause),
    }
}

// The writer of a word that is forwarded; `None` if the word is not forwarded.
fn writer_of(supply: &Supply) -> Option<Writer>
    ensures { result ≡ writer_by supply.now }
{
    match supply {
        Supply::Forwarded(writer) => Some(*writer),
        Supply::Read(_) | Supply::Held(_) | Supply::Register => None,
    }
}

// Finds the writer of the index-side word, if that is forwarded.
fn find_side_writer(uses: &[Use], writer: &mut Option<Writer>)
    ensures { writer.new ≡ side_writer_of uses.now }
{
    let Some((first, more)) = uses.split_first() else {
        *writer = None;
        return;
    };
    if is_index(first.role) {
        *writer = writer_of(&first.supply);
        return;
    }
    find_side_writer(more, writer);
}

/// The cause for which the entry after an issue state was not prepared earlier. `words` are the
/// words that the entry uses until its address is formed, and `before` those of the row before it
/// in its segment; the first row of a segment has none before it.
pub fn find_reason(
    issue: &IssueState,
    entry: &Entry,
    begun: &Begun,
    words: &[Use],
    before: &[Use],
) -> StallCause
    ensures { result ≡ because_of issue.now entry.now begun.now.formed.a begun.now.formed.p
        begun.now.level_wait words.now before.now }
{
    if begun.level_wait > 0 {
        let done = begun.formed.p.saturating_sub(1);
        return earlier_reason(
            Reason::Level,
            back_to(done, &issue.past),
            done,
            begun.level_wait,
        );
    }
    let a = begun.formed.a;
    let mut writer = None;
    find_side_writer(words, &mut writer);
    if let Some(writer) = writer {
        return earlier_reason(
            Reason::Forwarding,
            writer.back,
            writer.done,
            writer.done.saturating_sub(a),
        );
    }
    let mut cause = StallCause::Start(0);
    of_address(issue, entry, a.saturating_sub(1), words, before, &mut cause);
    cause
}
