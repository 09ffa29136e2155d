//! Texts without their leading or trailing blanks; a blank is the byte 32, and no other byte counts
//! as one. Names of symbols (`st_asm`), texts of cards (`st_entries`), prints and the listing
//! (`st_report`) lose their blanks by these calls.
//!
//! Proved: each result is the definition of its name in specs/Blanks.antt; `blank_next` adds that a
//! blank follows the filled part.
//!
//! Pinned, by `blank` of specs/Bytes.antt: the byte 32. Pinned, by specs/Blanks.antt and the proofs
//! of `st_asm`, `st_entries` and `st_report`: the results; docs/strap.md and docs/report.md say
//! where blanks are dropped. Free: the bodies, if proofs/blanks follows.

ghost use Rattle.std.specs.Prelude.{◌≡◌, ◌<◌, ◌≤◌, length, take, slice_index};
ghost use Rattle.st_text.specs.Bytes.{blank};
ghost use Rattle.st_text.specs.Blanks as spec;

/// The length of a text without its trailing blanks.
pub fn filled_len(text: &[u8]) -> usize
    ensures within { result ≤ length text.now }
    ensures value { take result text.now ≡ spec.without_end_blanks text.now }
    ensures blank_next { result < length text.now → slice_index text.now result ≡ blank }
{
    text.iter()
        .rposition(|byte| *byte != b' ')
        .map_or(0, |last| last + 1)
}

/// A text without its trailing blanks.
pub fn without_end_blanks(text: &[u8]) -> &[u8]
    ensures text { result.now ≡ spec.without_end_blanks text.now }
    ensures shorter { length result.now ≤ length text.now }
{
    text.split_at(filled_len(text)).0
}

/// A text without its leading blanks.
pub fn without_front_blanks(text: &[u8]) -> &[u8]
    ensures text { result.now ≡ spec.without_front_blanks text.now }
    ensures shorter { length result.now ≤ length text.now }
{
    let mut rest = text;
    // Proofs name the loop by its label.
    'blanks: while let [b' ', after @ ..] = rest {
        rest = after;
    }
    rest
}
