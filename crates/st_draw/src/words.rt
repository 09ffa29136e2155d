//! Parses the words of the command line of `chart`: a kind of picture, and the numbers of the first
//! and the last row, all optional. docs/chart.md has the rules. Only program.rt calls `read_words`.
//!
//! Proved: the meaning is `picture_choice` of specs/Words.antt; `None` is a bad command line.
//!
//! Pinned, by specs/Words.antt and docs/chart.md: the words; rows are numbered from 1; ROW_LIMIT,
//! the figure of `row_limit`: a longer part is cut to 200 rows. A new kind needs a variant, a row
//! of `kind_named` here and in specs/Words.antt, and a case in program.rt. Free: the bodies.
ghost use Rattle.std.specs.Prelude.{◌≡◌, map};
ghost use Rattle.std.specs.String.{string_bytes};
ghost use Rattle.st_draw.specs.Words as spec;

use st_entries::RowRange;
use st_text::number_up_to;

/// A kind of chart.
#[derive(Clone, Copy)]
pub enum PictureKind {
    /// An SVG chart for a browser.
    Svg,
    /// Lines of text for a terminal.
    Text,
    /// A log for a pipeline viewer.
    Kanata,
}

/// The requested chart.
#[derive(Clone, Copy)]
pub struct Choice {
    /// The kind of chart.
    pub kind: PictureKind,
    /// The rows, at most 200.
    pub part: RowRange,
}

// The most rows that are drawn.
const ROW_LIMIT: u64 = 200;

// The rows that are drawn by default.
const FIRST_PART: RowRange = RowRange {
    from: 1,
    to: ROW_LIMIT,
};

// The kind of chart that a word names.
fn kind_named(word: &str) -> Option<PictureKind>
    ensures { result ≡ spec.kind_named word.now }
{
    match word {
        "svg" => Some(PictureKind::Svg),
        "text" => Some(PictureKind::Text),
        "kanata" => Some(PictureKind::Kanata),
        _ => None,
    }
}

// The rows from one number to another: at least one row, and at most 200.
fn part_between(from: u64, to: u64) -> Option<RowRange>
    ensures { result ≡ spec.part_between from to }
{
    if from < 1 || to < from {
        return None;
    }
    Some(RowRange {
        from,
        to: to.min(from.saturating_add(ROW_LIMIT - 1)),
    })
}

// The rows that two words name.
fn part_named(from: &str, to: &str) -> Option<RowRange>
    ensures { result ≡ spec.part_named from.now to.now }
{
    let from = number_up_to(from.as_bytes(), u64::MAX)?;
    let to = number_up_to(to.as_bytes(), u64::MAX)?;
    part_between(from, to)
}

/// The chart that the words request; `None` if they are invalid.
pub fn read_words(words: &[String]) -> Option<Choice>
    ensures { result ≡ spec.picture_choice (map string_bytes words.now) }
{
    match words {
        [] => Some(Choice {
            kind: PictureKind::Svg,
            part: FIRST_PART,
        }),
        [word] => Some(Choice {
            kind: kind_named(word.as_str())?,
            part: FIRST_PART,
        }),
        [from, to] => Some(Choice {
            kind: PictureKind::Svg,
            part: part_named(from.as_str(), to.as_str())?,
        }),
        [word, from, to] => Some(Choice {
            kind: kind_named(word.as_str())?,
            part: part_named(from.as_str(), to.as_str())?,
        }),
        _ => None,
    }
}
