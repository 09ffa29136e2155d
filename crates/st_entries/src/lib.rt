//! The entries of the timetable in a report: their texts, and their events as a log for a pipeline
//! viewer. docs/chart.md has the rules. Only `st_draw` calls this crate. Input is any text, even if
//! it is no report of `stretch`. Calls that allocate memory fail only if memory runs out.
//!
//! Proved: each call returns what a definition of a file in specs/ says, which the head of its
//! module names. The laws `OneExecutesAtATick`, `LogsGoForward` and `LabelsStayInTheirLines` stand
//! in specs/Laws.antt. Not proved: that `st_report` writes the lines that are read here; the charts
//! in vectors/pictures show this.
//!
//! Pinned, by `st_draw`, docs/chart.md and docs/CLAIMS.md: the public calls and types with their
//! clauses. Free: all that is private.
#![tactic(auto, unfolding( //
crate::specs::Caption::first_text, //
crate::specs::Caption::indicator_names, //
crate::specs::Caption::indicator_text, //
crate::specs::Caption::second_text, //
crate::specs::Caption::third_text, //
crate::specs::Caption::title, //
crate::specs::Caption::with_dots, //
crate::specs::Caption::words_with_number, //
crate::specs::Label::card_text, //
crate::specs::Label::is_listed, //
crate::specs::Label::label, //
crate::specs::Label::emits, //
crate::specs::Log::begin_lines, //
crate::specs::Log::change_lines, //
crate::specs::Log::log, //
crate::specs::Log::log_end_lines, //
crate::specs::Log::moment_lines, //
crate::specs::Moments::happenings, //
crate::specs::Moments::moments_of, //
crate::specs::Report::dropped_item, //
crate::specs::Report::item, //
crate::specs::Report::number_in_report, //
crate::specs::Report::place_in_report, //
crate::specs::Report::row_item, //
crate::specs::Report::word_in_line, //
crate::specs::Timetable::timetable //
))]

mod caption;
mod label;
mod log;
mod log_line;
mod moments;
mod plain;
mod report;
mod timetable;

pub use caption::{CARD_LIMIT, first_text, second_text, third_text, title, widest, with_dots};
pub use log::write_log;
pub use plain::{plain_byte, push_decimal, push_plain};
pub use report::ReportAddress;
pub use timetable::{DrawnEntry, ReadTimetable, RowRange, first_tick, read_timetable};
