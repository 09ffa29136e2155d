//! The look-up of a word in a table of names with their values. `st_card` (keywords), `st_expr`
//! (system symbols), `st_mnemonic` (operations and data descriptions), `st_object` and `st_strap`
//! call `row_of`. docs/strap.md and docs/object-text.md list the words.
//!
//! Proved: the result is `row_of` of specs/Tables.antt, the value of the first row with this word.
//! So the order of a table that has each word once does not matter. Not proved: speed; the search
//! is a scan.
//!
//! Pinned, by `row_of` of specs/Tables.antt, the proofs of these crates and the law `SymbolsAgree`
//! (`st_laws`): the first row counts. Free: the search, if proofs/tables follows.

ghost use Rattle.std.specs.Prelude.{◌≡◌};
ghost use Rattle.st_text.specs.Tables as spec;

/// The value of the first row whose key is `word`, None if there is none.
pub fn row_of<T: Copy>(rows: &[(&[u8], T)], word: &[u8]) -> Option<T>
    ensures { result ≡ spec.row_of word.now (spec.rows_of rows.now) }
{
    // Proofs name the loop by its label.
    'rows: for row in rows {
        if word == row.0 {
            return Some(row.1);
        }
    }
    None
}
