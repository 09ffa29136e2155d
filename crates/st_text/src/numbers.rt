//! Plain decimal numbers: one or more digits, without a sign; leading zeros are allowed. Parsers of
//! cards, expressions, object texts, reports and command lines use these calls, each with its own
//! maximum (`st_card`, `st_expr`, `st_mnemonic`, `st_strap`, `st_object`, `st_entries`, `st_draw`,
//! `st_account`, `st_top`).
//!
//! Proved: `read_number` is `reading` of specs/Number.antt for texts of any length: no number,
//! above the maximum, or the value. `number_up_to` is the definition of its name in this file; the
//! clauses `within` say that a value is at most the maximum. The law `NumbersAgree` (`st_laws`) is
//! about readers of control cards and object texts.
//!
//! Pinned, by `reading` of specs/Number.antt and docs/strap.md: which texts are numbers. Free: the
//! private functions, as long as no sum overflows, if proofs/numbers follows `read_digits`.

ghost use Rattle.std.specs.Prelude.{◌≡◌, ◌+◌, ◌*◌, ◌^◌, ◌≤◌, min, IfSome, Some, None, if◌then◌else◌};
ghost use Rattle.std.specs.Char.{is_ascii_digit};
ghost use Rattle.std.specs.List.{list_all};
ghost use Rattle.st_text.specs.Number as spec;

/// The result of reading a text as a number.
#[derive(Clone, Copy, Debug, PartialEq, Eq)]
pub enum Reading {
    /// The text is not a number.
    Bad,
    /// The text is a number above the maximum.
    Large,
    /// The text is this number.
    Good(u64),
}

/// Reads `text` as a number of at most `most`.
pub fn read_number(text: &[u8], most: u64) -> Reading
    ensures value { result ≡ spec.reading most text.now }
    ensures within { spec.IsWithin most result }
{
    if text.is_empty() {
        return Reading::Bad;
    }
    match read_digits(text, u128::from(most) + 1) {
        None => Reading::Bad,
        Some(number) if number > u128::from(most) => Reading::Large,
        Some(number) => Reading::Good(number as u64),
    }
}

/// The number that `text` spells if it is at most `most`, otherwise None.
pub fn number_up_to(text: &[u8], most: u64) -> Option<u64>
    ensures value { result ≡ spec.number_up_to most text.now }
    ensures within { IfSome result (λ n. n ≤ most) }
{
    match read_number(text, most) {
        Reading::Good(number) => Some(number),
        Reading::Large | Reading::Bad => None,
    }
}

// The value of a text of digits, at most `cap`; None if another byte occurs.
fn read_digits(text: &[u8], cap: u128) -> Option<u128>
    requires { cap ≤ 2 ^ 64 }
    ensures { result
        ≡ (if list_all is_ascii_digit text.now then Some (min (spec.digits_value text.now) cap)
        else None) }
{
    let mut number = 0;
    let mut rest = text;
    // Proofs name the loop by its label.
    'digits: while let [digit, after @ ..] = rest {
        if !digit.is_ascii_digit() {
            return None;
        }
        number = (number * 10 + u128::from(*digit - b'0')).min(cap);
        rest = after;
    }
    Some(number)
}
