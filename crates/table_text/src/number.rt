// The number of a cell.

ghost use Rattle.std.specs.Prelude.{◌≡◌, ◌<◌, ◌≤◌, ◌+◌, ◌&&◌, false, not, IfOk, IfErr, IfSome};
ghost use Rattle.std.specs.Prelude.{IfNone, is_some, length, slice_index, nat_lt};
ghost use Rattle.table_text.specs.Token.{is_blank, is_64_bits, signed_value};
ghost use Rattle.table_text.specs.Wanted.{ANumber, misfit};
ghost use Rattle.table_text.specs.Reading.{tokens_at, TakesNumber, TokenMisfits};
ghost use Rattle.table_text.specs.declared.fault.TableFault.TheVariants.{Form};

use crate::fault::TableFault;
use crate::word::{is_blank, run_at, skip_blanks};

/// The number of a cell.
#[derive(Clone, Copy)]
pub struct Number {
    /// The number.
    pub value: i64,
    /// The first byte behind it.
    pub end: usize,
}

/// Whether a token goes on at that byte.
fn goes_on(text: &[u8], at: usize) -> bool
    ensures { result ≡ (nat_lt at (length text.now) && not (is_blank (slice_index text.now at))) }
{
    at < text.len() && !is_blank(text[at])
}

/// The number, or its negation, where it has 64 bits.
fn signed(is_negative: bool, value: u64) -> Option<i64>
    ensures some { is_some result ≡ is_64_bits (signed_value is_negative value) }
    ensures value { IfSome result (λ number. number ≡ signed_value is_negative value) }
{
    if !is_negative {
        return i64::try_from(value).ok();
    }
    if value <= i64::MAX as u64 {
        Some(-(value as i64))
    } else if value == i64::MIN.unsigned_abs() {
        Some(i64::MIN)
    } else {
        None
    }
}

/// The number of the token that begins at that byte.
fn number_at(text: &[u8], start: usize) -> Option<Number>
    requires inside { start < length text.now }
    requires begins { is_blank (slice_index text.now start) ≡ false }
    ensures number { IfSome result (λ number.
        TakesNumber (tokens_at text.now start) number.value
        (tokens_at text.now number.end)) }
    ensures behind { IfSome result (λ number. start < number.end) }
    ensures within { IfSome result (λ number. number.end ≤ length text.now) }
    ensures none { IfNone result (TokenMisfits (length text.now) (misfit ANumber)
        (tokens_at text.now start) (Form start)) }
{
    let is_negative = text[start] == b'-';
    let first = start + usize::from(is_negative);
    let digits = run_at(text, first);
    if digits.end == first || goes_on(text, digits.end) {
        return None;
    }
    match signed(is_negative, digits.value) {
        None => None,
        Some(value) => Some(Number {
            value,
            end: digits.end,
        }),
    }
}

/// The next token's number, or `Form` with its byte where it is none of 64 bits, or the text ends.
/// It takes no memory.
pub fn read_number(text: &[u8], from: usize) -> Result<Number, TableFault>
    requires { from ≤ length text.now }
    ensures number { IfOk result (λ number.
        TakesNumber (tokens_at text.now from) number.value
        (tokens_at text.now number.end)) }
    ensures behind { IfOk result (λ number. from < number.end) }
    ensures within { IfOk result (λ number. number.end ≤ length text.now) }
    ensures fault { IfErr result (λ fault.
        TokenMisfits (length text.now) (misfit ANumber) (tokens_at text.now from) fault) }
{
    let start = skip_blanks(text, from);
    if start == text.len() {
        return Err(TableFault::Form(start as u64));
    }
    match number_at(text, start) {
        None => Err(TableFault::Form(start as u64)),
        Some(number) => Ok(number),
    }
}
