ghost use Rattle.std.specs.Prelude.{◌≡◌, ◌+◌, ◌^◌, ◌<◌, ◌≤◌, Some, IfOk, IfErr, IfSome, MatchOption, option_map, unsigned_abs};
ghost use Rattle.bfm_lexer.specs.Numbers.{number_of};
ghost use Rattle.bfm_lexer.specs.Cursor.{begins_with, begins_with_digit, number_at, natural_at, handed, handed_natural};

use bfm_base::Cause;
use bfm_base::limits::GREATEST_NUMBER;

/// Reads a whole number: an optional `-` and one or more decimal digits, of any count. `BadLine` is
/// another form, `OutOfLimit` an absolute value above 2^62.
pub fn number(digits: &[u8]) -> Result<i64, Cause>
    ensures ok { IfOk result (λ n. (number_of digits.now ≡ Some n) × (unsigned_abs n ≤ GREATEST_NUMBER)) }
    ensures err { IfErr result (λ cause. MatchOption (number_of digits.now) (cause ≡ Cause.BadLine)
        (λ n. (cause ≡ Cause.OutOfLimit) × (GREATEST_NUMBER < unsigned_abs n))) }
{
    let Some((number, rest)) = number_at(digits) else {
        return Err(Cause::BadLine);
    };
    if !rest.is_empty() {
        return Err(Cause::BadLine);
    }
    if number.unsigned_abs() > GREATEST_NUMBER {
        return Err(Cause::OutOfLimit);
    }
    Ok(number)
}

/// The number at the very start of a text, and what stands behind its last digit.
pub(crate) fn number_at(text: &[u8]) -> Option<(i64, &[u8])>
    ensures { option_map (λ read. (read.0, read.1.now)) result ≡ handed (number_at text.now) }
{
    if begins_with(b'-', text) {
        let (size, rest) = natural_at(&text[1..])?;
        Some((-(size as i64), rest))
    } else {
        let (size, rest) = natural_at(text)?;
        Some((size as i64, rest))
    }
}

/// The same without a sign.
pub(crate) fn natural_at(text: &[u8]) -> Option<(u64, &[u8])>
    ensures read { option_map (λ read. (read.0, read.1.now)) result ≡ handed_natural (natural_at text.now) }
    ensures size { IfSome result (λ read. read.0 ≤ GREATEST_NUMBER + 1) }
{
    if !begins_with_digit(text) {
        return None;
    }
    let mut value = 0;
    let mut rest = text;
    while begins_with_digit(rest) {
        let digit = rest[0] - b'0';
        // Once above the limit it stays above.
        value = if value > GREATEST_NUMBER / 10 {
            GREATEST_NUMBER + 1
        } else {
            value * 10 + u64::from(digit)
        };
        rest = &rest[1..];
    }
    Some((value.min(GREATEST_NUMBER + 1), rest))
}

fn begins_with_digit(text: &[u8]) -> bool
    ensures { result ≡ begins_with_digit text.now }
{
    match text {
        [first, ..] => first.is_ascii_digit(),
        [] => false,
    }
}

pub(crate) fn begins_with(byte: u8, text: &[u8]) -> bool
    ensures { result ≡ begins_with byte text.now }
{
    match text {
        [first, ..] => *first == byte,
        [] => false,
    }
}
