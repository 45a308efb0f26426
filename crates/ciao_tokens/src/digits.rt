// Digits and their numbers.
ghost use Rattle.std.specs.Prelude.{IsUtf8, ◌≡◌, ◌+◌, ◌*◌, ◌<◌, ◌≤◌, ◌^◌, length, MatchOption};
ghost use Rattle.std.specs.List.{prefix_len};
ghost use Rattle.std.specs.Char.{digit_value, is_ascii_digit, is_ascii_hexdigit};
ghost use Rattle.ciao_tokens.specs.Quotes.{value_of};
ghost use Rattle.ciao_tokens.specs.Scanning.{run, behind_run};

use crate::parts::split;

const MOST_NUMBER: u64 = 9_223_372_036_854_775_808;

fn digit_value(byte: u8) -> u64
    ensures { result ≡ digit_value byte }
{
    match (byte as char).to_digit(36) {
        None => 36,
        Some(value) => value as u64,
    }
}

// With one digit more, where it is within the limit.
fn with_digit(base: u64, value: u64, digit: u8) -> Option<u64>
    ensures { MatchOption result (2 ^ 63 < value * base + digit_value digit) (λ next. (next ≡ value * base + digit_value digit) × (next ≤ 2 ^ 63)) }
{
    match value.checked_mul(base) {
        None => None,
        Some(product) => match product.checked_add(digit_value(digit)) {
            None => None,
            Some(next) => {
                if next <= MOST_NUMBER {
                    Some(next)
                } else {
                    None
                }
            }
        },
    }
}

/// The number that digits of a base write, or none where it is above 2^63.
pub(crate) fn value_of(base: u64, digits: &str) -> Option<u64>
    requires { 1 ≤ base }
    ensures { MatchOption result (2 ^ 63 < value_of base digits.now) (λ value. (value ≡ value_of base digits.now) × (value ≤ 2 ^ 63)) }
{
    let mut value = 0;
    for digit in digits.as_bytes() {
        match with_digit(base, value, *digit) {
            None => return None,
            Some(next) => value = next,
        }
    }
    Some(value)
}

fn decimal_bytes(text: &str) -> usize
    ensures count { result ≡ prefix_len is_ascii_digit text.now }
    ensures within { result ≤ length text.now }
{
    text.as_bytes()
        .iter()
        .take_while(|byte| byte.is_ascii_digit())
        .count()
}

/// The decimal digits that come first, and what stands behind them.
pub(crate) fn split_decimal(text: &str) -> (&str, &str)
    ensures front { result.0.now ≡ run is_ascii_digit text.now }
    ensures behind { result.1.now ≡ behind_run is_ascii_digit text.now }
    ensures utf8 { IsUtf8 result.1.now }
{
    split(text, decimal_bytes(text))
}

fn hexadecimal_bytes(text: &str) -> usize
    ensures count { result ≡ prefix_len is_ascii_hexdigit text.now }
    ensures within { result ≤ length text.now }
{
    text.as_bytes()
        .iter()
        .take_while(|byte| byte.is_ascii_hexdigit())
        .count()
}

/// The hexadecimal digits that come first, and what stands behind them.
pub(crate) fn split_hexadecimal(text: &str) -> (&str, &str)
    ensures front { result.0.now ≡ run is_ascii_hexdigit text.now }
    ensures behind { result.1.now ≡ behind_run is_ascii_hexdigit text.now }
    ensures utf8 { IsUtf8 result.1.now }
{
    split(text, hexadecimal_bytes(text))
}
