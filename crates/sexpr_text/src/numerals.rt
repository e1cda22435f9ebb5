//! Numbers in texts.

ghost use Rattle.std.specs.Prelude.{◌≡◌, ◌<◌, ◌≤◌, IfSome, true, length};
ghost use Rattle.std.specs.Char.{is_ascii_digit};
ghost use Rattle.std.specs.List.{list_all};
ghost use Rattle.std.specs.Str.Parse.{digits_value};
ghost use Rattle.sexpr_text.specs.Numerals as numerals;

use crate::texts::Text;

/// The length of the longest numeral.
const MAX_DIGITS: usize = 9;

/// The number that a word of one to nine decimal digits writes; every other word writes none. It
/// may begin with zeros.
pub fn numeral(text: &Text) -> Option<u32>
    ensures { result ≡ numerals.numeral text.now }
{
    numeral_in(text.as_bytes())
}

/// The same of a text that is part of a word, with what is known of its size.
pub fn numeral_in(digits: &[u8]) -> Option<u32>
    ensures value { result ≡ numerals.numeral digits.now }
    ensures bound { IfSome result (λ n. n < 1000000000) }
    ensures short { IfSome result (λ n. length digits.now ≤ 9) }
{
    if is_numeral(digits) {
        Some(number(digits))
    } else {
        None
    }
}

// Whether the word is one to nine decimal digits.
fn is_numeral(text: &[u8]) -> bool
    ensures { result ≡ numerals.is_numeral text.now }
{
    !text.is_empty() && text.len() <= MAX_DIGITS && are_digits(text)
}

// Whether each byte is a decimal digit.
fn are_digits(text: &[u8]) -> bool
    ensures { result ≡ list_all is_ascii_digit text.now }
{
    text.iter().all(|byte| byte.is_ascii_digit())
}

// The number that the digits write.
fn number(digits: &[u8]) -> u32
    requires { numerals.is_numeral digits.now ≡ true }
    ensures value { result ≡ digits_value 10 digits.now }
    ensures bound { result < 1000000000 }
{
    let mut number = 0;
    for digit in digits {
        number = number * 10 + u32::from(*digit - b'0');
    }
    number
}
