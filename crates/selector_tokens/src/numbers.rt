//! Whole numbers.
ghost use Rattle.std.specs.Prelude.{◌≡◌, ◌^◌, drop, length, pos, Some, None, nat_lt, if◌then◌else◌};
ghost use Rattle.std.specs.Char.{is_ascii_digit};
ghost use Rattle.std.specs.List.{AllPass, take_while};
ghost use Rattle.std.specs.Str.Parse.{digits_value};
ghost use Rattle.selector_tokens.specs.Finding.{Finds};
ghost use Rattle.selector_tokens.specs.Lexing.{number_first};

use crate::found::{Found, Unread};
use crate::runs::digits_len;
use crate::{Kind, Token};

/// The number that the digits write, or none above 9223372036854775807.
#[tactic(auto, using(crate::proofs::Digits::value_more, crate::proofs::Digits::value_past))]
fn value_of(digits: &[u8]) -> Option<i64>
    requires { AllPass is_ascii_digit digits.now }
    ensures { result ≡ (if nat_lt (digits_value 10 digits.now) (2 ^ 63) then Some (pos (digits_value 10 digits.now)) else None) }
{
    let mut value: u64 = 0;
    for digit in digits {
        value = value
            .checked_mul(10)?
            .checked_add(u64::from(*digit - b'0'))?;
    }
    i64::try_from(value).ok()
}

/// The number at the front of the text.
#[tactic(auto, using(crate::proofs::Fronts::number_fronts))]
pub(crate) fn number_of(text: &[u8]) -> Result<Found, Unread>
    ensures { let digits = take_while is_ascii_digit text.now in Finds result (number_first digits (drop (length digits) text.now)) }
{
    let (digits, behind) = text.split_at(digits_len(text));
    if let [b'.' | b'e' | b'E', ..] = behind {
        return Err(Unread::Fault(Kind::FloatLiteral));
    }
    match value_of(digits) {
        Some(number) => Ok(Found {
            token: Token::Number(number),
            takes: digits.len(),
        }),
        None => Err(Unread::Fault(Kind::IntRange)),
    }
}
