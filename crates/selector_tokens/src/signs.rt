//! Signs.
ghost use Rattle.selector_tokens.specs.Finding.{Finds};
ghost use Rattle.selector_tokens.specs.Lexing.{sign_first};

use crate::found::{Found, Unread};
use crate::{CompareOp, Kind, Token};

/// The sign that begins with this byte, given the text behind it.
pub(crate) fn sign_of(first: u8, behind: &[u8]) -> Result<Found, Unread>
    ensures { Finds result (sign_first first behind.now) }
{
    let (token, takes) = match (first, behind) {
        (b'=', _) => (Token::Compare(CompareOp::Equal), 1),
        (b'<', [b'>', ..]) => (Token::Compare(CompareOp::Unequal), 2),
        (b'<', [b'=', ..]) => (Token::Compare(CompareOp::LessEqual), 2),
        (b'<', _) => (Token::Compare(CompareOp::Less), 1),
        (b'>', [b'=', ..]) => (Token::Compare(CompareOp::GreaterEqual), 2),
        (b'>', _) => (Token::Compare(CompareOp::Greater), 1),
        (b'+', _) => (Token::Plus, 1),
        (b'-', _) => (Token::Minus, 1),
        (b'*', _) => (Token::Times, 1),
        (b'/', _) => (Token::Divide, 1),
        (b'(', _) => (Token::Open, 1),
        (b')', _) => (Token::Close, 1),
        (b',', _) => (Token::Comma, 1),
        (b'.', [b'0'..=b'9', ..]) => return Err(Unread::Fault(Kind::FloatLiteral)),
        _ => return Err(Unread::Fault(Kind::BadChar)),
    };
    Ok(Found { token, takes })
}
