//! Strings.
ghost use Rattle.std.specs.Prelude.{◌≡◌, ◌==◌, drop, take};
ghost use Rattle.std.specs.List.{position_or_len};
ghost use Rattle.selector_tokens.specs.Finding.{Finds};
ghost use Rattle.selector_tokens.specs.Lexing.{begins_with, string_first, string_in};

use crate::found::{Found, Unread};
use crate::runs::plain_len;
use crate::{Kind, Token};
use byte_lists::Bytes;
use std::alloc::Global;

/// Whether the text begins with this byte.
fn begins_with(byte: u8, text: &[u8]) -> bool
    ensures { result ≡ begins_with byte text.now }
{
    match text {
        [] => false,
        [first, ..] => *first == byte,
    }
}

/// The text before its first quote, and from there on.
fn cut_at_quote(text: &[u8]) -> (&[u8], &[u8])
    ensures before { result.0.now ≡ take (position_or_len (λ byte. byte == 39) text.now) text.now }
    ensures quoted { result.1.now ≡ drop (position_or_len (λ byte. byte == 39) text.now) text.now }
{
    text.split_at(plain_len(text))
}

/// The string whose opening quote stands just before these bytes.
pub(crate) fn string_of(alloc: Global, behind: &[u8]) -> Result<Found, Unread>
    ensures { Finds result (string_first (string_in behind.now)) }
{
    let mut says = Vec::new(alloc);
    let mut rest = behind;
    loop {
        let (plain, quoted) = cut_at_quote(rest);
        if quoted.is_empty() {
            return Err(Unread::Fault(Kind::OpenString));
        }
        let more = &quoted[1..];
        says.extend_from_slice(plain)?;
        if !begins_with(b'\'', more) {
            return Ok(Found {
                token: Token::Text(Bytes::from_vec(says)),
                takes: behind.len() - more.len() + 1,
            });
        }
        says.push(b'\'')?;
        rest = &more[1..];
    }
}
