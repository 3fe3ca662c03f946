//! Identifiers.
ghost use Rattle.std.specs.List.{take_while};
ghost use Rattle.selector_tokens.specs.Finding.{Finds};
ghost use Rattle.selector_tokens.specs.Lexing.{is_name_byte, name_first};

use crate::Token;
use crate::found::{Found, Unread};
use crate::reserved::word_of;
use crate::runs::name_run;
use byte_lists::Bytes;
use std::alloc::Global;

/// The identifier or reserved word at the front of the text.
pub(crate) fn name_of(alloc: Global, text: &[u8]) -> Result<Found, Unread>
    ensures { Finds result (name_first (take_while is_name_byte text.now)) }
{
    let letters = name_run(text);
    let token = match word_of(letters) {
        Some(word) => Token::Word(word),
        None => Token::Name(Bytes::of(alloc, letters)?),
    };
    Ok(Found {
        token,
        takes: letters.len(),
    })
}
