//! Escape strings and patterns of LIKE.
ghost use Rattle.std.specs.Prelude.{◌≡◌};
ghost use Rattle.std.specs.Str.{chars};
ghost use Rattle.selector_read.specs.Grammar.{characters, is_whole_pattern};
ghost use Rattle.selector_read.specs.Reading.{only_character};

use std::str::from_utf8;

/// The bytes of a name or a string as a text. Those of selectors and messages are UTF-8; of others it is the empty text.
pub fn as_text(bytes: &[u8]) -> &str
    ensures { chars result.now ≡ characters bytes.now }
{
    match from_utf8(bytes) {
        Ok(text) => text,
        Err(_) => "",
    }
}

/// The one character that the bytes are, if they are one.
pub(crate) fn only_character(bytes: &[u8]) -> Option<char>
    ensures { result ≡ only_character bytes.now }
{
    let text = as_text(bytes);
    let mut characters = text.chars();
    let first = characters.next()?;
    match characters.next() {
        Some(_) => None,
        None => Some(first),
    }
}

/// Whether a pattern does not end with an escape character that escapes nothing.
pub(crate) fn is_whole_pattern(escape: char, pattern: &[u8]) -> bool
    ensures { result ≡ is_whole_pattern escape pattern.now }
{
    let text = as_text(pattern);
    let mut escapes = false;
    for character in text.chars() {
        escapes = !escapes && character == escape;
    }
    !escapes
}
