//! The first token of a text.
ghost use Rattle.std.specs.Prelude.{◌<◌, drop, length, slice_index};
ghost use Rattle.selector_tokens.specs.Finding.{Finds};
ghost use Rattle.selector_tokens.specs.Lexing.{first_token};

use crate::Kind;
use crate::found::{Found, Unread};
use crate::names::name_of;
use crate::numbers::number_of;
use crate::runs::begins_name;
use crate::signs::sign_of;
use crate::strings::string_of;
use std::alloc::Global;

/// The first token of a text that begins with no white space. `close` says that a number ends just before it.
#[tactic(auto, unfolding(crate::specs::Lexing::first_token))]
pub(crate) fn first_of(alloc: Global, close: bool, text: &[u8]) -> Result<Found, Unread>
    requires { 0 < length text.now }
    ensures { Finds result (first_token close (slice_index text.now 0) (drop 1 text.now)) }
{
    let first = text[0];
    if begins_name(first) {
        if close {
            return Err(Unread::Fault(Kind::BadChar));
        }
        return name_of(alloc, text);
    }
    if first.is_ascii_digit() {
        return number_of(text);
    }
    let behind = &text[1..];
    if first == b'\'' {
        string_of(alloc, behind)
    } else {
        sign_of(first, behind)
    }
}
