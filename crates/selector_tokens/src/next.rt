//! Reading the tokens of a text one by one.
ghost use Rattle.std.specs.Prelude.{◌≡◌, ◌<◌, ◌≤◌, drop, false, IfOk, IfSome};
ghost use Rattle.std.specs.Char.{is_ascii_whitespace};
ghost use Rattle.selector_tokens.specs.Lexer.{IsNext, ahead, bytes_left, text_of};
ghost use Rattle.selector_tokens.specs.Lexing.{begins_with_any, lexed};

use crate::first::first_of;
use crate::found::{Found, Unread};
use crate::runs::space_len;
use crate::{Lexer, Placed, SelectorFault};
use std::alloc::Global;

impl<'a> Lexer<'a> {
    /// A lexer at the beginning of the text. Takes no memory.
    pub fn of(text: &'a str) -> Lexer<'a>
        ensures ahead { ahead result ≡ lexed text.now }
        ensures text { text_of result ≡ text.now }
    {
        Lexer {
            text: text.as_bytes(),
            at: 0,
            close: false,
        }
    }

    /// Passes over white space.
    fn skip_space(&mut self)
        ensures ahead { ahead self.new ≡ ahead self.old }
        ensures text { text_of self.new ≡ text_of self.old }
        ensures left { bytes_left self.new ≤ bytes_left self.old }
        ensures passed { begins_with_any is_ascii_whitespace (drop self.new.at self.new.text.now) ≡ false }
    {
        let space = space_len(&self.text[self.at..]);
        if space > 0 {
            self.at += space;
            self.close = false;
        }
    }

    /// The next token, or none at the end of the text, or the fault of the place where no token can be read.
    /// Only a token is passed: the end and a fault come again, and after NoMemory the same token is still to come.
    /// A text of any length is read. It takes memory for the bytes of a name or a string.
    pub fn next(&mut self, alloc: Global) -> Result<Option<Placed>, SelectorFault>
        ensures next { IsNext self.old self.new result }
        ensures text { text_of self.new ≡ text_of self.old }
        ensures fewer { IfOk result (λ next. IfSome next (λ _. bytes_left self.new < bytes_left self.old)) }
    {
        self.skip_space();
        let at = self.at as u64;
        let text = &self.text[self.at..];
        if text.is_empty() {
            return Ok(None);
        }
        match first_of(alloc, self.close, text) {
            Ok(Found { token, takes }) => {
                self.at += takes;
                self.close = token.is_number();
                Ok(Some(Placed { at, token }))
            }
            Err(Unread::Fault(kind)) => Err(SelectorFault::Bad { at, kind }),
            Err(Unread::NoMemory) => Err(SelectorFault::NoMemory),
        }
    }
}
