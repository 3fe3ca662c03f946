//! A text that is read token by token.
ghost use Rattle.std.specs.Prelude.{◌≤◌, length};

/// A text that is read token by token. `next` gives its tokens in order.
#[derive(Debug, Drop)]
pub struct Lexer<'a> {
    pub(crate) text: &'a [u8],
    /// Where the next token or the white space before it begins.
    pub(crate) at: usize,
    /// A number ends just before the place.
    pub(crate) close: bool,
    ghost within: { at ≤ length text.now },
}
