//! The patterns of LIKE.
ghost use Rattle.std.specs.Prelude.{◌≡◌, ◌↔◌, ◌∷◌, ◌<◌, [], IsTrue, IfNone, IfSome, length};
ghost use Rattle.std.specs.Str.{chars};
ghost use Rattle.selector_read.specs.Grammar.{characters};
ghost use Rattle.selector_eval.specs.Patterns.{stands_for, fits, parts, some_rest};
ghost use Rattle.selector_eval.specs.Reached.{IsAfterPercent, Tells};

use selector_read::as_text;

/// What one place of a pattern stands for.
#[derive(Clone, Copy, Debug, PartialEq, Eq)]
pub(crate) enum Part {
    /// Any characters.
    Any,
    /// Any one character.
    One,
    /// This character.
    Exactly(char),
}

impl Part {
    /// Whether this stands for the character, perhaps among others.
    fn stands_for(self, character: char) -> bool
        ensures { result ≡ stands_for self character }
    {
        match self {
            Part::Any | Part::One => true,
            Part::Exactly(only) => character == only,
        }
    }
}

/// How a text goes with a pattern up to the pattern's first %.
#[derive(Clone, Copy)]
pub(crate) enum Reached<'a> {
    /// The text fits the pattern.
    Fits,
    /// It doesn't.
    Fails,
    /// It does where some rest of `text` fits `pattern`, which is what stands behind the %.
    Open { pattern: &'a str, text: &'a str },
}

/// The first character and what follows it; None exactly where the text is empty.
fn split_first(text: &str) -> Option<(char, &str)>
    ensures none { IfNone result (chars text.now ≡ []) }
    ensures some { IfSome result (λ p. chars text.now ≡ p.0 ∷ chars p.1.now) }
    ensures shorter { IfSome result (λ p. length p.1.now < length text.now) }
{
    let mut rest = text.chars();
    let first = rest.next()?;
    Some((first, rest.as_str()))
}

/// What the pattern's first place stands for, and the pattern behind it; None exactly where the pattern is empty.
fn split_part(pattern: &str, escape: Option<char>) -> Option<(Part, &str)>
    ensures none { IfNone result (parts escape (chars pattern.now) ≡ []) }
    ensures some { IfSome result (λ p. parts escape (chars pattern.now) ≡ p.0 ∷ parts escape (chars p.1.now)) }
    ensures shorter { IfSome result (λ p. length p.1.now < length pattern.now) }
{
    let (first, behind) = split_first(pattern)?;
    if escape == Some(first) {
        return match split_first(behind) {
            Some((escaped, behind)) => Some((Part::Exactly(escaped), behind)),
            None => Some((Part::Exactly(first), behind)),
        };
    }
    match first {
        '%' => Some((Part::Any, behind)),
        '_' => Some((Part::One, behind)),
        plain => Some((Part::Exactly(plain), behind)),
    }
}

/// At a %, which has this pattern behind it: at the end of a pattern it takes the whole text.
fn after_percent<'a>(behind: &'a str, text: &'a str) -> Reached<'a>
    ensures { IsAfterPercent behind.now text.now result }
{
    if behind.is_empty() {
        Reached::Fits
    } else {
        Reached::Open {
            pattern: behind,
            text,
        }
    }
}

/// Goes through the pattern up to its first %, and as far through the text.
fn up_to_percent<'a>(escape: Option<char>, mut pattern: &'a str, mut text: &'a str) -> Reached<'a>
    ensures { Tells escape pattern.now text.now result }
{
    while let Some((part, behind)) = split_part(pattern, escape) {
        if part == Part::Any {
            return after_percent(behind, text);
        }
        match split_first(text) {
            Some((first, rest)) if part.stands_for(first) => {
                pattern = behind;
                text = rest;
            }
            _ => return Reached::Fails,
        }
    }
    if text.is_empty() {
        Reached::Fits
    } else {
        Reached::Fails
    }
}

/// Whether some rest of the text fits the pattern. Where what stands before the next % fits at several places, the
/// first of them leaves the most of the text, so no other is tried: the time is at most the product of the lengths.
fn fits_somewhere<'a>(escape: Option<char>, mut pattern: &'a str, mut text: &'a str) -> bool
    ensures { result ≡ some_rest (fits escape (chars pattern.now)) (chars text.now) }
{
    loop {
        match up_to_percent(escape, pattern, text) {
            Reached::Fits => return true,
            Reached::Fails => match split_first(text) {
                Some((_, rest)) => text = rest,
                None => return false,
            },
            Reached::Open {
                pattern: behind,
                text: left,
            } => {
                pattern = behind;
                text = left;
            }
        }
    }
}

/// Whether the whole text fits the pattern, by their characters.
pub(crate) fn is_like(escape: Option<char>, pattern: &[u8], text: &[u8]) -> bool
    ensures { result ≡ fits escape (characters pattern.now) (characters text.now) }
{
    is_like_text(escape, as_text(pattern), as_text(text))
}

/// The same of texts.
fn is_like_text<'a>(escape: Option<char>, pattern: &'a str, text: &'a str) -> bool
    ensures { result ≡ fits escape (chars pattern.now) (chars text.now) }
{
    match up_to_percent(escape, pattern, text) {
        Reached::Fits => true,
        Reached::Fails => false,
        Reached::Open { pattern, text } => fits_somewhere(escape, pattern, text),
    }
}
