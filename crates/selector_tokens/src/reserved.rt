//! Reserved words.
ghost use Rattle.std.specs.Prelude.{◌≡◌};
ghost use Rattle.selector_tokens.specs.Lexing.{word_of};

use crate::Word;

/// The reserved word that these letters are, whatever their case.
#[tactic(auto, unfolding(crate::specs::Lexing::word_of))]
pub(crate) fn word_of(letters: &[u8]) -> Option<Word>
    ensures { result ≡ word_of letters.now }
{
    if letters.eq_ignore_ascii_case(b"and") {
        Some(Word::And)
    } else if letters.eq_ignore_ascii_case(b"or") {
        Some(Word::Or)
    } else if letters.eq_ignore_ascii_case(b"not") {
        Some(Word::Not)
    } else if letters.eq_ignore_ascii_case(b"between") {
        Some(Word::Between)
    } else if letters.eq_ignore_ascii_case(b"in") {
        Some(Word::In)
    } else if letters.eq_ignore_ascii_case(b"like") {
        Some(Word::Like)
    } else if letters.eq_ignore_ascii_case(b"escape") {
        Some(Word::Escape)
    } else if letters.eq_ignore_ascii_case(b"is") {
        Some(Word::Is)
    } else if letters.eq_ignore_ascii_case(b"null") {
        Some(Word::Null)
    } else if letters.eq_ignore_ascii_case(b"true") {
        Some(Word::True)
    } else if letters.eq_ignore_ascii_case(b"false") {
        Some(Word::False)
    } else {
        None
    }
}
