//! Which words the program has.
ghost use Rattle.std.specs.Prelude.{◌≡◌, None, Some, MatchOption, is_some, map, string_bytes};
ghost use Rattle.command_line.specs.JournalTasks.{asked_journal, initializing, path_of, recovering, takes_path};
ghost use Rattle.command_line.specs.Tasks.{asked, is_operand, selecting};
ghost use Rattle.command_line.specs.Wanted.{is_listed};

use crate::numbers::{is_count, is_number};

/// Whether the text may stand as a word: it is not empty and does not begin with `-`.
fn is_operand(text: &str) -> bool
    ensures { result ≡ is_operand text.now }
{
    match text.as_bytes() {
        [first, ..] => *first != b'-',
        [] => false,
    }
}

/// Whether the words are `select` and a text.
pub fn is_select(words: &[String]) -> bool
    ensures { result ≡ is_some (selecting (asked (map string_bytes words.now))) }
{
    match words {
        [word, text] => word.as_str() == "select" && is_operand(text.as_str()),
        _ => false,
    }
}

/// Whether the words are `init` and a path.
pub fn is_init(words: &[String]) -> bool
    ensures { result ≡ is_some (initializing (asked_journal (map string_bytes words.now))) }
{
    match words {
        [word, path] => word.as_str() == "init" && is_operand(path.as_str()),
        _ => false,
    }
}

/// Whether the words are `recover` and a path.
pub fn is_recover(words: &[String]) -> bool
    ensures { result ≡ is_some (recovering (asked_journal (map string_bytes words.now))) }
{
    match words {
        [word, path] => word.as_str() == "recover" && is_operand(path.as_str()),
        _ => false,
    }
}

/// Whether the words have a task that has nothing to do with a journal: they are `run`, or `select` and a text, or `gen`,
/// a number and a count.
fn is_asked(words: &[String]) -> bool
    ensures { result ≡ is_some (asked (map string_bytes words.now)) }
{
    match words {
        [word] => word.as_str() == "run",
        [word, number, count] => {
            word.as_str() == "gen" && is_number(number.as_bytes()) && is_count(count.as_bytes())
        }
        _ => is_select(words),
    }
}

/// Whether the words are `init` or `recover`, and a path.
fn is_asked_journal(words: &[String]) -> bool
    ensures { result ≡ is_some (asked_journal (map string_bytes words.now)) }
{
    is_init(words) || is_recover(words)
}

/// Whether the words are in the program's list: `run`; `select` and a text; `gen`, a number and a count; `init` and a
/// path; `recover` and a path.
pub fn is_listed(words: &[String]) -> bool
    ensures { result ≡ is_listed (map string_bytes words.now) }
{
    is_asked(words) || is_asked_journal(words)
}

/// Whether the word is that of a command that takes the path of a journal.
fn takes_path(word: &str) -> bool
    ensures { result ≡ takes_path word.now }
{
    word == "init" || word == "recover" || word == "run"
}

/// The path of the journal: the second of two words of which the first is `init`, `recover` or `run`, where it isn't
/// empty and doesn't begin with `-`. Other words have none.
pub fn journal_path(words: &[String]) -> Option<&str>
    ensures { MatchOption result (path_of (map string_bytes words.now) ≡ None)
        (λ path. path_of (map string_bytes words.now) ≡ Some path.now) }
{
    match words {
        [word, path] => {
            if takes_path(word.as_str()) && is_operand(path.as_str()) {
                Some(path.as_str())
            } else {
                None
            }
        }
        _ => None,
    }
}
