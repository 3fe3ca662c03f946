//! What was found in the words of a command line.
ghost use Rattle.std.specs.Prelude.{◌≡◌, ℕ, List, Some, true, is_some};
ghost use Rattle.clap.specs.Matches.{found_of};
ghost use Rattle.clap.specs.Simple.{subcommand_rows_of};
ghost use Rattle.clap.specs.Walk.{first_of, rows_of};
ghost use Rattle.command_line.specs.Found.{HasNumbers, IsFound};
ghost use Rattle.command_line.specs.JournalTasks.{asked_journal};
ghost use Rattle.command_line.specs.Tasks.{asked};
ghost use Rattle.command_line.specs.Wanted.{Asks};
ghost use Rattle.command_line.specs.declared.asked.Asked.TheVariants.{Generate};

use crate::asked::Asked;
use crate::numbers::number_of;
use clap::ArgMatches;

/// The name of the selector's text on the command line.
pub(crate) const TEXT: &str = "TEXT";

/// The name of a journal's path on the command line.
pub(crate) const PATH: &str = "PATH";

/// The name of the number on the command line from which a script is made, and that of the count of messages.
pub(crate) const NUMBER: &str = "NUMBER";

pub(crate) const COUNT: &str = "COUNT";

/// The value of an argument that has one.
fn operand_in<'a>(matches: &ArgMatches<'a>, id: &str) -> &'a str
    requires { is_some (first_of id.now (rows_of (found_of matches.now))) ≡ true }
    ensures { first_of id.now (rows_of (found_of matches.now)) ≡ Some result.now }
{
    let Some(text) = matches.get_str(id) else {
        unreachable!()
    };
    text
}

/// What `gen` asks for with the number and the count that were found.
fn numbers_in<'a>(matches: &ArgMatches<'a>) -> Asked<'a>
    requires { (number count : ℕ) × HasNumbers number count (rows_of (found_of matches.now)) }
    ensures { (number count : ℕ) → HasNumbers number count (rows_of (found_of matches.now)) →
        result ≡ Generate number count }
{
    let number = operand_in(matches, NUMBER);
    let count = operand_in(matches, COUNT);
    Asked::Generate {
        number: number_of(number.as_bytes()),
        count: number_of(count.as_bytes()),
    }
}

/// What the command asks for that was found.
pub(crate) fn asked_in<'a>(matches: &ArgMatches<'a>) -> Asked<'a>
    requires { (words : List (List ℕ)) × IsFound words (subcommand_rows_of matches.now) }
    ensures { (words : List (List ℕ)) → IsFound words (subcommand_rows_of matches.now) →
        Asks result (asked words) (asked_journal words) }
{
    if let Some(select) = matches.subcommand_matches("select") {
        return Asked::Select(operand_in(select, TEXT));
    }
    if let Some(init) = matches.subcommand_matches("init") {
        return Asked::Init(operand_in(init, PATH));
    }
    if let Some(recover) = matches.subcommand_matches("recover") {
        return Asked::Recover(operand_in(recover, PATH));
    }
    match matches.subcommand_matches("gen") {
        Some(generate) => numbers_in(generate),
        None => Asked::Run,
    }
}
