//! Reads the words of a command line with `clap`.
ghost use Rattle.std.specs.Prelude.{◌≡◌, IfErr, IfOk, false, map, string_bytes, true};
ghost use Rattle.clap.specs.Values.{kind_of};
ghost use Rattle.clap.specs.Simple.{app_of, subcommand_rows_of};
ghost use Rattle.clap.specs.Walk.{rule_of};
ghost use Rattle.command_line.specs.Found.{KeepsArguments, IsFound, alone, gen_shape, operand_shape, required_rule};
ghost use Rattle.command_line.specs.JournalTasks.{asked_journal};
ghost use Rattle.command_line.specs.Tasks.{asked};
ghost use Rattle.command_line.specs.Wanted.{Asks, is_listed};

use crate::asked::Asked;
use crate::found::{COUNT, NUMBER, PATH, TEXT, asked_in};
use byte_lists::NoMemory;
use clap::error::ErrorKind;
use clap::{Arg, ArgMatches, Command, Error};
use std::alloc::{AllocError, Global};

/// An argument that has to stand on the command line.
fn required<'a>(alloc: Global, id: &'a str) -> Arg<'a>
    ensures rule { rule_of result ≡ required_rule id.entry.now }
    ensures own { result.global ≡ false }
{
    Arg::new(alloc, id).required(true)
}

/// A command of this name that takes one argument.
fn operand_words<'a>(alloc: Global, name: &'a str, id: &'a str) -> Result<Command<'a>, AllocError>
    ensures shape { IfOk result (λ command.
        app_of command ≡ alone (operand_shape name.entry.now id.entry.now)) }
    ensures keeps { IfOk result KeepsArguments }
{
    Command::new(alloc, name).arg(required(alloc, id))
}

/// The command `gen`, with a number and a count.
fn generate_words<'a>(alloc: Global) -> Result<Command<'a>, AllocError>
    ensures shape { IfOk result (λ command. app_of command ≡ alone gen_shape) }
    ensures keeps { IfOk result KeepsArguments }
{
    let command = Command::new(alloc, "gen").arg(required(alloc, NUMBER))?;
    command.arg(required(alloc, COUNT))
}

/// Reads words of the list. Refuses only for want of memory.
fn read_matches<'a>(alloc: Global, words: &'a [String]) -> Result<ArgMatches<'a>, Error>
    requires { is_listed (map string_bytes words.now) ≡ true }
    ensures found { IfOk result (λ matches.
        IsFound (map string_bytes words.entry.now) (subcommand_rows_of matches)) }
    ensures memory { IfErr result (λ error. kind_of error ≡ ErrorKind.OutOfMemory) }
{
    let run = Command::new(alloc, "run");
    let select = operand_words(alloc, "select", TEXT)?;
    let generate = generate_words(alloc)?;
    let init = operand_words(alloc, "init", PATH)?;
    let recover = operand_words(alloc, "recover", PATH)?;
    let program = Command::new(alloc, "qpidq")
        .no_binary_name(true)
        .subcommand(run)?
        .subcommand(select)?
        .subcommand(generate)?
        .subcommand(init)?
        .subcommand(recover)?;
    program.try_get_matches_from(words)
}

/// What words of the list ask for. Refuses only for want of memory.
pub fn read_words<'a>(alloc: Global, words: &'a [String]) -> Result<Asked<'a>, NoMemory>
    requires { is_listed (map string_bytes words.now) ≡ true }
    ensures { IfOk result (λ wanted. Asks wanted (asked (map string_bytes words.entry.now))
        (asked_journal (map string_bytes words.entry.now))) }
{
    match read_matches(alloc, words) {
        Ok(matches) => Ok(asked_in(&matches)),
        Err(_) => Err(NoMemory),
    }
}
