//! Reading the words after the program's name.

ghost use Rattle.std.specs.Prelude.{◌≡◌, [], None, IfOk, false, map};
ghost use Rattle.std.specs.String.{string_bytes};
ghost use Rattle.clap.specs.Words.{app_of, kind_of, rule_of};
ghost use Rattle.command_line.specs.CommandLine.{IsAskedBy, IsRunOrMemory, Explains, option_rule, path_rule, default_options, program};

use crate::options::Options;
use clap::builder::ValueParser;
use clap::error::ErrorKind;
use clap::{Arg, ArgAction, Command, Error, value_parser};
use std::alloc::{AllocError, Global};

/// The program's name and version, the first line of its help.
const VERSION: &str = "towerbench 1.1.0";

/// The id of the word that names a tower or bench file.
const FILE: &str = "FILE";

/// The id of the option for the number of threads that help to fill.
const WORKERS: &str = "workers";

/// The id of the option that limits the cells.
const CELLS: &str = "cells";

/// The id of the option that limits the branches.
const BRANCHES: &str = "branches";

/// The id of the option that names the file to which the branches are saved.
const SAVE: &str = "save";

/// What the words ask for.
#[derive(Debug, Drop)]
pub enum Invocation<'a> {
    /// To run the program. `file` is the FILE that the words name, or `None` if they name none.
    /// `save` is the path of the file to which the branches are saved, or `None` if the words give
    /// no such path.
    Run {
        file: Option<&'a str>,
        options: Options,
        save: Option<&'a str>,
    },
    /// The help, to be printed.
    Help(String),
    /// The words are refused, for this reason.
    Refused(String),
    /// Memory ran out while the words were read.
    Memory,
}

/// Reads the words after the program's name. If memory runs out, returns `Memory`. Otherwise
/// returns the run of the program that the words ask for, with each option in its range, if they
/// are accepted; the help, if they ask for it; or why they are refused, if they are wrong. If there
/// are no words, they ask for a run with the default options, without FILE and PATH.
pub fn parse_words<'a>(alloc: Global, words: &'a [String]) -> Invocation<'a>
    ensures asked { IsAskedBy (map string_bytes words.entry.now) result }
    ensures bare { words.entry.now ≡ [] → IsRunOrMemory None default_options None result }
{
    let Ok(command) = command(alloc) else {
        return Invocation::Memory;
    };
    let matches = match command.try_get_matches_from(words) {
        Ok(matches) => matches,
        Err(error) => return invocation_of(alloc, &error),
    };
    // Each of these options has a default, so it always has a number.
    let Some(workers) = matches.get_one::<u32>(WORKERS) else {
        unreachable!();
    };
    let Some(cells) = matches.get_one::<u32>(CELLS) else {
        unreachable!();
    };
    let Some(branches) = matches.get_one::<u32>(BRANCHES) else {
        unreachable!();
    };
    Invocation::Run {
        file: matches.get_str(FILE),
        options: Options {
            workers,
            cells,
            branches,
        },
        save: matches.get_str(SAVE),
    }
}

/// The program's command line.
fn command<'a>(alloc: Global) -> Result<Command<'a>, AllocError>
    ensures { IfOk result (λ c. app_of c ≡ program) }
{
    let file = Arg::new(alloc, FILE).help(
        "A tower and its steps, or its branches; without it a safe bit",
    );
    let workers = number_option(alloc, WORKERS, value_parser!(u32).range(0..=4), "0").help(
        "Threads that help to fill, 0 to 4",
    );
    let cells = number_option(
        alloc,
        CELLS,
        value_parser!(u32).range(1..=268435456),
        "65536",
    )
    .help("The most cells that are ever made, 1 to 268435456");
    let branches = number_option(alloc, BRANCHES, value_parser!(u32).range(1..=1024), "64").help(
        "The most branches that there are at a time, 1 to 1024",
    );
    let save = path_option(alloc, SAVE).help("Where the branches are saved after the script");
    Command::new(alloc, "towerbench")
        .before_help(VERSION)
        .about(
            "Answers the script on standard input: edits and looks over the runs of a register tower",
        )
        .no_binary_name(true)
        .arg(file)?
        .arg(workers)?
        .arg(cells)?
        .arg(branches)?
        .arg(save)
}

/// An option with a number. The number is `default` if the option isn't used.
fn number_option<'a>(
    alloc: Global,
    id: &'a str,
    number: ValueParser<'a>,
    default: &'a str,
) -> Arg<'a>
    ensures rule { rule_of result ≡ option_rule id.now number.entry default.now }
    ensures own { result.global ≡ false }
{
    Arg::new(alloc, id)
        .long(id)
        .action(ArgAction::Set)
        .value_name("N")
        .value_parser(number)
        .default_value(default)
}

/// An option with a path.
fn path_option<'a>(alloc: Global, id: &'a str) -> Arg<'a>
    ensures rule { rule_of result ≡ path_rule id.now }
    ensures own { result.global ≡ false }
{
    Arg::new(alloc, id)
        .long(id)
        .action(ArgAction::Set)
        .value_name("PATH")
}

/// The outcome for words whose reading gave this error.
fn invocation_of<'a>(alloc: Global, error: &Error) -> Invocation<'a>
    ensures { Explains (kind_of error.now) result }
{
    let Ok(text) = format!(in alloc; "{error}") else {
        return Invocation::Memory;
    };
    match error.kind() {
        ErrorKind::OutOfMemory => Invocation::Memory,
        ErrorKind::DisplayHelp => Invocation::Help(text),
        _ => Invocation::Refused(text),
    }
}
