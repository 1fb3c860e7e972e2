//! The commands as `clap` takes them, and what it says of mistakes in their words.

use crate::shapes::{Item, Row, SHAPES, Shape};
use clap::error::ErrorKind;
use clap::{Arg, ArgAction, Command, Error};
use std::alloc::{AllocError, Global};

/// What stands below the help of the program: the exit statuses, and an example.
const STATUSES: &str = "Exit status:
  0  an answer, or all that was asked for
  1  the command line is not allowed
  2  a text is refused
  3  the run came to its end without one answer, or does not hold the entry
  4  the run is not at its end: it may fire no more
  5  memory, reading or writing failed

Example: ./u run programs/double.u 4";

/// The program with its commands.
pub fn commands<'a>(alloc: Global) -> Result<Command<'a>, AllocError> {
    let mut all = Command::new(alloc, "u")
        .bin_name("u")?
        .version("0.1.0")
        .about("Checks and runs dataflow programs. Without any word it runs a stored program.")
        .after_help(STATUSES)
        .disable_help_subcommand(true);
    for shape in &SHAPES {
        let word: &'a str = shape.word;
        all = all.subcommand(command(alloc, shape, word)?)?;
    }
    Ok(all)
}

/// The mistake in the words of the command with that word, or else of the program.
pub fn mistake(alloc: Global, word: &str, message: &str) -> Result<Error, AllocError> {
    let name = format!(in alloc; "u {word}")?;
    for shape in &SHAPES {
        if shape.word == word {
            return command(alloc, shape, name.as_str())?.error(ErrorKind::ValueValidation, message);
        }
    }
    commands(alloc)?.error(ErrorKind::ValueValidation, message)
}

/// The command of that shape, under the name that its usage has.
fn command<'a>(alloc: Global, shape: &Shape, name: &'a str) -> Result<Command<'a>, AllocError> {
    let mut command = Command::new(alloc, name)
        .about(shape.about)
        .after_help(shape.example);
    for row in shape.rows {
        command = command.arg(argument(alloc, *row)?)?;
    }
    Ok(command)
}

/// A word or an option of a command.
fn argument<'a>(alloc: Global, row: Row) -> Result<Arg<'a>, AllocError> {
    let (item, help) = row;
    let arg = match item {
        Item::Word(name) => Arg::new(alloc, name).required(true),
        Item::AnyWord(name) => Arg::new(alloc, name)
            .required(true)
            .allow_hyphen_values(true),
        Item::Perhaps(name) => Arg::new(alloc, name),
        Item::Choice(name) => Arg::new(alloc, name).long(name).action(ArgAction::SetTrue),
        Item::Path(name, others) => option(alloc, name, "PATH").conflicts_with_all(others)?,
        Item::Number(name, value, range, usual) => option(alloc, name, value)
            .value_parser(range)
            .default_value(usual),
        Item::Beside(name, value, range, word) => option(alloc, name, value)
            .value_parser(range)
            .requires_arg(word)?,
    };
    Ok(arg.help(help))
}

/// An option that takes a value, which help calls so.
fn option<'a>(alloc: Global, name: &'a str, value: &'a str) -> Arg<'a> {
    Arg::new(alloc, name).long(name).value_name(value)
}
