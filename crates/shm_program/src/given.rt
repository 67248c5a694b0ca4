//! What a command reads in the words: the one module that names `clap`.

ghost use Rattle.std.specs.{Prelude.{◌≡◌, IfOk, false, map}, String.string_bytes};
ghost use Rattle.clap.specs.Words.{app_of, new_app, rule_of};
ghost use Rattle.shm_program.specs.Givens.{Gives, IsReadBy, command_of, rule_in, with_argument, word_of};
ghost use Rattle.shm_program.specs.Words.{rows_in};

use crate::words::Name;
use clap::error::ErrorKind;
use clap::{Arg, ArgAction, ArgMatches, Command};
use std::alloc::{AllocError, Global};

/// An argument of a command.
#[derive(Clone, Copy, Drop)]
pub enum Argument {
    /// Two dashes and this name, once or not at all.
    Flag(&'static str),
    /// Two dashes and this name, once or not at all, and a word after it.
    Valued(&'static str),
    /// A word that must be there.
    Required(&'static str),
}

/// What a command read in the words: the text of each argument that is there, and `true` for that of a flag that is set.
#[derive(Clone, Copy, Drop)]
pub struct Given<'a> {
    pub image: Option<&'a str>,
    pub print: Option<&'a str>,
    pub medics: Option<&'a str>,
    pub start: Option<&'a str>,
    pub size: Option<&'a str>,
    pub turns: Option<&'a str>,
    pub limit: Option<&'a str>,
}

/// The word that names a command.
fn word_of<'a>(name: Name) -> &'a str
    ensures { result.now ≡ word_of name }
{
    match name {
        Name::Replay => "replay",
        Name::Run => "run",
        Name::Audit => "audit",
        Name::Make => "make",
        Name::Migrate => "migrate",
        Name::Poll => "poll",
        Name::Tree => "tree",
    }
}

/// The arguments of a command, of which there are three at most.
fn arguments_of(name: Name) -> (Option<Argument>, Option<Argument>, Option<Argument>)
    ensures { with_argument (with_argument (with_argument (new_app (word_of name)) result.0) result.1) result.2 ≡ command_of name }
{
    match name {
        Name::Replay => (
            Some(Argument::Flag("image")),
            Some(Argument::Flag("print")),
            None,
        ),
        Name::Run => (
            Some(Argument::Flag("image")),
            Some(Argument::Valued("medics")),
            None,
        ),
        Name::Make => (
            Some(Argument::Required("start")),
            Some(Argument::Required("size")),
            Some(Argument::Flag("print")),
        ),
        Name::Poll => (
            Some(Argument::Required("turns")),
            Some(Argument::Valued("limit")),
            None,
        ),
        Name::Audit | Name::Migrate | Name::Tree => (None, None, None),
    }
}

/// An argument as `clap` has it.
fn arg_of<'a>(alloc: Global, argument: Argument) -> Arg<'a>
    ensures rule { rule_of result ≡ rule_in argument }
    ensures local { result.global ≡ false }
{
    match argument {
        Argument::Flag(id) => Arg::new(alloc, id).long(id).action(ArgAction::SetTrue),
        Argument::Valued(id) => Arg::new(alloc, id).long(id),
        Argument::Required(id) => Arg::new(alloc, id).required(true),
    }
}

/// A command with one argument more, where there is one.
fn with<'a>(
    alloc: Global,
    command: Command<'a>,
    argument: Option<Argument>,
) -> Result<Command<'a>, AllocError>
    ensures { IfOk result (λ c. app_of c ≡ with_argument (app_of command.entry) argument) }
{
    match argument {
        Some(argument) => command.arg(arg_of(alloc, argument)),
        None => Ok(command),
    }
}

/// The command of this name.
fn built<'a>(alloc: Global, name: Name) -> Result<Command<'a>, AllocError>
    ensures { IfOk result (λ c. app_of c ≡ command_of name) }
{
    let (first, second, third) = arguments_of(name);
    let bare = Command::new(alloc, word_of(name));
    let one = with(alloc, bare, first)?;
    let two = with(alloc, one, second)?;
    with(alloc, two, third)
}

/// The texts of the arguments that were read.
fn given_of<'a>(matches: &ArgMatches<'a>) -> Given<'a>
    ensures { Gives result (rows_in matches.now) }
{
    Given {
        image: matches.get_str("image"),
        print: matches.get_str("print"),
        medics: matches.get_str("medics"),
        start: matches.get_str("start"),
        size: matches.get_str("size"),
        turns: matches.get_str("turns"),
        limit: matches.get_str("limit"),
    }
}

/// What the command of this name reads in the words, and nothing where it refuses them.
pub fn read<'a>(
    alloc: Global,
    name: Name,
    words: &'a [String],
) -> Result<Option<Given<'a>>, AllocError>
    ensures { IfOk result (λ given. IsReadBy (command_of name) (map string_bytes words.entry.now) given) }
{
    let command = built(alloc, name)?;
    match command.try_get_matches_from(words) {
        Ok(matches) => Ok(Some(given_of(&matches))),
        Err(error) if error.kind() == ErrorKind::OutOfMemory => Err(AllocError),
        Err(_) => Ok(None),
    }
}
