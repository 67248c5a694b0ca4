//! What the words of a call ask for: the one module that names `clap`.

ghost use Rattle.std.specs.Prelude.{IfOk, IfSome};
ghost use Rattle.view_program.specs.Calls.{AskForFigures, IsForFigures};

use clap::error::ErrorKind;
use clap::{Arg, ArgAction, ArgMatches, Command};
use run_view::Window;
use std::alloc::{AllocError, Global};
use std::env::Args;
use std::io;

/// What a call of the program is asked for.
#[derive(Clone, Copy, Debug, PartialEq, Eq, Drop)]
pub enum Job {
    /// To show an image.
    Image(ImageForm),
    /// `pool --changes`: to draw what changed between two images.
    Changes,
    /// To show some turns of a trace's replay.
    Trace(TraceForm, Window),
}

/// What is shown of an image.
#[derive(Clone, Copy, Debug, PartialEq, Eq, Drop)]
pub enum ImageForm {
    /// `stats`: its figures as aligned text.
    Text,
    /// `stats --json`: the same as JSON.
    Json,
    /// `pool`: its pool as a picture, with the references of a client's table where one is named.
    Pool(Option<u8>),
}

/// What is shown of a trace's replay.
#[derive(Clone, Copy, Debug, PartialEq, Eq, Drop)]
pub enum TraceForm {
    /// `steps`: its word steps by command.
    Steps,
    /// `steps --words`: each of its word steps.
    Words,
    /// `run`: the run as a picture.
    Run,
}

/// How many turns `run` shows where no last one is named.
const SOME: u64 = 500;

/// What the words ask for, and nothing where they aren't accepted. The first word names a command, and the words after it are read by that
/// command.
pub fn job_of(alloc: Global, words: &[String]) -> Result<Option<Job>, AllocError>
    ensures { AskForFigures words.now → IfOk result (λ asked. IfSome asked IsForFigures) }
{
    match words {
        [first, ..] => match first.as_str() {
            "stats" => stats_job(alloc, words),
            "pool" => pool_job(alloc, words),
            "steps" => steps_job(alloc, words),
            "run" => run_job(alloc, words),
            _ => Ok(None),
        },
        [] => Ok(None),
    }
}

/// What the words of `stats` ask for.
fn stats_job(alloc: Global, words: &[String]) -> Result<Option<Job>, AllocError>
    ensures { IfOk result (λ asked. IfSome asked IsForFigures) }
{
    let command = Command::new(alloc, "stats").arg(flag(alloc, "json"))?;
    match read(command, words)? {
        Some(matches) => {
            if is_set(&matches, "json") {
                Ok(Some(Job::Image(ImageForm::Json)))
            } else {
                Ok(Some(Job::Image(ImageForm::Text)))
            }
        }
        None => Ok(None),
    }
}

/// What the words of `pool` ask for.
fn pool_job(alloc: Global, words: &[String]) -> Result<Option<Job>, AllocError> {
    let command = Command::new(alloc, "pool")
        .arg(flag(alloc, "changes"))?
        .arg(Arg::new(alloc, "client").long("client"))?;
    match read(command, words)? {
        Some(matches) => Ok(pool_form(&matches)),
        None => Ok(None),
    }
}

/// The pool of an image, with the client that is named, or what changed between two; not both.
fn pool_form(matches: &ArgMatches<'_>) -> Option<Job> {
    match (is_set(matches, "changes"), client_of(matches)?) {
        (false, client) => Some(Job::Image(ImageForm::Pool(client))),
        (true, None) => Some(Job::Changes),
        (true, Some(_)) => None,
    }
}

/// The client that is named, if one is. Nothing where the word is no number from 0 to 15.
fn client_of(matches: &ArgMatches<'_>) -> Option<Option<u8>> {
    match matches.get_str("client") {
        Some(word) => match number(word)? {
            client if client < 16 => Some(Some(client as u8)),
            _ => None,
        },
        None => Some(None),
    }
}

/// What the words of `steps` ask for.
fn steps_job(alloc: Global, words: &[String]) -> Result<Option<Job>, AllocError> {
    let command = with_window(
        alloc,
        Command::new(alloc, "steps").arg(flag(alloc, "words"))?,
    )?;
    let matches = match read(command, words)? {
        Some(matches) => matches,
        None => return Ok(None),
    };
    let form = if is_set(&matches, "words") {
        TraceForm::Words
    } else {
        TraceForm::Steps
    };
    Ok(window_of(&matches, u64::MAX).map(|window| Job::Trace(form, window)))
}

/// What the words of `run` ask for.
fn run_job(alloc: Global, words: &[String]) -> Result<Option<Job>, AllocError> {
    let command = with_window(alloc, Command::new(alloc, "run"))?;
    match read(command, words)? {
        Some(matches) => Ok(window_of(&matches, SOME).map(|window| Job::Trace(
            TraceForm::Run,
            window,
        ))),
        None => Ok(None),
    }
}

/// An argument without a word behind it.
fn flag<'a>(alloc: Global, name: &'static str) -> Arg<'a> {
    Arg::new(alloc, name).long(name).action(ArgAction::SetTrue)
}

/// A command that takes the first and the last turn that are shown.
fn with_window<'a>(alloc: Global, command: Command<'a>) -> Result<Command<'a>, AllocError> {
    command
        .arg(Arg::new(alloc, "from").long("from"))?
        .arg(Arg::new(alloc, "to").long("to"))
}

/// Whether an argument without a word behind it is there.
fn is_set(matches: &ArgMatches<'_>, name: &str) -> bool {
    matches.get_str(name) == Some("true")
}

/// The turns that are shown: from the first one where none is named, and so many where the last one isn't named. Nothing where a word is no number of a
/// turn, or no turn is between them.
fn window_of(matches: &ArgMatches<'_>, some: u64) -> Option<Window> {
    let from = match matches.get_str("from") {
        Some(word) => number(word)?,
        None => 1,
    };
    let to = match matches.get_str("to") {
        Some(word) => number(word)?,
        None => from.saturating_add(some.saturating_sub(1)),
    };
    if from >= 1 && from <= to {
        Some(Window { from, to })
    } else {
        None
    }
}

/// The number below 2^64 that a word spells in decimal without a leading zero.
fn number(word: &str) -> Option<u64> {
    match word.as_bytes() {
        [b'0'] | [b'1'..=b'9', ..] => word.parse().ok(),
        _ => None,
    }
}

/// What a command reads in the words, and nothing where it refuses them.
fn read<'a>(
    command: Command<'a>,
    words: &'a [String],
) -> Result<Option<ArgMatches<'a>>, AllocError> {
    match command.try_get_matches_from(words) {
        Ok(matches) => Ok(Some(matches)),
        Err(error) if error.kind() == ErrorKind::OutOfMemory => Err(AllocError),
        Err(_) => Ok(None),
    }
}

/// The words after the name of the process, and none where they can't be read.
pub fn program_words(alloc: Global, args: io::Result<Args>) -> Result<Vec<String>, AllocError> {
    let mut rest = match args {
        Ok(all) => all,
        Err(error) if error.kind() == io::ErrorKind::OutOfMemory => return Err(AllocError),
        Err(_) => return Ok(Vec::new(alloc)),
    };
    let _name = rest.next();
    rest.collect(alloc)
}
