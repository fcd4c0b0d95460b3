ghost use Rattle.std.specs.Prelude.{◌≡◌, map, string_bytes, IfOk, Err, Some, None, option_map};
ghost use Rattle.clap.specs.Words.{app_of, subcommand_rows_of};
ghost use Rattle.gate_words.specs.declared.fault.WordsFault.TheVariants.{BadArguments};
ghost use Rattle.gate_words.specs.Words.{program, asked_by, asked_with, asked_of};

use crate::fault::WordsFault;
use clap::error::ErrorKind;
use clap::{Arg, ArgAction, ArgMatches, Command};
use std::alloc::{AllocError, Global};

/// What the words ask for.
#[derive(Clone, Copy)]
pub enum Request<'a> {
    /// `replay`: replay the script on standard input.
    Replay,
    /// `serve --config PATH`: run the daemon as the file of this path configures it.
    Serve(&'a str),
}

fn command_line<'a>(alloc: Global) -> Result<Command<'a>, AllocError>
    ensures { IfOk result (λ command. app_of command ≡ program) }
{
    let config = Arg::new(alloc, "config")
        .long("config")
        .required(true)
        .action(ArgAction::Set);
    let serve = Command::new(alloc, "serve").arg(config)?;
    Command::new(alloc, "nscagate")
        .no_binary_name(true)
        .subcommand(Command::new(alloc, "replay"))?
        .subcommand(serve)
}

fn request_in<'a>(matches: &ArgMatches<'a>) -> Option<Request<'a>>
    ensures { option_map asked_by result ≡ asked_with (subcommand_rows_of matches.now) }
{
    let (name, found) = matches.subcommand()?;
    if name == "replay" {
        return Some(Request::Replay);
    }
    match found.get_str("config") {
        Some(path) => Some(Request::Serve(path)),
        None => None,
    }
}

/// Reads the words after the program's name: `replay`, or `serve --config PATH` in any spelling
/// that `clap` reads, as `--config=PATH`.
///
/// Any others are refused as `BadArguments`. `OutOfMemory` may be returned in place of any answer.
pub fn read_words<'a>(alloc: Global, words: &'a [String]) -> Result<Request<'a>, WordsFault>
    ensures asked { IfOk result (λ request.
        asked_of (map string_bytes words.entry.now) ≡ Some (asked_by request)) }
    ensures refused { result ≡ Err BadArguments
        → asked_of (map string_bytes words.entry.now) ≡ None }
{
    let Ok(command) = command_line(alloc) else {
        return Err(WordsFault::OutOfMemory);
    };
    match command.try_get_matches_from(words) {
        Ok(matches) => request_in(&matches).ok_or(WordsFault::BadArguments),
        Err(error) => match error.kind() {
            ErrorKind::OutOfMemory => Err(WordsFault::OutOfMemory),
            _ => Err(WordsFault::BadArguments),
        },
    }
}
