ghost use Rattle.std.specs.Prelude.{◌≡◌, ◌≢◌, map, string_bytes, IfOk, IsErr, Err, Some, None};
ghost use Rattle.clap.specs.Words.{IsAmong, fault_of, found_of, kind_of, rows_of, subcommand_rows_of};
ghost use Rattle.clap.specs.declared.error.Error.{Error as Refusal};
ghost use Rattle.operator_words.specs.CommandLine.{program};
ghost use Rattle.operator_words.specs.Words.{remark_on, request_on, keeping_on, look_on, task_on, asked_with, asked_of};

use crate::command_line::command_line;
use crate::found::{
    is_set, object_in, option_in, options_in, remark_in, text_in, texts_in, window_in,
};
use clap::error::ErrorKind;
use clap::{ArgMatches, Error};
use operator_commands::{Asked, Request, Task};
use std::alloc::{AllocError, Global};

/// Why the words are no request.
#[derive(Drop)]
pub enum WordsFault {
    /// clap refuses them, or they ask for help or the version: its message and exit status.
    Refused(Error),
    /// No command is among them.
    NoCommand,
    /// Memory ran out.
    OutOfMemory,
}

impl From<AllocError> for WordsFault {
    ghost use Rattle.operator_words.specs.declared.words.WordsFault.TheVariants.{OutOfMemory};

    ghost from_gives = { λ _ fault. fault ≡ OutOfMemory };

    fn from(_: AllocError) -> WordsFault {
        WordsFault::OutOfMemory
    }
}

fn remark_on(
    alloc: Global,
    name: &str,
    found: &ArgMatches<'_>,
) -> Result<Option<Request>, AllocError>
    ensures { IfOk result (λ request.
        request ≡ remark_on name.now (rows_of (found_of found.now))) }
{
    Ok(Some(match name {
        "ack" => Request::Ack {
            object: object_in(alloc, found)?,
            remark: remark_in(alloc, found)?,
            sticky: is_set(found, "sticky"),
            persistent: is_set(found, "persistent"),
        },
        "comment" => Request::Comment {
            object: object_in(alloc, found)?,
            remark: remark_in(alloc, found)?,
            persistent: is_set(found, "persistent"),
        },
        "downtime" => Request::Downtime {
            object: object_in(alloc, found)?,
            remark: remark_in(alloc, found)?,
            window: window_in(alloc, found)?,
            services: is_set(found, "services"),
        },
        _ => return Ok(None),
    }))
}

fn request_on(
    alloc: Global,
    name: &str,
    found: &ArgMatches<'_>,
) -> Result<Option<Request>, AllocError>
    ensures { IfOk result (λ request.
        request ≡ request_on name.now (rows_of (found_of found.now))) }
{
    Ok(Some(match name {
        "unack" => Request::Unack {
            object: object_in(alloc, found)?,
        },
        "passive" => Request::Passive {
            setting: text_in(alloc, found, "setting")?,
            object: object_in(alloc, found)?,
        },
        "result" => Request::Result {
            object: object_in(alloc, found)?,
            state: text_in(alloc, found, "state")?,
            output: text_in(alloc, found, "output")?,
        },
        "uncomment" => Request::Uncomment {
            words: texts_in(alloc, found, "words")?,
            all: is_set(found, "all"),
        },
        "cancel" => Request::Cancel {
            ids: texts_in(alloc, found, "ids")?,
        },
        "shutdown" => Request::Shutdown,
        name => return remark_on(alloc, name, found),
    }))
}

fn keeping_on(alloc: Global, name: &str, found: &ArgMatches<'_>) -> Result<Option<Task>, AllocError>
    ensures { IfOk result (λ task. task ≡ keeping_on name.now (rows_of (found_of found.now))) }
{
    Ok(Some(match name {
        "stop" => Task::Stop {
            page: text_in(alloc, found, "page")?,
            log: option_in(alloc, found, "log")?,
            pid: option_in(alloc, found, "pid")?,
        },
        "restore" => Task::Restore {
            page: text_in(alloc, found, "page")?,
            log: option_in(alloc, found, "log")?,
            old: is_set(found, "old"),
        },
        _ => return Ok(None),
    }))
}

fn look_on(alloc: Global, name: &str, found: &ArgMatches<'_>) -> Result<Task, AllocError>
    ensures { IfOk result (λ task. task ≡ look_on name.now (rows_of (found_of found.now))) }
{
    Ok(match name {
        "watch" => Task::Watch {
            interval: option_in(alloc, found, "interval")?,
        },
        "check" => Task::Check {
            gateways: texts_in(alloc, found, "gateways")?,
            agents: option_in(alloc, found, "agents")?,
            age: option_in(alloc, found, "age")?,
            keep: option_in(alloc, found, "keep")?,
        },
        "test-config" => Task::TestConfig {
            file: text_in(alloc, found, "file")?,
        },
        "log" => Task::Log {
            file: text_in(alloc, found, "file")?,
            since: option_in(alloc, found, "since")?,
        },
        _ => Task::Status {
            state: option_in(alloc, found, "state")?,
            host: option_in(alloc, found, "host")?,
        },
    })
}

fn task_on(alloc: Global, name: &str, found: &ArgMatches<'_>) -> Result<Task, AllocError>
    ensures { IfOk result (λ task. task ≡ task_on name.now (rows_of (found_of found.now))) }
{
    if let Some(request) = request_on(alloc, name, found)? {
        return Ok(Task::Command(request));
    }
    match keeping_on(alloc, name, found)? {
        Some(task) => Ok(task),
        None => look_on(alloc, name, found),
    }
}

// What the found words ask for, if a subcommand is there.
fn asked_in(alloc: Global, matches: &ArgMatches<'_>) -> Result<Option<Asked>, AllocError>
    ensures { IfOk result (λ asked. asked ≡ asked_with (subcommand_rows_of matches.now)) }
{
    let Some((name, found)) = matches.subcommand() else {
        return Ok(None);
    };
    let options = options_in(alloc, found)?;
    let task = task_on(alloc, name, found)?;
    Ok(Some(Asked { options, task }))
}

// The request that was found, or that there is none.
fn found_request(alloc: Global, matches: &ArgMatches<'_>) -> Result<Asked, WordsFault>
    ensures asked { IfOk result (λ asked.
        asked_with (subcommand_rows_of matches.now) ≡ Some asked) }
    ensures none { result ≡ Err WordsFault.NoCommand
        → asked_with (subcommand_rows_of matches.now) ≡ None }
    ensures refused { (error : Refusal) → result ≡ Err (WordsFault.Refused error) → ⊥ }
{
    match asked_in(alloc, matches) {
        Ok(Some(asked)) => Ok(asked),
        Ok(None) => Err(WordsFault::NoCommand),
        Err(_) => Err(WordsFault::OutOfMemory),
    }
}

// The fault of words that clap refuses.
fn refuse(error: Error) -> Result<Asked, WordsFault>
    ensures asked { IsErr result }
    ensures none { result ≡ Err WordsFault.NoCommand → ⊥ }
    ensures refused { (other : Refusal) → result ≡ Err (WordsFault.Refused other)
        → (error ≡ other) × (kind_of error ≢ ErrorKind.OutOfMemory) }
{
    match error.kind() {
        ErrorKind::OutOfMemory => Err(WordsFault::OutOfMemory),
        _ => Err(WordsFault::Refused(error)),
    }
}

/// Reads the words after the program's name, in any spelling that clap reads.
///
/// `OutOfMemory` may be returned in place of any answer.
pub fn read_words(alloc: Global, words: &[String]) -> Result<Asked, WordsFault>
    ensures asked { IfOk result (λ asked.
        asked_of (map string_bytes words.entry.now) ≡ Some asked) }
    ensures none { result ≡ Err WordsFault.NoCommand
        → asked_of (map string_bytes words.entry.now) ≡ None }
    ensures refused { (error : Refusal) → result ≡ Err (WordsFault.Refused error)
        → IsAmong (kind_of error) (fault_of program (map string_bytes words.entry.now)) }
{
    let Ok(command) = command_line(alloc) else {
        return Err(WordsFault::OutOfMemory);
    };
    match command.try_get_matches_from(words) {
        Ok(matches) => found_request(alloc, &matches),
        Err(error) => refuse(error),
    }
}
