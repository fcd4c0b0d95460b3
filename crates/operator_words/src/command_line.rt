//! The command line as clap reads it: a subcommand for each task.

ghost use Rattle.std.specs.Prelude.{◌≡◌, IfOk};
ghost use Rattle.clap.specs.Words.{App, Rule, app_of, new_app, with_rule};
ghost use Rattle.operator_words.specs.CommandLine.{IsArgument, IsCommand, word_of, words_of, option_of, comment, flag_of, with_remark, asking, plain, worded, with_object, on_object, ack, comment_command, uncomment, windowed, downtime, cancel, passive, result_command, shutdown, status, watch, check, test_config, log, on_page, stop, restore, with_command, top, program};

use clap::{Arg, ArgAction, Command};
use std::alloc::{AllocError, Global};

// What `--version` prints after the program's name: that of CHANGELOG.md.
const VERSION: &str = "1.0.0";

// A word without a name, which has to be there or may be.
fn word<'a>(alloc: Global, name: &'a str, required: bool, help: &'a str) -> Arg<'a>
    ensures { IsArgument (word_of name.entry.now required) result }
{
    Arg::new(alloc, name)
        .required(required)
        .action(ArgAction::Set)
        .help(help)
}

// Words without a name, one or more if they have to be there.
fn words<'a>(alloc: Global, name: &'a str, required: bool, help: &'a str) -> Arg<'a>
    ensures { IsArgument (words_of name.entry.now required) result }
{
    Arg::new(alloc, name)
        .required(required)
        .action(ArgAction::Append)
        .help(help)
}

// `--NAME VALUE`
fn option<'a>(alloc: Global, name: &'a str, required: bool, help: &'a str) -> Arg<'a>
    ensures { IsArgument (option_of name.entry.now required) result }
{
    Arg::new(alloc, name)
        .long(name)
        .required(required)
        .action(ArgAction::Set)
        .help(help)
}

// `-c TEXT`, `--comment TEXT`
fn comment<'a>(alloc: Global) -> Arg<'a>
    ensures { IsArgument comment result }
{
    option(alloc, "comment", true, "What is said of the object").short('c')
}

// `--NAME`
fn flag<'a>(alloc: Global, name: &'a str, help: &'a str) -> Arg<'a>
    ensures { IsArgument (flag_of name.entry.now) result }
{
    Arg::new(alloc, name)
        .long(name)
        .action(ArgAction::SetTrue)
        .help(help)
}

// A subcommand without arguments.
fn begun<'a>(alloc: Global, name: &'a str, about: &'a str) -> Command<'a>
    ensures { IsCommand (new_app name.entry.now) result }
{
    Command::new(alloc, name).about(about)
}

// Adds an argument to a command, if there is one.
fn add<'a>(
    command: Result<Command<'a>, AllocError>,
    argument: Arg<'a>,
) -> Result<Command<'a>, AllocError>
    ensures { (app : App) (rule : Rule) → IfOk command.entry (IsCommand app)
        → IsArgument rule argument.entry → IfOk result (IsCommand (with_rule app rule)) }
{
    match command {
        Ok(command) => command.arg(argument),
        Err(fault) => Err(fault),
    }
}

// A subcommand that asks a gateway.
fn asking<'a>(alloc: Global, name: &'a str, about: &'a str) -> Result<Command<'a>, AllocError>
    ensures { IfOk result (IsCommand (asking name.entry.now)) }
{
    let command = Ok(begun(alloc, name, about));
    let config = option(alloc, "config", false, "The daemon's configuration");
    let command = add(command, config);
    let operators = option(
        alloc,
        "operators",
        false,
        "The address of the operators port",
    );
    let command = add(command, operators);
    let pages = option(alloc, "pages", false, "The address of the pages port");
    let command = add(command, pages);
    let help = "How many seconds an answer or a page may take";
    add(command, option(alloc, "wait", false, help))
}

// One whose outcome may be JSON.
fn plain<'a>(alloc: Global, name: &'a str, about: &'a str) -> Result<Command<'a>, AllocError>
    ensures { IfOk result (IsCommand (plain name.entry.now)) }
{
    let json = flag(alloc, "json", "Print JSON, an object a line");
    add(asking(alloc, name, about), json)
}

// One whose words may be escaped as a page's are.
fn worded<'a>(alloc: Global, name: &'a str, about: &'a str) -> Result<Command<'a>, AllocError>
    ensures { IfOk result (IsCommand (worded name.entry.now)) }
{
    let help = "Names and texts have a page's escapes, as \\xe9";
    add(plain(alloc, name, about), flag(alloc, "escaped", help))
}

// Adds `HOST [SERVICE]`.
fn with_object<'a>(
    alloc: Global,
    command: Result<Command<'a>, AllocError>,
) -> Result<Command<'a>, AllocError>
    ensures { (app : App) → IfOk command.entry (IsCommand app)
        → IfOk result (IsCommand (with_object app)) }
{
    let command = add(command, word(alloc, "host", true, "The host"));
    let service = word(alloc, "service", false, "The service of the host");
    add(command, service)
}

// A subcommand on `HOST [SERVICE]`.
fn on_object<'a>(alloc: Global, name: &'a str, about: &'a str) -> Result<Command<'a>, AllocError>
    ensures { IfOk result (IsCommand (on_object name.entry.now)) }
{
    with_object(alloc, worded(alloc, name, about))
}

// A subcommand that says something of an object.
fn remark<'a>(alloc: Global, name: &'a str, about: &'a str) -> Result<Command<'a>, AllocError>
    ensures { IfOk result (IsCommand (with_remark name.entry.now)) }
{
    let command = add(on_object(alloc, name, about), comment(alloc));
    add(command, option(alloc, "author", false, "Who says it"))
}

fn ack<'a>(alloc: Global) -> Result<Command<'a>, AllocError>
    ensures { IfOk result (IsCommand ack) }
{
    let sticky = flag(alloc, "sticky", "Keep it until the object recovers");
    let command = add(remark(alloc, "ack", "Acknowledge a problem"), sticky);
    add(
        command,
        flag(alloc, "persistent", "Keep the comment when it ends"),
    )
}

fn comment_command<'a>(alloc: Global) -> Result<Command<'a>, AllocError>
    ensures { IfOk result (IsCommand comment_command) }
{
    let persistent = flag(alloc, "persistent", "Mark it persistent");
    add(remark(alloc, "comment", "Add a comment"), persistent)
}

fn uncomment<'a>(alloc: Global) -> Result<Command<'a>, AllocError>
    ensures { IfOk result (IsCommand uncomment) }
{
    let help = "Ids; with --all a host, or a host and a service";
    let command = worded(alloc, "uncomment", "Delete comments");
    let command = add(command, words(alloc, "words", true, help));
    add(
        command,
        flag(alloc, "all", "Delete all comments of the object"),
    )
}

// A subcommand that has the window of downtime.
fn windowed<'a>(alloc: Global) -> Result<Command<'a>, AllocError>
    ensures { IfOk result (IsCommand windowed) }
{
    let command = remark(alloc, "downtime", "Schedule downtime");
    let help = "How long the window is, as 30s, 90m, 2h or 1d";
    let command = add(command, option(alloc, "for", false, help));
    let help = "When the window ends, in seconds since 1970";
    let command = add(command, option(alloc, "until", false, help));
    let help = "When it begins, if not now, in seconds since 1970";
    add(command, option(alloc, "from", false, help))
}

fn downtime<'a>(alloc: Global) -> Result<Command<'a>, AllocError>
    ensures { IfOk result (IsCommand downtime) }
{
    let help = "How long it lasts from the first problem, as 15m";
    let command = add(windowed(alloc), option(alloc, "flexible", false, help));
    let trigger = option(
        alloc,
        "trigger",
        false,
        "The id of the entry that triggers it",
    );
    let command = add(command, trigger);
    let help = "Schedule it for each service of the host";
    add(command, flag(alloc, "services", help))
}

fn cancel<'a>(alloc: Global) -> Result<Command<'a>, AllocError>
    ensures { IfOk result (IsCommand cancel) }
{
    let command = plain(alloc, "cancel", "Delete downtime entries");
    add(command, words(alloc, "ids", true, "Their ids"))
}

fn passive<'a>(alloc: Global) -> Result<Command<'a>, AllocError>
    ensures { IfOk result (IsCommand passive) }
{
    let command = worded(alloc, "passive", "Enable or disable passive checks");
    let command = add(command, word(alloc, "setting", true, "on or off"));
    with_object(alloc, command)
}

fn result_command<'a>(alloc: Global) -> Result<Command<'a>, AllocError>
    ensures { IfOk result (IsCommand result_command) }
{
    let command = on_object(alloc, "result", "Submit a passive check result");
    let state = option(alloc, "state", true, "The state, as OK, WARNING or DOWN");
    let command = add(command, state);
    add(
        command,
        option(alloc, "output", true, "The plugin's output"),
    )
}

fn shutdown<'a>(alloc: Global) -> Result<Command<'a>, AllocError>
    ensures { IfOk result (IsCommand shutdown) }
{
    plain(alloc, "shutdown", "Shut the daemon down")
}

fn status<'a>(alloc: Global) -> Result<Command<'a>, AllocError>
    ensures { IfOk result (IsCommand status) }
{
    let command = plain(alloc, "status", "Print the status page");
    let help = "Only objects in this state, problems, unhandled or stale";
    let command = add(command, option(alloc, "state", false, help));
    let help = "Only of hosts whose name contains this text";
    add(command, option(alloc, "host", false, help))
}

fn watch<'a>(alloc: Global) -> Result<Command<'a>, AllocError>
    ensures { IfOk result (IsCommand watch) }
{
    let command = plain(alloc, "watch", "Print each change of the status page");
    let help = "How many seconds lie between two pages";
    add(command, option(alloc, "interval", false, help))
}

fn check<'a>(alloc: Global) -> Result<Command<'a>, AllocError>
    ensures { IfOk result (IsCommand check) }
{
    let about = "Test whether gateways serve, as a plugin of Nagios";
    let agents = option(alloc, "agents", false, "The address of the agents' port");
    let command = add(asking(alloc, "check", about), agents);
    let age = option(alloc, "age", false, "How old a page may be, in seconds");
    let command = add(command, age);
    let keep = option(alloc, "keep", false, "The file that the page is kept in");
    let command = add(command, keep);
    let help = "The pages ports, as ADDRESS or NAME=ADDRESS";
    add(command, words(alloc, "gateways", false, help))
}

fn test_config<'a>(alloc: Global) -> Result<Command<'a>, AllocError>
    ensures { IfOk result (IsCommand test_config) }
{
    let about = "Read a configuration as the daemon does";
    let command = begun(alloc, "test-config", about);
    add(Ok(command), word(alloc, "file", true, "The configuration"))
}

fn log<'a>(alloc: Global) -> Result<Command<'a>, AllocError>
    ensures { IfOk result (IsCommand log) }
{
    let command = begun(alloc, "log", "Sum up a log page");
    let file = word(alloc, "file", true, "The file that the daemon prints to");
    let command = add(Ok(command), file);
    let help = "Only records since then, in seconds since 1970";
    let command = add(command, option(alloc, "since", false, help));
    add(command, flag(alloc, "json", "Print JSON, an object a line"))
}

// Adds the page that is kept, and the log.
fn on_page<'a>(
    alloc: Global,
    command: Result<Command<'a>, AllocError>,
) -> Result<Command<'a>, AllocError>
    ensures { (app : App) → IfOk command.entry (IsCommand app)
        → IfOk result (IsCommand (on_page app)) }
{
    let page = word(alloc, "page", true, "The file of the status page");
    let command = add(command, page);
    add(
        command,
        option(alloc, "log", false, "The file of the log page"),
    )
}

fn stop<'a>(alloc: Global) -> Result<Command<'a>, AllocError>
    ensures { IfOk result (IsCommand stop) }
{
    let about = "Keep what the daemon shows, and shut it down";
    let command = on_page(alloc, asking(alloc, "stop", about));
    add(command, option(alloc, "pid", false, "The daemon's process"))
}

fn restore<'a>(alloc: Global) -> Result<Command<'a>, AllocError>
    ensures { IfOk result (IsCommand restore) }
{
    let about = "Print what was kept, for the input of nscagate serve";
    let command = Ok(begun(alloc, "restore", about));
    let config = option(alloc, "config", false, "The daemon's configuration");
    let command = on_page(alloc, add(command, config));
    let help = "Restore a page that is older than ten minutes";
    add(command, flag(alloc, "old", help))
}

// The program without its subcommands.
fn top<'a>(alloc: Global) -> Command<'a>
    ensures { app_of result ≡ top }
{
    Command::new(alloc, "nscagatectl")
        .about("Operate an nscagate daemon")
        .version(VERSION)
        .no_binary_name(true)
        .subcommand_required(true)
}

// Adds a subcommand to a command, if there are both.
fn with<'a>(
    command: Result<Command<'a>, AllocError>,
    added: Result<Command<'a>, AllocError>,
) -> Result<Command<'a>, AllocError>
    ensures { (app one : App) → IfOk command.entry (λ command. app_of command ≡ app)
        → IfOk added.entry (IsCommand one)
        → IfOk result (λ both. app_of both ≡ with_command one app) }
{
    match (command, added) {
        (Ok(command), Ok(added)) => command.subcommand(added),
        _ => Err(AllocError),
    }
}

/// The command line of `nscagatectl`, without the program's name. The only error is out of memory.
pub fn command_line<'a>(alloc: Global) -> Result<Command<'a>, AllocError>
    ensures { IfOk result (λ command. app_of command ≡ program) }
{
    let command = with(Ok(top(alloc)), ack(alloc));
    let command = with(command, comment_command(alloc));
    let command = with(command, downtime(alloc));
    let unack = on_object(alloc, "unack", "Remove an acknowledgement");
    let command = with(command, unack);
    let command = with(command, passive(alloc));
    let command = with(command, result_command(alloc));
    let command = with(command, uncomment(alloc));
    let command = with(command, cancel(alloc));
    let command = with(command, status(alloc));
    let command = with(command, watch(alloc));
    let command = with(command, check(alloc));
    let command = with(command, shutdown(alloc));
    let command = with(command, test_config(alloc));
    let command = with(command, log(alloc));
    let command = with(command, stop(alloc));
    with(command, restore(alloc))
}
