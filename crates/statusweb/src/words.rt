ghost use Rattle.std.specs.Prelude.{◌≡◌, ◌≢◌, IfOk, false, IsTrue, IsFalse, Err, map, string_bytes, codes};
ghost use Rattle.clap.specs.Walk.{texts};
ghost use Rattle.clap.specs.Words.{IsAmong, App, Rule, new_app, app_of, rule_of, with_rule, fault_of, found_of, kind_of, rows_of, first_of, all_of};
ghost use Rattle.clap.specs.Simple.{matches_of};
ghost use Rattle.clap.specs.declared.error.Error.{Error as Refusal};
ghost use Rattle.statusweb.specs.declared.words.WordsFault.TheVariants.{Refused, Bad};
ghost use Rattle.statusweb.specs.Words.{option_of, gateway, host, hosts_of, unnamed, program, value_of, gateways_of, Sets, AskFor, IsBadValue};

use clap::error::ErrorKind;
use clap::{Arg, ArgAction, ArgMatches, Command, Error};
use page_watching::{Place, PlacesFault, address_in, every_in, places_in};
use status_serving::refresh_in;
use std::alloc::{AllocError, Global};
use std::net::SocketAddr;

// What `--version` prints after the program's name: that of CHANGELOG.md.
const VERSION: &str = "1.0.0";

/// What the program is run with.
#[derive(Drop)]
pub struct Settings<'a> {
    pub listen: SocketAddr,
    pub places: Vec<Place<'a>>,
    pub title: &'a str,
    /// The seconds after which a browser asks again; 0: it doesn't.
    pub refresh: u32,
    /// The seconds between two fetches of a gateway's page.
    pub every: u32,
    /// The names of hosts under which it answers too.
    pub hosts: Vec<&'a str>,
}

/// A value that its option can't have.
#[derive(Clone, Copy)]
pub enum BadValue {
    /// `--listen` is no IP address and port.
    Listen,
    /// `--refresh` is not 0 or 2 to 3600.
    Refresh,
    /// `--every` is not 1 to 30.
    Every,
    /// A `--gateway` has an empty name, or no IP address and port.
    Gateway,
    /// Two of `--gateway` have one name.
    SameName,
    /// There is no `--gateway`.
    NoGateway,
}

/// Why the words are no settings.
#[derive(Drop)]
pub enum WordsFault {
    /// clap refuses them, or they ask for help or the version: its message.
    Refused(Error),
    /// An option can't have this value.
    Bad(BadValue),
    /// Memory ran out.
    OutOfMemory,
}

impl From<AllocError> for WordsFault {
    ghost use Rattle.statusweb.specs.declared.words.WordsFault.TheVariants.{OutOfMemory};

    ghost from_gives = { λ _ fault. fault ≡ OutOfMemory };

    fn from(_: AllocError) -> WordsFault {
        WordsFault::OutOfMemory
    }
}

// `--NAME VALUE`.
fn option<'a>(alloc: Global, name: &'a str, help: &'a str) -> Arg<'a>
    ensures rule { rule_of result ≡ option_of name.entry.now }
    ensures local { result.global ≡ false }
{
    Arg::new(alloc, name)
        .long(name)
        .action(ArgAction::Set)
        .help(help)
}

// `--gateway VALUE`, which is there once or more.
fn gateway<'a>(alloc: Global) -> Arg<'a>
    ensures rule { rule_of result ≡ gateway }
    ensures local { result.global ≡ false }
{
    Arg::new(alloc, "gateway")
        .long("gateway")
        .required(true)
        .action(ArgAction::Append)
        .help("The pages port of a gateway, as [NAME=]ADDRESS:PORT; once for each")
}

// `--host VALUE`, which may be there more than once.
fn host<'a>(alloc: Global) -> Arg<'a>
    ensures rule { rule_of result ≡ host }
    ensures local { result.global ≡ false }
{
    Arg::new(alloc, "host")
        .long("host")
        .action(ArgAction::Append)
        .help("A name under which browsers reach it; once for each")
}

fn unnamed<'a>(alloc: Global) -> Command<'a>
    ensures { app_of result ≡ unnamed (new_app (codes "statusweb")) }
{
    Command::new(alloc, "statusweb")
        .version(VERSION)
        .no_binary_name(true)
        .about("Shows the status pages of gateways to browsers, scripts and Prometheus")
}

// Adds an option to a command, if there is one.
fn add<'a>(
    command: Result<Command<'a>, AllocError>,
    option: Arg<'a>,
) -> Result<Command<'a>, AllocError>
    requires { option.global ≡ false }
    ensures { (app : App) (rule : Rule) → rule_of option.entry ≡ rule
        → IfOk command.entry (λ command. app_of command ≡ app)
        → IfOk result (λ command. app_of command ≡ with_rule app rule) }
{
    match command {
        Ok(command) => command.arg(option),
        Err(fault) => Err(fault),
    }
}

fn command_line<'a>(alloc: Global) -> Result<Command<'a>, AllocError>
    ensures { IfOk result (λ command. app_of command ≡ program) }
{
    let listen = option(
        alloc,
        "listen",
        "Where browsers connect [default: 127.0.0.1:8080]",
    );
    let line = add(Ok(unnamed(alloc)), listen);
    let line = add(line, gateway(alloc));
    let title = option(alloc, "title", "The title of the page [default: nscagate]");
    let line = add(line, title);
    let help =
        "The seconds after which a browser asks again: 0 (never), or 2 to 3600 [default: 30]";
    let line = add(line, option(alloc, "refresh", help));
    let help = "The seconds between two fetches of a page: 1 to 30 [default: 5]";
    let line = add(line, option(alloc, "every", help));
    add(line, host(alloc))
}

// The value of an option, or its default.
fn value_of<'a>(matches: &ArgMatches<'a>, name: &str, default: &'a str) -> &'a str
    ensures { result.now ≡ value_of name.now default.entry.now (rows_of (found_of matches.now)) }
{
    match matches.get_str(name) {
        Some(value) => value,
        None => default,
    }
}

fn hosts_in<'a>(alloc: Global, matches: &ArgMatches<'a>) -> Result<Vec<&'a str>, AllocError>
    ensures { IfOk result (λ hosts.
        texts hosts.items ≡ hosts_of (rows_of (found_of matches.now))) }
{
    match matches.get_strs("host") {
        Some(values) => Vec::from_slice(alloc, values),
        None => Ok(Vec::new(alloc)),
    }
}

fn settings_in<'a>(alloc: Global, matches: &ArgMatches<'a>) -> Result<Settings<'a>, WordsFault>
    ensures found { IfOk result (Sets (rows_of (found_of matches.now))) }
    ensures bad { (value : BadValue) → result ≡ Err (Bad value)
        → IsBadValue value (rows_of (found_of matches.now)) }
    ensures ours { (error : Refusal) → result ≡ Err (Refused error) → ⊥ }
{
    let Some(values) = matches.get_strs("gateway") else {
        return Err(WordsFault::Bad(BadValue::NoGateway));
    };
    if values.is_empty() {
        return Err(WordsFault::Bad(BadValue::NoGateway));
    }
    let Some(listen) = address_in(value_of(matches, "listen", "127.0.0.1:8080")) else {
        return Err(WordsFault::Bad(BadValue::Listen));
    };
    let Some(refresh) = refresh_in(value_of(matches, "refresh", "30")) else {
        return Err(WordsFault::Bad(BadValue::Refresh));
    };
    let Some(every) = every_in(value_of(matches, "every", "5")) else {
        return Err(WordsFault::Bad(BadValue::Every));
    };
    let title = value_of(matches, "title", "nscagate");
    let hosts = hosts_in(alloc, matches)?;
    match places_in(alloc, values) {
        Ok(places) => Ok(Settings {
            listen,
            places,
            title,
            refresh,
            every,
            hosts,
        }),
        Err(PlacesFault::BadPlace) => Err(WordsFault::Bad(BadValue::Gateway)),
        Err(PlacesFault::SameName) => Err(WordsFault::Bad(BadValue::SameName)),
        Err(PlacesFault::OutOfMemory) => Err(WordsFault::OutOfMemory),
    }
}

// The fault of words that clap refuses.
fn fault_of(error: Error) -> WordsFault
    ensures bad { (value : BadValue) → result ≡ Bad value → ⊥ }
    ensures refused { (other : Refusal) → result ≡ Refused other
        → (error ≡ other) × (kind_of error ≢ ErrorKind.OutOfMemory) }
{
    match error.kind() {
        ErrorKind::OutOfMemory => WordsFault::OutOfMemory,
        _ => WordsFault::Refused(error),
    }
}

/// Reads the words after the program's name: `--listen ADDRESS`, `--gateway [NAME=]ADDRESS` once or
/// more, `--title TEXT`, `--refresh SECONDS`, `--every SECONDS` and `--host NAME` as often as needed, in
/// any spelling that `clap` reads.
///
/// `Refused`: clap refuses them, or they ask for help or the version. `Bad`: this value. `OutOfMemory` may be
/// returned in place of any answer.
pub fn read_words<'a>(alloc: Global, words: &'a [String]) -> Result<Settings<'a>, WordsFault>
    ensures asked { IfOk result (AskFor (map string_bytes words.entry.now)) }
    ensures refused { (error : Refusal) → result ≡ Err (Refused error)
        → IsAmong (kind_of error) (fault_of program (map string_bytes words.entry.now)) }
    ensures bad { (value : BadValue) → result ≡ Err (Bad value)
        → IsBadValue value (matches_of program (map string_bytes words.entry.now)) }
{
    let Ok(command) = command_line(alloc) else {
        return Err(WordsFault::OutOfMemory);
    };
    match command.try_get_matches_from(words) {
        Ok(matches) => settings_in(alloc, &matches),
        Err(error) => Err(fault_of(error)),
    }
}
