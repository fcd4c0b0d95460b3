ghost use Rattle.std.specs.Prelude.{◌≡◌, ◌≢◌, IsOk, IfOk, IfErr, OnOk, OnErr, false, map, string_bytes, codes};
ghost use Rattle.std.specs.List.{IsDistinct};
ghost use Rattle.std.specs.Str.{bytes_eq};
ghost use Rattle.clap.specs.Walk.{texts};
ghost use Rattle.clap.specs.Words.{App, Rule, new_app, app_of, rule_of, with_rule, found_of, kind_of, rows_of};
ghost use Rattle.clap.specs.declared.error.Error.{Error as Refusal};
ghost use Rattle.page_watching.specs.Places.{name_of, NameAll};
ghost use Rattle.desk_words.specs.declared.words.WordsFault.TheVariants.{Refused, Bad};
ghost use Rattle.desk_words.specs.Words.{option_of, list_of, unnamed, program, value_of, values_of, IsLoopbackText, HavePorts, Sets, AskFor, IsListenFault, IsPlacesFault, IsFaultIn, IsWordsFault};

use crate::operators::{have_ports, users_in};
use clap::error::ErrorKind;
use clap::{Arg, ArgAction, ArgMatches, Command, Error};
use page_watching::{Place, PlacesFault, address_in, every_in, places_in};
use status_serving::refresh_in;
use std::alloc::{AllocError, Global};
use std::net::SocketAddr;

// What `--version` prints after the program's name: that of CHANGELOG.md.
const VERSION: &str = "1.0.0";

/// What the program is run with.
#[derive(Drop)]
pub struct Settings<'a> {
    /// An address of loopback.
    pub listen: SocketAddr,
    pub places: Vec<Place<'a>>,
    /// The operators' ports of the gateways, each by its gateway's name.
    pub operators: Vec<Place<'a>>,
    pub title: &'a str,
    /// The seconds after which a browser asks again; 0: it doesn't.
    pub refresh: u32,
    /// The seconds between two fetches of a gateway's page.
    pub every: u32,
    /// The names of hosts under which browsers reach it.
    pub hosts: Vec<&'a str>,
    /// The header field by which the proxy names the user.
    pub user_header: &'a str,
    /// The users who may send commands.
    pub users: Vec<&'a [u8]>,
}

/// A value that its option can't have.
#[derive(Clone, Copy)]
pub enum BadValue {
    /// `--listen` is no IP address and port.
    Listen,
    /// `--listen` is no address of loopback.
    NotLoopback,
    /// `--refresh` is not 0 or 2 to 3600.
    Refresh,
    /// `--every` is not 1 to 30.
    Every,
    /// A `--gateway` or an `--operators` has an empty name, or no IP address and port.
    Gateway,
    /// Two of `--gateway`, or of `--operators`, have one name.
    SameName,
    /// There is no `--gateway`.
    NoGateway,
    /// `--operators` don't name the gateways.
    Operators,
    /// There is no `--users`.
    NoUsers,
}

/// Why the words are no settings.
#[derive(Drop)]
pub enum WordsFault {
    /// clap refuses them, or they ask for help or the version: its message.
    Refused(Error),
    /// An option can't have this value.
    Bad(BadValue),
    /// Memory ran out.
    OutOfMemory,
}

impl From<AllocError> for WordsFault {
    ghost use Rattle.desk_words.specs.declared.words.WordsFault.TheVariants.{OutOfMemory};

    ghost from_gives = { λ _ fault. fault ≡ OutOfMemory };

    fn from(_: AllocError) -> WordsFault {
        WordsFault::OutOfMemory
    }
}

// `--NAME VALUE`.
fn option<'a>(alloc: Global, name: &'a str, help: &'a str) -> Arg<'a>
    ensures rule { rule_of result ≡ option_of name.entry.now }
    ensures local { result.global ≡ false }
{
    Arg::new(alloc, name)
        .long(name)
        .action(ArgAction::Set)
        .help(help)
}

// `--NAME VALUE`, which may be there more than once.
fn list<'a>(alloc: Global, name: &'a str, help: &'a str) -> Arg<'a>
    ensures rule { rule_of result ≡ list_of name.entry.now }
    ensures local { result.global ≡ false }
{
    Arg::new(alloc, name)
        .long(name)
        .action(ArgAction::Append)
        .help(help)
}

fn unnamed<'a>(alloc: Global) -> Command<'a>
    ensures { app_of result ≡ unnamed (new_app (codes "statusdesk")) }
{
    Command::new(alloc, "statusdesk")
        .version(VERSION)
        .no_binary_name(true)
        .about("Shows the status pages of gateways, with forms that send an operator's commands")
}

// Adds an option to a command, if there is one.
fn add<'a>(
    command: Result<Command<'a>, AllocError>,
    option: Arg<'a>,
) -> Result<Command<'a>, AllocError>
    requires { option.global ≡ false }
    ensures { (app : App) (rule : Rule) → rule_of option.entry ≡ rule
        → IfOk command.entry (λ command. app_of command ≡ app)
        → IfOk result (λ command. app_of command ≡ with_rule app rule) }
{
    match command {
        Ok(command) => command.arg(option),
        Err(fault) => Err(fault),
    }
}

fn command_line<'a>(alloc: Global) -> Result<Command<'a>, AllocError>
    ensures { IfOk result (λ command. app_of command ≡ program) }
{
    let help = "Where the proxy connects, on loopback [default: 127.0.0.1:8081]";
    let line = add(Ok(unnamed(alloc)), option(alloc, "listen", help));
    let help = "The pages port of a gateway, as [NAME=]ADDRESS:PORT; once for each";
    let line = add(line, list(alloc, "gateway", help));
    let help = "The operators' port of a gateway, as NAME=ADDRESS:PORT; once for each";
    let line = add(line, list(alloc, "operators", help));
    let help = "A name under which browsers reach it; once for each";
    let line = add(line, list(alloc, "host", help));
    let help = "The header field by which the proxy names the user [default: X-Remote-User]";
    let line = add(line, option(alloc, "user-header", help));
    let line = add(
        line,
        option(alloc, "users", "Who may send commands, as NAME,NAME"),
    );
    let title = option(alloc, "title", "The title of the page [default: nscagate]");
    let line = add(line, title);
    let help =
        "The seconds after which a browser asks again: 0 (never), or 2 to 3600 [default: 30]";
    let line = add(line, option(alloc, "refresh", help));
    let help = "The seconds between two fetches of a page: 1 to 30 [default: 5]";
    add(line, option(alloc, "every", help))
}

// The value of an option, or its default.
fn value_of<'a>(matches: &ArgMatches<'a>, name: &str, default: &'a str) -> &'a str
    ensures { result.now ≡ value_of name.now default.entry.now (rows_of (found_of matches.now)) }
{
    match matches.get_str(name) {
        Some(value) => value,
        None => default,
    }
}

// The values of an option.
fn values_of<'a>(
    alloc: Global,
    matches: &ArgMatches<'a>,
    name: &str,
) -> Result<Vec<&'a str>, AllocError>
    ensures { IfOk result (λ values.
        texts values.items ≡ values_of name.now (rows_of (found_of matches.now))) }
{
    match matches.get_strs(name) {
        Some(values) => Vec::from_slice(alloc, values),
        None => Ok(Vec::new(alloc)),
    }
}

fn listen_in(text: &str) -> Result<SocketAddr, WordsFault>
    ensures listen { IfOk result (IsLoopbackText text.now) }
    ensures refused { IfErr result (IsListenFault text.now) }
{
    let Some(address) = address_in(text) else {
        return Err(WordsFault::Bad(BadValue::Listen));
    };
    if address.ip().is_loopback() {
        Ok(address)
    } else {
        Err(WordsFault::Bad(BadValue::NotLoopback))
    }
}

fn places_of<'a>(alloc: Global, values: &[&'a str]) -> Result<Vec<Place<'a>>, WordsFault>
    ensures places { IfOk result (λ places. NameAll (texts values.now) places.items) }
    ensures distinct { IsOk result → IsDistinct bytes_eq (map name_of (texts values.now)) }
    ensures refused { IfErr result (IsPlacesFault (texts values.now)) }
{
    match places_in(alloc, values) {
        Ok(places) => Ok(places),
        Err(PlacesFault::BadPlace) => Err(WordsFault::Bad(BadValue::Gateway)),
        Err(PlacesFault::SameName) => Err(WordsFault::Bad(BadValue::SameName)),
        Err(PlacesFault::OutOfMemory) => Err(WordsFault::OutOfMemory),
    }
}

fn check_ports(places: &[Place<'_>], ports: &[Place<'_>]) -> Result<(), WordsFault>
    ensures ports { OnOk result (HavePorts places.now ports.now) }
    ensures none { OnErr result (HavePorts places.now ports.now → ⊥) }
    ensures refused { IfErr result (λ fault. fault ≡ Bad BadValue.Operators) }
{
    if ports.len() == places.len() && have_ports(places, ports) {
        Ok(())
    } else {
        Err(WordsFault::Bad(BadValue::Operators))
    }
}

fn settings_in<'a>(alloc: Global, matches: &ArgMatches<'a>) -> Result<Settings<'a>, WordsFault>
    ensures found { IfOk result (Sets (rows_of (found_of matches.now))) }
    ensures refused { IfErr result (IsFaultIn (rows_of (found_of matches.now))) }
{
    let listen = listen_in(value_of(matches, "listen", "127.0.0.1:8081"))?;
    let gateways = values_of(alloc, matches, "gateway")?;
    let named = gateways.as_slice();
    if named.is_empty() {
        return Err(WordsFault::Bad(BadValue::NoGateway));
    }
    let Some(refresh) = refresh_in(value_of(matches, "refresh", "30")) else {
        return Err(WordsFault::Bad(BadValue::Refresh));
    };
    let Some(every) = every_in(value_of(matches, "every", "5")) else {
        return Err(WordsFault::Bad(BadValue::Every));
    };
    let users = value_of(matches, "users", "");
    if users.is_empty() {
        return Err(WordsFault::Bad(BadValue::NoUsers));
    }
    let users = users_in(alloc, users.as_bytes())?;
    let places = places_of(alloc, named)?;
    let ports = values_of(alloc, matches, "operators")?;
    let operators = places_of(alloc, ports.as_slice())?;
    check_ports(places.as_slice(), operators.as_slice())?;
    Ok(Settings {
        listen,
        places,
        operators,
        title: value_of(matches, "title", "nscagate"),
        refresh,
        every,
        hosts: values_of(alloc, matches, "host")?,
        user_header: value_of(matches, "user-header", "X-Remote-User"),
        users,
    })
}

// The fault of words that clap refuses.
fn fault_of(error: Error) -> WordsFault
    ensures bad { (value : BadValue) → result ≡ Bad value → ⊥ }
    ensures refused { (other : Refusal) → result ≡ Refused other
        → (error ≡ other) × (kind_of error ≢ ErrorKind.OutOfMemory) }
{
    match error.kind() {
        ErrorKind::OutOfMemory => WordsFault::OutOfMemory,
        _ => WordsFault::Refused(error),
    }
}

/// Reads the words after the program's name, in any spelling that `clap` reads.
///
/// `Refused`: clap refuses them, or they ask for help or the version. `Bad`: this value. `OutOfMemory` may be
/// returned in place of any answer.
pub fn read_words<'a>(alloc: Global, words: &'a [String]) -> Result<Settings<'a>, WordsFault>
    ensures asked { IfOk result (AskFor (map string_bytes words.entry.now)) }
    ensures refused { IfErr result (IsWordsFault (map string_bytes words.entry.now)) }
{
    let Ok(command) = command_line(alloc) else {
        return Err(WordsFault::OutOfMemory);
    };
    match command.try_get_matches_from(words) {
        Ok(matches) => settings_in(alloc, &matches),
        Err(error) => Err(fault_of(error)),
    }
}
