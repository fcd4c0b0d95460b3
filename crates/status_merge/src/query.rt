ghost use Rattle.std.specs.Prelude.{◌≡◌, false, IfOk, OnOk, codes, if◌then◌else◌, string_bytes};
ghost use Rattle.std.specs.Str.{bytes_eq};
ghost use Rattle.form_urlencoded.specs.Form.{raw_pairs};
ghost use Rattle.status_merge.specs.declared.query.Choice.TheVariants.{All};
ghost use Rattle.status_merge.specs.declared.query.Sort.TheVariants.{Worst};
ghost use Rattle.status_merge.specs.Asking.{choice_word, choice_of, state_of, mark_word, mark_of, sort_word, sort_of, number_of, in_range, refresh_of, page_of, asked_in, asked_by, only, sort_asked, page_asked, refresh_asked, is_open, form_asked};

use crate::values::value_in;
use form_urlencoded::parse;
use status_reading::State;
use std::alloc::{AllocError, Global};

/// Which objects are shown, by their state.
#[derive(Clone, Copy, PartialEq)]
pub enum Choice {
    All,
    /// Problems, and stale objects.
    Problems,
    Unhandled,
    Stale,
    In(State),
}

/// In which order objects are shown. Those of which neither is first are by rank.
#[derive(Clone, Copy)]
pub enum Sort {
    /// By rank, the most urgent first.
    Worst,
    /// By the bytes of the host's name.
    Host,
    /// By the moment since when they have their state, the latest first.
    Since,
    /// By the moment of the last result, the earliest first, after those without one.
    Last,
}

/// What a request asks to see: the objects of which all of this holds.
#[derive(Drop)]
pub struct Query {
    pub choice: Choice,
    /// The name of the object's host contains this text, that of its service this one, and its output
    /// this one, in any case of ASCII letters.
    pub host: String,
    pub service: String,
    pub output: String,
    /// The name of its host, exactly, as pages write it; empty: any.
    pub hostname: Vec<u8>,
    /// The name of its gateway, exactly; empty: any.
    pub gateway: String,
    /// Whether it is acknowledged, and whether it is in downtime.
    pub acknowledged: Option<bool>,
    pub downtime: Option<bool>,
    /// The order of the list of a page for browsers.
    pub sort: Sort,
    /// The number of the page of 500 objects, from 1.
    pub page: u32,
    /// The seconds after which the browser asks again; 0: it doesn't.
    pub refresh: u32,
    /// Whether the page has the form by which another query is asked.
    pub form: bool,
}

impl Query {
    /// The first page of all objects, the most urgent first.
    pub fn new(alloc: Global, refresh: u32) -> Query
        ensures asked { asked_by result ≡ only All }
        ensures sort { result.sort ≡ Worst }
        ensures page { result.page ≡ 1 }
        ensures refresh { result.refresh ≡ refresh }
        ensures form { result.form ≡ false }
    {
        Query {
            choice: Choice::All,
            host: String::new(alloc),
            service: String::new(alloc),
            output: String::new(alloc),
            hostname: Vec::new(alloc),
            gateway: String::new(alloc),
            acknowledged: None,
            downtime: None,
            sort: Sort::Worst,
            page: 1,
            refresh,
            form: false,
        }
    }
}

/// The word of a choice in a query, which is read as this choice.
pub fn choice_name(choice: Choice) -> &'static str
    ensures word { result.now ≡ choice_word choice }
    ensures read { choice_of result.now ≡ choice }
{
    match choice {
        Choice::All => "all",
        Choice::Problems => "problems",
        Choice::Unhandled => "unhandled",
        Choice::Stale => "stale",
        Choice::In(State::Pending) => "pending",
        Choice::In(State::Ok) => "ok",
        Choice::In(State::Warning) => "warning",
        Choice::In(State::Critical) => "critical",
        Choice::In(State::Unknown) => "unknown",
        Choice::In(State::Up) => "up",
        Choice::In(State::Down) => "down",
        Choice::In(State::Unreachable) => "unreachable",
    }
}

/// The word of what a query asks of a mark, which is read as this.
pub fn mark_name(mark: Option<bool>) -> &'static str
    ensures word { result.now ≡ mark_word mark }
    ensures read { mark_of result.now ≡ mark }
{
    match mark {
        None => "any",
        Some(true) => "yes",
        Some(false) => "no",
    }
}

/// The word of an order in a query, which is read as this order.
pub fn sort_name(sort: Sort) -> &'static str
    ensures word { result.now ≡ sort_word sort }
    ensures read { sort_of result.now ≡ sort }
{
    match sort {
        Sort::Worst => "worst",
        Sort::Host => "host",
        Sort::Since => "since",
        Sort::Last => "last",
    }
}

// The choice of this word, in any case. Another word restricts nothing.
fn choice_of(word: &str) -> Choice
    ensures { result ≡ choice_of word.now }
{
    match state_of(word) {
        Some(state) => Choice::In(state),
        None => {
            if word.eq_ignore_ascii_case("problems") {
                Choice::Problems
            } else if word.eq_ignore_ascii_case("unhandled") {
                Choice::Unhandled
            } else if word.eq_ignore_ascii_case("stale") {
                Choice::Stale
            } else {
                Choice::All
            }
        }
    }
}

fn state_of(word: &str) -> Option<State>
    ensures { result ≡ state_of word.now }
{
    if word.eq_ignore_ascii_case("pending") {
        Some(State::Pending)
    } else if word.eq_ignore_ascii_case("ok") {
        Some(State::Ok)
    } else if word.eq_ignore_ascii_case("warning") {
        Some(State::Warning)
    } else if word.eq_ignore_ascii_case("critical") {
        Some(State::Critical)
    } else if word.eq_ignore_ascii_case("unknown") {
        Some(State::Unknown)
    } else if word.eq_ignore_ascii_case("up") {
        Some(State::Up)
    } else if word.eq_ignore_ascii_case("down") {
        Some(State::Down)
    } else if word.eq_ignore_ascii_case("unreachable") {
        Some(State::Unreachable)
    } else {
        None
    }
}

// 0, or 2 to 3600.
fn in_range(seconds: u32) -> u32
    ensures { result ≡ in_range seconds }
{
    if seconds == 0 {
        0
    } else {
        seconds.clamp(2, 3600)
    }
}

fn mark_of(word: &str) -> Option<bool>
    ensures { result ≡ mark_of word.now }
{
    if word.eq_ignore_ascii_case("yes") {
        Some(true)
    } else if word.eq_ignore_ascii_case("no") {
        Some(false)
    } else {
        None
    }
}

fn sort_of(word: &str) -> Sort
    ensures { result ≡ sort_of word.now }
{
    if word.eq_ignore_ascii_case("host") {
        Sort::Host
    } else if word.eq_ignore_ascii_case("since") {
        Sort::Since
    } else if word.eq_ignore_ascii_case("last") {
        Sort::Last
    } else {
        Sort::Worst
    }
}

fn is_open(word: &str) -> bool
    ensures { result ≡ is_open word.now }
{
    word.eq_ignore_ascii_case("open")
}

fn number_of(text: &str) -> Option<u32>
    ensures { result ≡ number_of text.now }
{
    match text.parse::<u32>() {
        Ok(number) => Some(number),
        Err(_) => None,
    }
}

fn refresh_of(text: &str, default: u32) -> u32
    ensures { result ≡ refresh_of default text.now }
{
    match number_of(text) {
        Some(seconds) => in_range(seconds),
        None => default,
    }
}

fn page_of(text: &str) -> u32
    ensures { result ≡ page_of text.now }
{
    match number_of(text) {
        Some(page) => page.max(1),
        None => 1,
    }
}

// Takes a text of a query into account, if it is of this name.
fn add_text(
    alloc: Global,
    text: &mut String,
    wanted: &str,
    name: &str,
    value: &str,
) -> Result<(), AllocError>
    ensures { OnOk result (string_bytes text.new
        ≡ (if bytes_eq name.now wanted.now then value.now else string_bytes text.old)) }
{
    if name == wanted {
        *text = String::from_str(alloc, value)?;
    }
    Ok(())
}

// Takes another value of a query into account, if it is of this name.
fn set<T: Copy>(known: &mut T, wanted: &str, name: &str, value: T)
    ensures { known.new ≡ (if bytes_eq name.now wanted.now then value else known.old) }
{
    if name == wanted {
        *known = value;
    }
}

// Takes one pair of a query into account.
fn add_pair(
    alloc: Global,
    query: &mut Query,
    name: &str,
    value: &str,
    refresh: u32,
) -> Result<(), AllocError>
    ensures choice { OnOk result (query.new.choice
        ≡ (if bytes_eq name.now (codes "state") then choice_of value.now else query.old.choice)) }
    ensures host { OnOk result (string_bytes query.new.host
        ≡ (if bytes_eq name.now (codes "host") then value.now else string_bytes query.old.host)) }
    ensures service { OnOk result (string_bytes query.new.service ≡ (if bytes_eq name.now
        (codes "service") then value.now else string_bytes query.old.service)) }
    ensures output { OnOk result (string_bytes query.new.output ≡ (if bytes_eq name.now
        (codes "output") then value.now else string_bytes query.old.output)) }
    ensures gateway { OnOk result (string_bytes query.new.gateway ≡ (if bytes_eq name.now
        (codes "gateway") then value.now else string_bytes query.old.gateway)) }
    ensures acknowledged { OnOk result (query.new.acknowledged ≡ (if bytes_eq name.now
        (codes "acknowledged") then mark_of value.now else query.old.acknowledged)) }
    ensures downtime { OnOk result (query.new.downtime ≡ (if bytes_eq name.now
        (codes "downtime") then mark_of value.now else query.old.downtime)) }
    ensures sort { OnOk result (query.new.sort
        ≡ (if bytes_eq name.now (codes "sort") then sort_of value.now else query.old.sort)) }
    ensures page { OnOk result (query.new.page
        ≡ (if bytes_eq name.now (codes "page") then page_of value.now else query.old.page)) }
    ensures refresh { OnOk result (query.new.refresh
        ≡ (if bytes_eq name.now (codes "refresh") then refresh_of refresh value.now
        else query.old.refresh)) }
    ensures form { OnOk result (query.new.form
        ≡ (if bytes_eq name.now (codes "filters") then is_open value.now else query.old.form)) }
{
    set(&mut query.choice, "state", name, choice_of(value));
    add_text(alloc, &mut query.host, "host", name, value)?;
    add_text(alloc, &mut query.service, "service", name, value)?;
    add_text(alloc, &mut query.output, "output", name, value)?;
    add_text(alloc, &mut query.gateway, "gateway", name, value)?;
    set(
        &mut query.acknowledged,
        "acknowledged",
        name,
        mark_of(value),
    );
    set(&mut query.downtime, "downtime", name, mark_of(value));
    set(&mut query.sort, "sort", name, sort_of(value));
    set(&mut query.page, "page", name, page_of(value));
    set(
        &mut query.refresh,
        "refresh",
        name,
        refresh_of(value, refresh),
    );
    set(&mut query.form, "filters", name, is_open(value));
    Ok(())
}

/// Reads the query of a URL: `state`, `host`, `hostname`, `service`, `output`, `gateway`,
/// `acknowledged`, `downtime`, `sort`, `page`, `refresh` and `filters`, each with its default.
///
/// Other names are skipped. Of a name that comes twice the last counts. An unknown word is the
/// default. The only error is out of memory.
pub fn read_query(alloc: Global, text: &str, refresh: u32) -> Result<Query, AllocError>
    ensures asked { IfOk result (λ query. asked_by query ≡ asked_in (raw_pairs text.now)) }
    ensures sort { IfOk result (λ query. query.sort ≡ sort_asked (raw_pairs text.now)) }
    ensures page { IfOk result (λ query. query.page ≡ page_asked (raw_pairs text.now)) }
    ensures refresh { IfOk result (λ query.
        query.refresh ≡ refresh_asked refresh (raw_pairs text.now)) }
    ensures form { IfOk result (λ query. query.form ≡ form_asked (raw_pairs text.now)) }
{
    let mut query = Query::new(alloc, refresh);
    let mut pairs = parse(alloc, text.as_bytes());
    while let Some(pair) = pairs.next() {
        let (name, value) = pair?;
        add_pair(alloc, &mut query, name.as_str(), value.as_str(), refresh)?;
    }
    query.hostname = value_in(alloc, "hostname", text)?;
    Ok(query)
}
