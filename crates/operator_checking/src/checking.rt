//! Whether gateways serve: their ports are asked, each with a time of its own.

ghost use Rattle.std.specs.Prelude.{◌≡◌, ◌++◌, ◌-◌, ◌≤◌, codes, is_some, nat_lt, IfErr, IfOk, OnErr, OnOk, if◌then◌else◌, length, vec_len};
ghost use Rattle.gate_streams.specs.Sink.{Delivers, FailsOnce};
ghost use Rattle.operator_checks.specs.Findings.{line, weight};
ghost use Rattle.operator_checking.specs.Checked.{IsChecked, IsCheckFault, IsReport, unknown_line};

use gate_config::Config;
use gate_grammar::read_number;
use gate_model::{Moment, Text};
use gate_streams::{Sink, put_last, put_line};
use kept_files::keep_page;
use operator_checks::{Finding, Port, figures_of, push_line, status_of};
use operator_commands::Options;
use operator_lines::read_answer;
use operator_setup::{ControlFault, cause, configuration, now, print, read_address, wait_in};
use page_fetching::{FetchFault, Timed, fetch_within};
use status_merge::{Gateway, merge};
use status_reading::{ReadFault, StatusPage, read_status_page};
use std::alloc::{AllocError, Global};
use std::fs::Files;
use std::io::Read;
use std::net::{Net, TcpListener, TcpStream};
use std::time::{Clock, Duration, Instant};

// How many seconds old a page may be, where the words don't say it.
const AGE: u32 = 60;
// A line that is no command: it is answered, and nothing is queued.
const QUESTION: &[u8] = b"check\n";
// The bytes of a greeting.
const GREETING: usize = 132;

/// The words of `check`.
#[derive(Clone, Copy)]
pub struct Wanted<'a> {
    pub gateways: &'a [Text],
    pub agents: &'a Option<Text>,
    pub age: &'a Option<Text>,
    pub keep: &'a Option<Text>,
}

// What is asked: addresses as they are written, those of pages each with a name or without.
#[derive(Clone, Copy)]
struct Ports<'a> {
    agents: Option<&'a [u8]>,
    operators: Option<&'a [u8]>,
    pages: &'a [&'a [u8]],
    // The seconds that each port may take.
    seconds: u32,
    // The seconds that a page may be old.
    age: u32,
    // The file that the page of the one gateway is kept in.
    keep: Option<&'a [u8]>,
}

fn age_in(age: &Option<Text>) -> Result<u32, ControlFault> {
    match age {
        Some(text) => read_number(text.bytes()).ok_or(ControlFault::BadAge),
        None => Ok(AGE),
    }
}

// `--wait` and `--age`, where the words are good.
fn seconds_in(options: &Options, wanted: Wanted<'_>) -> Result<(u32, u32), ControlFault> {
    let seconds = (wait_in(options)?, age_in(wanted.age)?);
    if wanted.keep.is_some() && wanted.gateways.len() > 1 {
        return Err(ControlFault::BadWords);
    }
    Ok(seconds)
}

fn bytes_in(option: &Option<Text>) -> Option<&[u8]> {
    match option {
        Some(text) => Some(text.bytes()),
        None => None,
    }
}

// The address of an option, or else that of the configuration.
fn option_or<'a>(option: &'a Option<Text>, default: &'a Text) -> &'a [u8] {
    bytes_in(option).unwrap_or(default.bytes())
}

// Reads a greeting.
fn read_greeting<R: Read>(reader: &mut R) -> bool {
    let mut greeting = [0; GREETING];
    reader.read_exact(&mut greeting).is_ok()
}

// Sends a line that is no command, and reads its answer.
fn read_any_answer<R: Read, W: Sink>(reader: &mut R, writer: &mut W) -> bool {
    put_last(writer, QUESTION).is_ok() && read_answer(reader).is_ok()
}

// What is wrong with a port that greets or answers.
fn ask_port<'a, R: Net<Listener = TcpListener, Stream = TcpStream> + Clock>(
    rt: &R,
    port: Port,
    text: &'a [u8],
    seconds: u32,
) -> Option<Finding<'a>> {
    let Some(address) = read_address(text) else {
        return Some(Finding::BadAddress(text));
    };
    let within = Duration::from_secs(u64::from(seconds));
    let Ok(stream) = TcpStream::connect_timeout(rt, &address, within) else {
        return Some(Finding::Silent(port, text));
    };
    let Ok(begun) = Instant::now(rt) else {
        return Some(Finding::Silent(port, text));
    };
    let mut reader = Timed::new(rt, &stream, begun, u64::from(seconds));
    let mut writer = Timed::new(rt, &stream, begun, u64::from(seconds));
    let came = match port {
        Port::Agents => read_greeting(&mut reader),
        Port::Operators => read_any_answer(&mut reader, &mut writer),
    };
    if came {
        return None;
    }
    match begun.elapsed(rt) {
        Ok(spent) if spent >= within => Some(Finding::Slow(port, text)),
        _ => Some(Finding::Silent(port, text)),
    }
}

// The name and the address of `NAME=ADDRESS`, or of an address alone.
fn divided(word: &[u8]) -> (&[u8], &[u8]) {
    let Some(at) = word.iter().position(|byte| *byte == b'=') else {
        return (word, word);
    };
    let (Some(name), Some(rest)) = (word.get(..at), word.get(at..)) else {
        return (word, word);
    };
    match rest.split_first() {
        Some((_, address)) => (name, address),
        None => (word, word),
    }
}

// What a page shows at this moment.
fn shown<'a>(
    alloc: Global,
    name: &'a [u8],
    page: StatusPage<'_>,
    now: Moment,
    age: u32,
) -> Result<Finding<'a>, AllocError>
    ensures { IfOk result (λ finding. weight finding
        ≡ (if nat_lt age (now.0 - page.entry.moment) then 3 else if is_some page.entry.closing then 1 else 0)) }
{
    let old = now.0.saturating_sub(page.moment);
    let is_closing = page.closing.is_some();
    let gateways = [Gateway {
        name: "",
        page: Ok(page),
        since: &[],
        old: None,
        alarms: Vec::new(alloc),
    }];
    let objects = merge(alloc, &gateways)?;
    let figures = figures_of(objects.as_slice());
    if old > age {
        Ok(Finding::StandsStill(name, u64::from(old), figures))
    } else if is_closing {
        Ok(Finding::Closes(name, figures))
    } else {
        Ok(Finding::Serves(name, figures))
    }
}

// Keeps a page, where it is to be kept; what is found where it can't be.
fn keep_shown<'a, F: Files>(
    files: &F,
    alloc: Global,
    keep: Option<&'a [u8]>,
    text: &[u8],
) -> Option<Finding<'a>> {
    let file = keep?;
    match str::from_utf8(file) {
        Ok(path) if keep_page(files, alloc, path, text).is_ok() => None,
        _ => Some(Finding::Unkept(file)),
    }
}

// What a page of this text shows; it is kept where it is to be.
fn found_on<'a, R: Clock + Files>(
    rt: &R,
    alloc: Global,
    name: &'a [u8],
    text: &[u8],
    shows: StatusPage<'_>,
    ports: Ports<'a>,
    findings: &mut Vec<Finding<'a>>,
) -> Result<Finding<'a>, ControlFault>
    ensures grows { OnOk result (vec_len findings.old ≤ vec_len findings.new) }
    ensures fault { IfErr result IsCheckFault }
{
    if let Some(unkept) = keep_shown(rt, alloc, ports.keep, text) {
        findings.push(unkept)?;
    }
    match now(rt) {
        Ok(now) => Ok(shown(alloc, name, shows, now, ports.age)?),
        Err(_) => Err(ControlFault::NoClock),
    }
}

// What is found at the pages port of a word.
fn ask_pages<'a, R: Net<Listener = TcpListener, Stream = TcpStream> + Clock + Files>(
    rt: &R,
    alloc: Global,
    word: &'a [u8],
    ports: Ports<'a>,
    findings: &mut Vec<Finding<'a>>,
) -> Result<Finding<'a>, ControlFault>
    ensures grows { OnOk result (vec_len findings.old ≤ vec_len findings.new) }
    ensures fault { IfErr result IsCheckFault }
{
    let (name, text) = divided(word);
    let Some(address) = read_address(text) else {
        return Ok(Finding::BadAddress(text));
    };
    let seconds = u64::from(ports.seconds);
    let page = match fetch_within(rt, alloc, address, seconds, seconds) {
        Ok(page) => page,
        Err(FetchFault::TooSlow) => return Ok(Finding::SlowPage(name, text)),
        Err(FetchFault::OutOfMemory) => return Err(ControlFault::OutOfMemory),
        Err(FetchFault::Unreachable | FetchFault::TooLong | FetchFault::Broken) => {
            return Ok(Finding::NoPage(name, text));
        }
    };
    if page.is_empty() {
        return Ok(Finding::NoPage(name, text));
    }
    match read_status_page(alloc, page.as_slice()) {
        Ok(shows) => found_on(rt, alloc, name, page.as_slice(), shows, ports, findings),
        Err(ReadFault::OutOfMemory) => Err(ControlFault::OutOfMemory),
        Err(_) => Ok(Finding::OtherPage(name, text)),
    }
}

fn add_port<'a, R: Net<Listener = TcpListener, Stream = TcpStream> + Clock>(
    rt: &R,
    findings: &mut Vec<Finding<'a>>,
    port: Port,
    address: Option<&'a [u8]>,
    seconds: u32,
) -> Result<(), AllocError>
    ensures { OnOk result (vec_len findings.old ≤ vec_len findings.new) }
{
    if let Some(text) = address {
        if let Some(finding) = ask_port(rt, port, text, seconds) {
            findings.push(finding)?;
        }
    }
    Ok(())
}

// What is found at the ports: at least one finding for each page.
fn findings_at<'a, R: Net<Listener = TcpListener, Stream = TcpStream> + Clock + Files>(
    rt: &R,
    alloc: Global,
    ports: Ports<'a>,
) -> Result<Vec<Finding<'a>>, ControlFault>
    ensures each { IfOk result (λ findings.
        length ports.entry.pages.now ≤ length findings.items) }
    ensures fault { IfErr result IsCheckFault }
{
    let mut findings = Vec::new(alloc);
    let seconds = ports.seconds;
    add_port(rt, &mut findings, Port::Agents, ports.agents, seconds)?;
    add_port(rt, &mut findings, Port::Operators, ports.operators, seconds)?;
    for word in ports.pages {
        let found = ask_pages(rt, alloc, word, ports, &mut findings)?;
        findings.push(found)?;
    }
    Ok(findings)
}

// The line of what is found.
fn line_of(alloc: Global, findings: &[Finding<'_>]) -> Result<Vec<u8>, AllocError>
    ensures { IfOk result (λ text. text.items ≡ line findings.now ++ codes "\n") }
{
    let mut text = Vec::new(alloc);
    push_line(alloc, &mut text, findings)?;
    text.push(b'\n')?;
    Ok(text)
}

// Asks the ports, prints the line of what is found, and returns the exit status of a plugin.
fn check<R: Net<Listener = TcpListener, Stream = TcpStream> + Clock + Files, W: Sink>(
    rt: &R,
    alloc: Global,
    ports: Ports<'_>,
    output: &mut W,
) -> Result<u8, ControlFault>
    ensures report { IfOk result (λ status.
        IsReport (length ports.entry.pages.now) status (W.state output.old) (W.state output.new)) }
    ensures fault { IfErr result IsCheckFault }
{
    let findings = findings_at(rt, alloc, ports)?;
    let text = line_of(alloc, findings.as_slice())?;
    print(output, text.as_slice())?;
    Ok(status_of(findings.as_slice()))
}

/// Prints that nothing is known, as a plugin does, and returns its exit status, 3.
pub fn report_unknown<W: Sink>(output: &mut W, text: &[u8]) -> Result<u8, ControlFault>
    ensures printed { OnOk result (Delivers (W.state output.old) (W.state output.new)
        (unknown_line text.now)) }
    ensures status { IfOk result (λ status. status ≡ 3) }
    ensures failed { OnErr result (FailsOnce (W.state output.old) (W.state output.new)) }
    ensures fault { IfErr result (λ fault. fault ≡ ControlFault.WriteFault) }
{
    match put_line(output, b"NSCAGATE UNKNOWN - ", text) {
        Ok(()) => Ok(3),
        Err(_) => Err(ControlFault::WriteFault),
    }
}

// Asks gateways at addresses of their own, and the ports that options name.
fn check_gateways<R: Net<Listener = TcpListener, Stream = TcpStream> + Clock + Files, W: Sink>(
    rt: &R,
    alloc: Global,
    options: &Options,
    wanted: Wanted<'_>,
    seconds: (u32, u32),
    output: &mut W,
) -> Result<u8, ControlFault>
    ensures report { IfOk result (λ status. IsReport (length wanted.entry.gateways.now) status
        (W.state output.old) (W.state output.new)) }
    ensures fault { IfErr result IsCheckFault }
{
    let mut pages = Vec::new(alloc);
    for text in wanted.gateways {
        pages.push(text.bytes())?;
    }
    let ports = Ports {
        agents: bytes_in(wanted.agents),
        operators: bytes_in(&options.operators),
        pages: pages.as_slice(),
        seconds: seconds.0,
        age: seconds.1,
        keep: bytes_in(wanted.keep),
    };
    check(rt, alloc, ports, output)
}

// Asks all three ports of a configuration, but for those that options name.
fn check_configured<R: Net<Listener = TcpListener, Stream = TcpStream> + Clock + Files, W: Sink>(
    rt: &R,
    alloc: Global,
    options: &Options,
    wanted: Wanted<'_>,
    config: &Config,
    seconds: (u32, u32),
    output: &mut W,
) -> Result<u8, ControlFault>
    ensures report { IfOk result (λ status.
        IsReport 1 status (W.state output.old) (W.state output.new)) }
    ensures fault { IfErr result IsCheckFault }
{
    let ports = Ports {
        agents: Some(option_or(wanted.agents, &config.agents.text)),
        operators: Some(option_or(&options.operators, &config.operators.text)),
        pages: &[option_or(&options.pages, &config.pages.text)],
        seconds: seconds.0,
        age: seconds.1,
        keep: bytes_in(wanted.keep),
    };
    check(rt, alloc, ports, output)
}

/// Asks ports, prints the line of what is found, and returns the exit status of a plugin: with
/// addresses of pages these, and the ports that options name; otherwise all three ports of the
/// configuration, but for those that options name. Whatever is wrong with the words is UNKNOWN. An
/// error is `WriteFault`, `NoClock` or `OutOfMemory`.
pub fn run_check<R: Net<Listener = TcpListener, Stream = TcpStream> + Clock + Files, W: Sink>(
    rt: &R,
    alloc: Global,
    options: &Options,
    wanted: Wanted<'_>,
    output: &mut W,
) -> Result<u8, ControlFault>
    ensures checked { IfOk result (λ status. IsChecked (length wanted.entry.gateways.now) status
        (W.state output.old) (W.state output.new)) }
    ensures fault { IfErr result IsCheckFault }
{
    let seconds = match seconds_in(options, wanted) {
        Ok(seconds) => seconds,
        Err(fault) => return report_unknown(output, cause(&fault)),
    };
    if !wanted.gateways.is_empty() {
        return check_gateways(rt, alloc, options, wanted, seconds, output);
    }
    match configuration(rt, alloc, options) {
        Ok(config) => check_configured(rt, alloc, options, wanted, &config, seconds, output),
        Err(fault) => report_unknown(output, cause(&fault)),
    }
}
