//! Where the program asks: the addresses of the ports, and how long it waits.

ghost use Rattle.std.specs.Prelude.{◌≡◌, ◌≢◌, ◌↔◌, IfErr, IfOk, MatchOption, MatchResult, Err, None};
ghost use Rattle.std.specs.Option.{ok_or, option_map};
ghost use Rattle.std.specs.Str.{IsUtf8};
ghost use Rattle.operator_setup.specs.Places.{ArePlacesOf, IsAddressOf, IsAddressText, IsAskedAt, IsAskedAtV4, IsAskedAtV6, IsAskedIp, IsNoAddress, IsNoPath, IsOfAddresses, IsOfConfiguration, IsOfPlaces, wait_of};

use crate::fault::ControlFault;
use gate_config::{Config, read_config};
use gate_grammar::read_number;
use gate_model::{DOCUMENT_BYTES, Text};
use operator_commands::Options;
use std::alloc::Global;
use std::fs::{File, Files};
use std::io::Read;
use std::net::{IpAddr, Ipv4Addr, Ipv6Addr, SocketAddr};

/// The path of the configuration where the words name none.
const CONFIG: &str = "/etc/nscagate/gateway.toml";
/// The seconds that a page may take to show a command, where the words name none.
const WAIT: u32 = 10;

/// The ports that are asked, and how long.
#[derive(Clone, Copy)]
pub struct Places {
    pub operators: SocketAddr,
    pub pages: SocketAddr,
    /// The seconds that an answer, and then a page that shows the command, may take.
    pub seconds: u32,
}

fn reachable_v4(ip: Ipv4Addr) -> Ipv4Addr
    ensures { IsAskedAtV4 ip result }
{
    if ip.is_unspecified() {
        Ipv4Addr::new(127, 0, 0, 1)
    } else {
        ip
    }
}

fn reachable_v6(ip: Ipv6Addr) -> Ipv6Addr
    ensures { IsAskedAtV6 ip result }
{
    if ip.is_unspecified() {
        Ipv6Addr::new(0, 0, 0, 0, 0, 0, 0, 1)
    } else {
        ip
    }
}

fn reachable_ip(ip: IpAddr) -> IpAddr
    ensures { IsAskedIp ip result }
{
    match ip {
        IpAddr::V4(ip) => IpAddr::V4(reachable_v4(ip)),
        IpAddr::V6(ip) => IpAddr::V6(reachable_v6(ip)),
    }
}

// An address that can be connected to: a port that is bound at each address of the machine is asked
// at its loopback.
fn reachable(address: SocketAddr) -> SocketAddr
    ensures { IsAskedAt address result }
{
    SocketAddr::new(reachable_ip(address.ip()), address.port())
}

/// The address that a text is, where it can be connected to: that of each address of the machine is
/// its loopback.
pub fn read_address(text: &[u8]) -> Option<SocketAddr>
    ensures { MatchOption result (IsNoAddress text.now) (IsAddressText text.now) }
{
    match SocketAddr::parse_ascii(text) {
        Ok(address) => Some(reachable(address)),
        Err(_) => None,
    }
}

fn address_in(text: &Text) -> Result<SocketAddr, ControlFault>
    ensures { MatchResult result (IsAddressText text.now)
        (λ fault. (fault ≡ ControlFault.BadAddress) × IsNoAddress text.now) }
{
    match read_address(text.bytes()) {
        Some(address) => Ok(address),
        None => Err(ControlFault::BadAddress),
    }
}

/// Reads the file of a configuration, and no more of it than one byte beyond the greatest one.
pub fn read_configuration<F: Files>(
    files: &F,
    alloc: Global,
    path: &str,
) -> Result<Vec<u8>, ControlFault>
    ensures { IfErr result (λ fault. fault ≡ ControlFault.Unreadable) }
{
    let Ok(file) = File::open(files, path) else {
        return Err(ControlFault::Unreadable);
    };
    let mut text = Vec::new(alloc);
    match file.take(DOCUMENT_BYTES as u64 + 1).read_to_end(&mut text) {
        Ok(_) => Ok(text),
        Err(_) => Err(ControlFault::Unreadable),
    }
}

// What a text configures.
fn configured(alloc: Global, text: &[u8]) -> Result<Config, ControlFault>
    ensures { IfErr result IsOfConfiguration }
{
    match read_config(alloc, text) {
        Ok(config) => Ok(config),
        Err(fault) => {
            let mut text = Vec::from_slice(alloc, b"config: ")?;
            text.extend_from_slice(fault.text(alloc)?.as_slice())?;
            Err(ControlFault::BadFile(Text::new(text)))
        }
    }
}

/// The path that a word is; `BadWords` where it is no UTF-8.
pub fn path_in(text: &Text) -> Result<&str, ControlFault>
    ensures { MatchResult result (λ path. path.now ≡ text.now)
        (λ fault. (fault ≡ ControlFault.BadWords) × ¬ (IsUtf8 text.now)) }
{
    match str::from_utf8(text.bytes()) {
        Ok(path) => Ok(path),
        Err(_) => Err(ControlFault::BadWords),
    }
}

/// The path that an option is; `BadWords` where it is no UTF-8.
pub fn path_of(option: &Option<Text>) -> Result<Option<&str>, ControlFault>
    ensures { MatchResult result (λ path. option_map (λ one. one.now) path ≡ option.now)
        (λ fault. (fault ≡ ControlFault.BadWords) × IsNoPath option.now) }
{
    match option {
        Some(text) => Ok(Some(path_in(text)?)),
        None => Ok(None),
    }
}

fn config_path(options: &Options) -> Result<&str, ControlFault>
    ensures { IfErr result (λ fault. fault ≡ ControlFault.Unreadable) }
{
    let Some(path) = &options.config else {
        return Ok(CONFIG);
    };
    match str::from_utf8(path.bytes()) {
        Ok(path) => Ok(path),
        Err(_) => Err(ControlFault::Unreadable),
    }
}

/// The address of an option, or else this one, where it can be connected to. `BadAddress`: the option
/// is no address.
pub fn address_or(option: &Option<Text>, default: SocketAddr) -> Result<SocketAddr, ControlFault>
    ensures named { IfOk result (IsAddressOf option.now) }
    ensures address { MatchOption option.now
        (MatchResult result (IsAskedAt default) (λ _. ⊥))
        (λ text. MatchResult result (IsAddressText text)
        (λ fault. (fault ≡ ControlFault.BadAddress) × IsNoAddress text)) }
{
    match option {
        Some(text) => address_in(text),
        None => Ok(reachable(default)),
    }
}

/// The configuration that the options name, or else the daemon's own. An error is `Unreadable`,
/// `BadFile` or `OutOfMemory`.
pub fn configuration<F: Files>(
    files: &F,
    alloc: Global,
    options: &Options,
) -> Result<Config, ControlFault>
    ensures { IfErr result IsOfConfiguration }
{
    let text = read_configuration(files, alloc, config_path(options)?)?;
    configured(alloc, text.as_slice())
}

// The addresses of the operators port and of the pages port: those of the options, and for the others
// those of the configuration.
fn configured_addresses<F: Files>(
    files: &F,
    alloc: Global,
    options: &Options,
) -> Result<(SocketAddr, SocketAddr), ControlFault>
    ensures operators { IfOk result (λ found. IsAddressOf options.now.operators found.0) }
    ensures pages { IfOk result (λ found. IsAddressOf options.now.pages found.1) }
    ensures fault { IfErr result (IsOfAddresses options.now) }
{
    let config = configuration(files, alloc, options)?;
    let (operators, pages) = (config.operators.socket, config.pages.socket);
    drop(config);
    let operators = address_or(&options.operators, operators)?;
    let pages = address_or(&options.pages, pages)?;
    Ok((operators, pages))
}

// The same; the configuration is read only where an option is missing.
fn addresses_in<F: Files>(
    files: &F,
    alloc: Global,
    options: &Options,
) -> Result<(SocketAddr, SocketAddr), ControlFault>
    ensures operators { IfOk result (λ found. IsAddressOf options.now.operators found.0) }
    ensures pages { IfOk result (λ found. IsAddressOf options.now.pages found.1) }
    ensures fault { IfErr result (IsOfAddresses options.now) }
{
    match (&options.operators, &options.pages) {
        (Some(operators), Some(pages)) => Ok((address_in(operators)?, address_in(pages)?)),
        _ => configured_addresses(files, alloc, options),
    }
}

/// The ports that the options name, and for those that they don't name the configuration's, which is
/// read only for these; and `--wait`.
pub fn places_for<F: Files>(
    files: &F,
    alloc: Global,
    options: &Options,
) -> Result<Places, ControlFault>
    ensures places { IfOk result (ArePlacesOf options.now) }
    ensures bad_wait { (result ≡ Err ControlFault.BadWait) ↔ (wait_of options.now.wait ≡ None) }
    ensures fault { IfErr result (IsOfPlaces options.now) }
{
    let seconds = wait_in(options)?;
    let (operators, pages) = addresses_in(files, alloc, options)?;
    Ok(Places {
        operators,
        pages,
        seconds,
    })
}

/// `--wait`, which is 1 to 3600, by default 10; `BadWait`: it is anything else.
pub fn wait_in(options: &Options) -> Result<u32, ControlFault>
    ensures { result ≡ ok_or (wait_of options.now.wait) ControlFault.BadWait }
{
    let Some(text) = &options.wait else {
        return Ok(WAIT);
    };
    match read_number(text.bytes()) {
        Some(seconds) if (1..=3600).contains(&seconds) => Ok(seconds),
        _ => Err(ControlFault::BadWait),
    }
}
