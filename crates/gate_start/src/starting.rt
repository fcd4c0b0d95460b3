ghost use Rattle.std.specs.Prelude.{◌≡◌, ◌⊎◌, [], IfErr, IfOk};
ghost use Rattle.gate_start.specs.BeforeServing.{Configures, EndsBefore, FollowsAddresses, IsAddressIn, IsBindEnd, IsStarted, IsWriteEnd};

use crate::configuring::configuration;
use crate::fault::ServeFault;
use crate::lent::Lent;
use crate::listening::listen;
use crate::printing::{address_lines, print};
use gate_config::Config;
use gate_model::Text;
use gate_ports::Ports;
use gate_streams::Sink;
use std::alloc::Global;
use std::fs::Files;
use std::net::{Net, TcpListener, TcpStream};
use std::rt::Env;
use std::time::Clock;

// Binds the addresses of a configuration, and prints them as they are bound: the ports.
fn open_ports<R: Net<Listener = TcpListener, Stream = TcpStream> + Clock + Env, W: Sink>(
    rt: &R,
    alloc: Global,
    config: &Config,
    output: &mut W,
) -> Result<Ports, ServeFault>
    ensures ok { IfOk result (λ _.
        FollowsAddresses config.now (W.state output.old) (W.state output.new) []) }
    ensures err { IfErr result (λ fault. (IsBindEnd (IsAddressIn config.now) fault
        × (W.state output.new ≡ W.state output.old))
        ⊎ IsWriteEnd (W.state output.old) (W.state output.new) fault) }
{
    let mut lent = Lent::of(rt, alloc)?;
    let listening = listen(rt, alloc, &mut lent, config)?;
    let lines = address_lines(
        alloc,
        listening.agents,
        listening.operators,
        listening.pages,
    );
    print(output, lines)?;
    Ok(listening.ports)
}

/// What a daemon serves with.
#[derive(Drop)]
pub struct Started {
    /// The text of its configuration.
    pub text: Text,
    pub config: Config,
    pub ports: Ports,
}

/// Reads the configuration in the file of this path, binds the addresses of agents, operators and
/// pages, in this order, and prints them as they are bound, each on a line: the configuration with
/// its text, and the ports. An address at which a supervisor lends a listening socket, as the environment names it
/// (sd_listen_fds(3)), isn't bound: that socket is taken, and stays open for the next daemon.
///
/// Unreadable, Config and Bind come before anything is printed: the file can't be read, it
/// configures nothing, or an address can't be bound. At OutOfMemory nothing was printed. WriteFault
/// is a failed call of `output`, after which no other is made. LogFull and Spawn don't come. Own rule.
pub fn start<R: Files + Net<Listener = TcpListener, Stream = TcpStream> + Clock + Env, W: Sink>(
    rt: &R,
    alloc: Global,
    path: &str,
    output: &mut W,
) -> Result<Started, ServeFault>
    ensures ok { IfOk result (λ started.
        IsStarted started.config (W.state output.old) (W.state output.new)) }
    ensures text { IfOk result (λ started. Configures started.text started.config) }
    ensures err { IfErr result (EndsBefore (W.state output.old) (W.state output.new)) }
{
    let read = configuration(rt, alloc, path)?;
    let (text, config) = read;
    let ports = open_ports(rt, alloc, &config, output)?;
    Ok(Started {
        text,
        config,
        ports,
    })
}
