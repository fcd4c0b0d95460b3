ghost use Rattle.std.specs.Prelude.{◌≡◌, ◌≢◌, ◌∷◌, ◌++◌, [], map, true, false, IfOk, IfNone, IfSome, OnOk};
ghost use Rattle.gate_grammar.specs.Canonical.{canonical_line};
ghost use Rattle.gate_packet.specs.Packet.{service_of};
ghost use Rattle.gate_packet.specs.Encoding.{encoded};
ghost use Rattle.gate_kept.specs.Written.{Reports, HasNoPacket, HasLine, IsWritten};
ghost use Rattle.gate_kept.specs.inner.Put.{IsSoundPacket, IsSoundLine, IsPut, texts};

use gate_grammar::{Command, writable, write_line};
use gate_model::{Body, Moment, Text};
use gate_packet::{PACKET_SIZE, Packet, encode, one_reading};
use std::alloc::{AllocError, Global};

/// A text for a gateway, and what it doesn't hold.
#[derive(Drop)]
pub struct Written<'a> {
    pub text: Vec<u8>,
    /// What neither a packet nor a line holds.
    pub left: Vec<&'a Command>,
}

// The packet of a result with these texts, if it can be written. A service has a name.
fn result_packet(
    alloc: Global,
    host: &Text,
    service: &[u8],
    code: i16,
    output: &Text,
) -> Result<Option<Packet>, AllocError>
    ensures some { IfOk result (λ packet. IfSome packet (λ p. Reports p
        (Body.Result host.now (service_of service.now) code output.now))) }
    ensures none { IfOk result (λ packet. IfNone packet
        (HasNoPacket (Body.Result host.now (service_of service.now) code output.now))) }
{
    let made = Packet::new(
        Moment(u32::MAX),
        code,
        Vec::from_slice(alloc, host.bytes())?,
        Vec::from_slice(alloc, service)?,
        Vec::from_slice(alloc, output.bytes())?,
    );
    match made {
        Ok(packet) => Ok(Some(packet)),
        Err(refused) => {
            drop(refused);
            Ok(None)
        }
    }
}

// The packet of a body, if one can hold it.
fn packet_of(alloc: Global, body: &Body) -> Result<Option<Packet>, AllocError>
    ensures some { IfOk result (λ packet. IfSome packet (λ p. Reports p body.now)) }
    ensures none { IfOk result (λ packet. IfNone packet (HasNoPacket body.now)) }
{
    match body {
        Body::Result {
            host,
            service: None,
            code,
            output,
        } => result_packet(alloc, host, b"", *code, output),
        Body::Result {
            host,
            service: Some(name),
            code,
            output,
        } => {
            if name.bytes().is_empty() {
                return Ok(None);
            }
            result_packet(alloc, host, name.bytes(), *code, output)
        }
        _ => Ok(None),
    }
}

// The bytes of a packet that was sent at the last moment there is.
fn packet_bytes(packet: &Packet) -> [u8; PACKET_SIZE]
    ensures bytes { result ≡ encoded 4304 packet.now }
    ensures sound { packet.now.timestamp ≡ 4294967295 → IsSoundPacket result }
{
    one_reading();
    encode(packet)
}

fn is_shutdown(body: &Body) -> bool
    ensures yes { result ≡ true → body.now ≡ Body.Shutdown }
    ensures no { result ≡ false → body.now ≢ Body.Shutdown }
{
    matches!(body, Body::Shutdown)
}

// The line of a command, if one can hold it and it isn't SHUTDOWN_PROGRAM.
fn line_of(alloc: Global, command: &Command) -> Result<Option<Vec<u8>>, AllocError>
    ensures some { IfOk result (λ line. IfSome line (λ l. (l.items ≡ canonical_line command.now)
        × HasLine command.now × IsSoundLine l.items)) }
    ensures none { IfOk result (λ line. IfNone line (HasLine command.now → ⊥)) }
{
    if is_shutdown(&command.body) || !writable(command) {
        return Ok(None);
    }
    Ok(Some(write_line(alloc, command)?))
}

// Writes a command: appends its packet, or its line, or the command itself to what is left.
fn put<'a>(
    alloc: Global,
    command: &'a Command,
    packets: &mut Vec<u8>,
    lines: &mut Vec<u8>,
    left: &mut Vec<&'a Command>,
) -> Result<(), AllocError>
    ensures { OnOk result (IsPut command.now
        (texts packets.old.items lines.old.items (map (λ one. one.now) left.old.items))
        (texts packets.new.items lines.new.items (map (λ one. one.now) left.new.items))) }
{
    if let Some(packet) = packet_of(alloc, &command.body)? {
        packets.extend_from_slice(&packet_bytes(&packet))?;
        drop(packet);
        return Ok(());
    }
    match line_of(alloc, command)? {
        Some(line) => {
            lines.extend_from_slice(line.as_slice())?;
            lines.extend_from_slice(b"\n")?;
        }
        None => left.push(command)?,
    }
    Ok(())
}

/// The text of these commands, which a gateway takes: packets of results, then the lines of the others.
/// The only error is out of memory. Own rule.
pub fn write_kept<'a>(alloc: Global, commands: &'a [Command]) -> Result<Written<'a>, AllocError>
    ensures { IfOk result (λ written. IsWritten commands.now written.text.items
        (map (λ one. one.now) written.left.items)) }
{
    let mut text = Vec::new(alloc);
    let mut lines = Vec::new(alloc);
    let mut left = Vec::new(alloc);
    for command in commands {
        put(alloc, command, &mut text, &mut lines, &mut left)?;
    }
    text.append(&mut lines)?;
    Ok(Written { text, left })
}
