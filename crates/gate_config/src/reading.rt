ghost use Rattle.std.specs.Prelude.{◌≡◌, ◌≢◌, ◌≤◌, ◌<◌, ◌⊎◌, [], ◌∷◌, map, length, IfOk, IfErr, OnOk, MatchResult, IsUtf8, Ok, Err, Some, None};
ghost use Rattle.std.specs.Net.Grammar.{IsSocketText};
ghost use Rattle.toml.specs.Parse.{parse_document};
ghost use Rattle.toml.specs.View.{table_view};
ghost use Rattle.toml.specs.Data.{Members};
ghost use Rattle.gate_table.specs.Faults.{IsFaultless};
ghost use Rattle.gate_config.specs.declared.fault.ConfigFault.TheVariants.{TooLarge, NotToml, OutOfMemory};
ghost use Rattle.gate_config.specs.Values.{value_at, text_or};
ghost use Rattle.gate_config.specs.Check.{AllPass, FirstFails, Passes, Fails, object_table, IsFirstFault};
ghost use Rattle.gate_config.specs.Document.{document_checks, key_check, text_check};
ghost use Rattle.gate_config.specs.Config.{IsDocument, IsConfigOf, AreLimitsOf};

use crate::config::{Address, Config};
use crate::fault::ConfigFault;
use crate::key::Key;
use crate::limits::Limits;
use crate::{objects, values};
use gate_model::{
    DOCUMENT_BYTES, GREATEST_AGE, MOST_CAPACITY, MOST_ITEMS, MOST_RECORDS, MOST_SESSIONS,
    MOST_WORKERS, ObjectLine, Text,
};
use gate_table::{BuildFault, ObjectTable, TableFault};
use std::alloc::{AllocError, Global};
use std::net::SocketAddr;
use toml::Table;

const DOCUMENT_KEYS: [Key; 11] = [
    Key::Agents,
    Key::Operators,
    Key::Pages,
    Key::Capacity,
    Key::GreatestAge,
    Key::Items,
    Key::Limit,
    Key::Reads,
    Key::Sessions,
    Key::Host,
    Key::Workers,
];

/// An address as a document writes it.
#[derive(Clone, Copy)]
struct Written<'a> {
    text: &'a str,
    socket: SocketAddr,
}

impl Written<'_> {
    fn copied(self, alloc: Global) -> Result<Address, AllocError>
        ensures { IfOk result (λ address.
            (address.text ≡ self.entry.text.now) × (address.socket ≡ self.entry.socket)) }
    {
        Ok(Address {
            text: Text::copied(alloc, self.text.as_bytes())?,
            socket: self.socket,
        })
    }
}

fn read_address<'a>(
    document: &'a Table,
    key: Key,
    default: &'static str,
) -> Result<Written<'a>, ConfigFault>
    ensures text { IfOk result (λ address.
        text_or default.entry.now (value_at (table_view document.now) key)
        ≡ Some address.text.now) }
    ensures socket { IfOk result (λ address. IsSocketText address.text.now address.socket) }
    ensures passed { OnOk result (Passes
        (text_check key (text_or default.entry.now (value_at (table_view document.now) key)))) }
    ensures failed { IfErr result (Fails
        (text_check key (text_or default.entry.now (value_at (table_view document.now) key)))) }
{
    let text = values::text(document, key, default)?;
    match SocketAddr::parse_ascii(text.as_bytes()) {
        Ok(socket) => Ok(Written { text, socket }),
        Err(_) => Err(ConfigFault::BadValue(key)),
    }
}

// The addresses as a configuration keeps them.
fn copied_addresses(
    alloc: Global,
    agents: Written<'_>,
    operators: Written<'_>,
    pages: Written<'_>,
) -> Result<(Address, Address, Address), AllocError>
    ensures agents { IfOk result (λ addresses.
        (addresses.0.text ≡ agents.entry.text.now) × (addresses.0.socket ≡ agents.entry.socket)) }
    ensures operators { IfOk result (λ addresses.
        (addresses.1.text ≡ operators.entry.text.now)
        × (addresses.1.socket ≡ operators.entry.socket)) }
    ensures pages { IfOk result (λ addresses.
        (addresses.2.text ≡ pages.entry.text.now) × (addresses.2.socket ≡ pages.entry.socket)) }
{
    Ok((
        agents.copied(alloc)?,
        operators.copied(alloc)?,
        pages.copied(alloc)?,
    ))
}

fn read_limits(document: &Table) -> Result<Limits, ConfigFault>
    ensures limits { IfOk result (AreLimitsOf (table_view document.now)) }
    ensures passed { OnOk result (AllPass (map (key_check (table_view document.now))
        (Key.Capacity ∷ Key.GreatestAge ∷ Key.Items ∷ Key.Limit ∷ Key.Reads ∷ Key.Sessions ∷ []))) }
    ensures failed { IfErr result (FirstFails (map (key_check (table_view document.now))
        (Key.Capacity ∷ Key.GreatestAge ∷ Key.Items ∷ Key.Limit ∷ Key.Reads ∷ Key.Sessions ∷ []))) }
{
    let capacity = values::number(document, Key::Capacity, 1, MOST_CAPACITY, 256)?;
    let greatest_age = values::number(document, Key::GreatestAge, 0, GREATEST_AGE, 30)?;
    let items = values::number(document, Key::Items, 1, MOST_ITEMS, 10_000)?;
    let limit = values::number(document, Key::Limit, 1, MOST_RECORDS, 100_000)?;
    let reads = values::number(document, Key::Reads, 1, u32::MAX, 1_000_000)?;
    let sessions = values::number(document, Key::Sessions, 1, MOST_SESSIONS, 100_000)?;
    Ok(Limits {
        capacity,
        greatest_age,
        items,
        limit,
        reads,
        sessions,
    })
}

fn build_table(alloc: Global, lines: Vec<ObjectLine>) -> Result<ObjectTable, ConfigFault>
    ensures table { IfOk result (λ table. table ≡ lines.items) }
    ensures passed { OnOk result (Passes (object_table lines.items)) }
    ensures failed { IfErr result (λ fault.
        fault ≢ OutOfMemory → Fails (object_table lines.items) fault) }
{
    match ObjectTable::build(alloc, lines) {
        Ok(table) => Ok(table),
        Err(
            BuildFault {
                cause: TableFault::OutOfMemory,
                lines: _,
            },
        ) => Err(ConfigFault::OutOfMemory),
        Err(BuildFault { cause, lines: _ }) => Err(ConfigFault::Object(cause)),
    }
}

/// What a document configures.
fn config_of(alloc: Global, document: &Table) -> Result<Config, ConfigFault>
    ensures config { IfOk result (IsConfigOf (table_view document.now)) }
    ensures fault { IfErr result (IsFirstFault (document_checks (table_view document.now))) }
{
    values::check_keys(alloc, document, DOCUMENT_KEYS.as_slice())?;
    let agents = read_address(document, Key::Agents, "127.0.0.1:5667")?;
    let operators = read_address(document, Key::Operators, "127.0.0.1:5668")?;
    let pages = read_address(document, Key::Pages, "127.0.0.1:5669")?;
    let limits = read_limits(document)?;
    let hosts = values::tables(document, Key::Host)?;
    let workers = values::number(document, Key::Workers, 1, MOST_WORKERS, 1)?;
    let table = build_table(alloc, objects::read_hosts(alloc, hosts)?)?;
    match copied_addresses(alloc, agents, operators, pages) {
        Ok((agents, operators, pages)) => Ok(Config {
            agents,
            operators,
            pages,
            limits,
            workers,
            table,
        }),
        Err(_) => {
            drop(table);
            Err(ConfigFault::OutOfMemory)
        }
    }
}

/// Reads a configuration.
///
/// A text of more than 1,048,576 bytes is refused as `TooLarge`, and one that is no document of TOML
/// as `NotToml`. Otherwise the fault is that of the first test of the document that isn't passed.
/// `OutOfMemory` may be returned in place of any answer but the first. Own rules.
pub fn read_config(alloc: Global, text: &[u8]) -> Result<Config, ConfigFault>
    ensures too_large { 1048576 < length text.now → result ≡ Err TooLarge }
    ensures not_toml { length text.now ≤ 1048576
        → ((document : Members) → ¬ (IsDocument text.now document))
        → (result ≡ Err NotToml) ⊎ (result ≡ Err OutOfMemory) }
    ensures document { (document : Members) → IsDocument text.now document
        → MatchResult result (IsConfigOf document) (IsFirstFault (document_checks document)) }
{
    if text.len() > DOCUMENT_BYTES {
        return Err(ConfigFault::TooLarge);
    }
    let document = match toml::table_from_slice(alloc, text) {
        Ok(document) => document,
        Err(error) if error.is_memory() => return Err(ConfigFault::OutOfMemory),
        Err(_) => return Err(ConfigFault::NotToml),
    };
    config_of(alloc, &document)
}
