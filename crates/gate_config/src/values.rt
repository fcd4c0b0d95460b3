//! What stands at a key of a table.

ghost use Rattle.std.specs.Prelude.{◌≡◌, ◌≢◌, ◌≤◌, not, map, find, string_bytes, IfOk, IfErr, IfSome, OnOk, Some, None, option_map};
ghost use Rattle.std.specs.Option.{option_copied, option_and_then};
ghost use Rattle.std.specs.List.{list_all};
ghost use Rattle.std.specs.String.{string_cmp};
ghost use Rattle.std.specs.BTreeMap.{keys as map_keys, IsOrdered};
ghost use Rattle.toml.specs.View.{table_view, view};
ghost use Rattle.toml.specs.Data.{as_str};
ghost use Rattle.gate_config.specs.declared.fault.ConfigFault.TheVariants.{BadValue, OutOfMemory};
ghost use Rattle.gate_config.specs.Keys.{name_of};
ghost use Rattle.gate_config.specs.Values.{value_at, integer_within, number_or, text_or, is_table, tables_or_none};
ghost use Rattle.gate_config.specs.Document.{least_unknown, is_key, name_fault};

use crate::fault::{ConfigFault, KeyText};
use crate::key::Key;
use std::alloc::Global;
use toml::{Table, Value};

/// The value at a key.
fn value_at<'a>(table: &'a Table, key: Key) -> Option<&'a Value>
    ensures { option_map (λ value. view value.now) result ≡ value_at (table_view table.now) key }
{
    table.get(key.name())
}

fn is_key(keys: &[Key], text: &str) -> bool
    ensures { result ≡ is_key keys.now text.now }
{
    keys.iter().any(|key| key.name() == text)
}

// The first key that is none of these, in the order of the map.
fn first_unknown<'a>(table: &'a Table, keys: &[Key]) -> Option<&'a String>
    ensures found { option_copied result
        ≡ find (λ text. not (is_key keys.now (string_bytes text))) (map_keys table.now) }
    ensures ordered { IsOrdered string_cmp table.now }
{
    table.keys().find(|text| !is_key(keys, text.as_str()))
}

fn unknown_key<'a>(table: &'a Table, keys: &[Key]) -> Option<&'a str>
    ensures { option_map (λ key. key.now) result ≡ least_unknown keys.now (table_view table.now) }
{
    match first_unknown(table, keys) {
        Some(text) => Some(text.as_str()),
        None => None,
    }
}

/// Tests that a table has no other keys than these.
pub(crate) fn check_keys(alloc: Global, table: &Table, keys: &[Key]) -> Result<(), ConfigFault>
    ensures known { OnOk result (least_unknown keys.now (table_view table.now) ≡ None) }
    ensures unknown { IfErr result (λ fault. fault ≢ OutOfMemory →
        option_map ConfigFault.UnknownKey (least_unknown keys.now (table_view table.now))
        ≡ Some fault) }
{
    match unknown_key(table, keys) {
        Some(text) => Err(ConfigFault::UnknownKey(KeyText::copied(alloc, text)?)),
        None => Ok(()),
    }
}

// The integer, where it is not below the least and not above the greatest.
fn within(integer: Option<i64>, least: u32, greatest: u32) -> Option<u32>
    ensures value { result ≡ integer_within least greatest integer }
    ensures within { IfSome result (λ number. (least ≤ number) × (number ≤ greatest)) }
{
    let number = u32::try_from(integer?).ok()?;
    if least <= number && number <= greatest {
        Some(number)
    } else {
        None
    }
}

/// The number at a key, from the least to the greatest, or the default.
pub(crate) fn number(
    table: &Table,
    key: Key,
    least: u32,
    greatest: u32,
    default: u32,
) -> Result<u32, ConfigFault>
    requires { (least ≤ default) × (default ≤ greatest) }
    ensures number { IfOk result (λ number.
        number_or least greatest default (value_at (table_view table.now) key) ≡ Some number) }
    ensures within { IfOk result (λ number. (least ≤ number) × (number ≤ greatest)) }
    ensures bad { IfErr result (λ fault. (fault ≡ BadValue key)
        × (number_or least greatest default (value_at (table_view table.now) key) ≡ None)) }
{
    match value_at(table, key) {
        None => Ok(default),
        Some(value) => match within(value.as_integer(), least, greatest) {
            Some(number) => Ok(number),
            None => Err(ConfigFault::BadValue(key)),
        },
    }
}

/// The text at a key, or the default.
pub(crate) fn text<'a>(
    table: &'a Table,
    key: Key,
    default: &'static str,
) -> Result<&'a str, ConfigFault>
    ensures text { IfOk result (λ text.
        text_or default.entry.now (value_at (table_view table.now) key) ≡ Some text.now) }
    ensures bad { IfErr result (λ fault. (fault ≡ BadValue key)
        × (text_or default.entry.now (value_at (table_view table.now) key) ≡ None)) }
{
    match value_at(table, key) {
        None => Ok(default),
        Some(value) => match value.as_str() {
            Some(text) => Ok(text),
            None => Err(ConfigFault::BadValue(key)),
        },
    }
}

/// The name of a host or a service.
pub(crate) fn name<'a>(table: &'a Table) -> Result<&'a str, ConfigFault>
    ensures name { IfOk result (λ name.
        option_and_then as_str (value_at (table_view table.now) Key.Name) ≡ Some name.now) }
    ensures passed { OnOk result
        (name_fault Key.Name (value_at (table_view table.now) Key.Name) ≡ None) }
    ensures bad { IfErr result (λ fault.
        name_fault Key.Name (value_at (table_view table.now) Key.Name) ≡ Some fault) }
{
    match value_at(table, Key::Name) {
        None => Err(ConfigFault::MissingName),
        Some(value) => match value.as_str() {
            Some(name) => Ok(name),
            None => Err(ConfigFault::BadValue(Key::Name)),
        },
    }
}

fn are_tables(values: &[Value]) -> bool
    ensures { result ≡ list_all (λ value. is_table (view value)) values.now }
{
    values.iter().all(|value| value.is_table())
}

/// The values of the array of tables at a key.
pub(crate) fn tables<'a>(table: &'a Table, key: Key) -> Result<&'a [Value], ConfigFault>
    ensures tables { IfOk result (λ values.
        tables_or_none (value_at (table_view table.now) key) ≡ Some (map view values.now)) }
    ensures bad { IfErr result (λ fault. (fault ≡ BadValue key)
        × (tables_or_none (value_at (table_view table.now) key) ≡ None)) }
{
    let Some(value) = value_at(table, key) else {
        return Ok(&[]);
    };
    let Some(values) = value.as_array() else {
        return Err(ConfigFault::BadValue(key));
    };
    if !are_tables(values) {
        return Err(ConfigFault::BadValue(key));
    }
    Ok(values.as_slice())
}
