//! What stands at a key of a table.
ghost use Rattle.std.specs.Prelude.{◌≡◌, ◌≤◌, option_map, IfOk, IfSome};
ghost use Rattle.toml.specs.View.{table_view, view};
ghost use Rattle.toml.specs.Data.{get_member, as_str, as_table, no_members};
ghost use Rattle.std.specs.List.{list_any};
ghost use Rattle.mesh_atoms.specs.Settings.{name_eq, IsName};
ghost use Rattle.mesh_atoms.specs.Literals.{name_of};
ghost use Rattle.mesh_config.specs.Keys.Faults.{GivesSetting, ValueOrFault};
ghost use Rattle.mesh_config.specs.Keys.Values.{whole, optional, required, unknown, SaysNothing, text};
ghost use Rattle.mesh_config.specs.Keys.Values.{ticks};

use crate::keys::fault::{ConfigFault, refused};
use crate::keys::refusal::{BAD_VALUE, MISSING, UNKNOWN_KEY};
use mesh_atoms::{Bytes, name_of};
use std::alloc::Global;
use toml::{Table, Value};

/// What the table has at a key.
pub fn found<'a>(table: &'a Table, key: &str) -> Option<&'a Value>
    ensures { option_map (λ v. view v.now) result ≡ get_member key.now (table_view table.now) }
{
    table.get(key)
}

// Whether a key is one of those known.
fn is_known(known: &[&str], key: &str) -> bool
    ensures { result ≡ list_any (λ k. name_eq key.now k.now) known.now }
{
    for other in known {
        if key == *other {
            return true;
        }
    }
    false
}

/// Refuses with UNKNOWN_KEY the least key of the table that is none of those known, where there is one.
pub fn known_keys(alloc: Global, table: &Table, known: &[&str]) -> Result<(), ConfigFault>
    ensures { ValueOrFault SaysNothing (unknown (λ key. list_any (λ k. name_eq key k.now) known.now) (table_view table.now)) result }
{
    for (key, _) in table.iter() {
        let key = key.as_str();
        if !is_known(known, key) {
            return Err(refused(alloc, UNKNOWN_KEY, key));
        }
    }
    Ok(())
}

// The whole number of a value, where it is one of a range.
fn whole(value: &Value, low: u64, high: u64) -> Option<u64>
    ensures exact { result ≡ whole low high (view value.now) }
    ensures range { IfSome result (λ n. (low ≤ n) × (n ≤ high)) }
{
    match value.as_integer() {
        Some(n) => {
            let n = u64::try_from(n).ok()?;
            if low <= n && n <= high { Some(n) } else { None }
        }
        None => None,
    }
}

/// The whole number at a key, or the default where it is absent. Refused with BAD_VALUE where it is none from `low` to `high`.
pub fn whole_or(
    alloc: Global,
    table: &Table,
    key: &str,
    low: u64,
    high: u64,
    default: u64,
) -> Result<u64, ConfigFault>
    requires low { low ≤ default }
    requires high { default ≤ high }
    ensures read { GivesSetting (λ n. n) result (optional default (whole low high) key.now (table_view table.now)) }
    ensures range { IfOk result (λ n. (low ≤ n) × (n ≤ high)) }
{
    match found(table, key) {
        None => Ok(default),
        Some(value) => match whole(value, low, high) {
            Some(n) => Ok(n),
            None => Err(refused(alloc, BAD_VALUE, key)),
        },
    }
}

/// The whole number at a key. Refused with MISSING where it is absent, with BAD_VALUE where it is none from `low` to `high`.
pub fn whole_at(
    alloc: Global,
    table: &Table,
    key: &str,
    low: u64,
    high: u64,
) -> Result<u64, ConfigFault>
    ensures read { GivesSetting (λ n. n) result (required (whole low high) key.now (table_view table.now)) }
    ensures range { IfOk result (λ n. (low ≤ n) × (n ≤ high)) }
{
    match found(table, key) {
        None => Err(refused(alloc, MISSING, key)),
        Some(value) => match whole(value, low, high) {
            Some(n) => Ok(n),
            None => Err(refused(alloc, BAD_VALUE, key)),
        },
    }
}

/// The least number of ticks of 1/8192 s that is no shorter than so many milliseconds, up to an hour.
pub fn ticks(ms: u64) -> u64
    requires { ms ≤ 3600000 }
    ensures { result ≡ ticks ms }
{
    (1024 * ms + 124) / 125
}

/// The octets of a string.
pub fn string_in(value: &Value) -> Option<&[u8]>
    ensures { option_map (λ s. s.now) result ≡ as_str (view value.now) }
{
    match value.as_str() {
        Some(s) => Some(s.as_bytes()),
        None => None,
    }
}

/// The name at a key. Refused with MISSING where it is absent, with BAD_VALUE where it is no name.
pub fn name_at(alloc: Global, table: &Table, key: &str) -> Result<Bytes, ConfigFault>
    ensures read { GivesSetting (λ name. name) result (required (text name_of) key.now (table_view table.now)) }
    ensures named { IfOk result IsName }
{
    match found(table, key) {
        None => Err(refused(alloc, MISSING, key)),
        Some(value) => match string_in(value) {
            None => Err(refused(alloc, BAD_VALUE, key)),
            Some(octets) => match name_of(octets) {
                None => Err(refused(alloc, BAD_VALUE, key)),
                Some(name) => {
                    let mut copy = Bytes::new(alloc);
                    copy.append(name)?;
                    Ok(copy)
                }
            },
        },
    }
}

/// The table at a key, or the empty one where it is absent. Refused with BAD_VALUE where the value is no table.
pub fn table_or<'a>(
    alloc: Global,
    table: &'a Table,
    key: &str,
    empty: &'a Table,
) -> Result<&'a Table, ConfigFault>
    requires { table_view empty.now ≡ no_members }
    ensures { GivesSetting (λ t. table_view t.now) result (optional no_members as_table key.now (table_view table.now)) }
{
    match found(table, key) {
        None => Ok(empty),
        Some(value) => match value.as_table() {
            Some(inner) => Ok(inner),
            None => Err(refused(alloc, BAD_VALUE, key)),
        },
    }
}

/// The table at a key. Refused with MISSING where it is absent, with BAD_VALUE where the value is no table.
pub fn table_at<'a>(alloc: Global, table: &'a Table, key: &str) -> Result<&'a Table, ConfigFault>
    ensures { GivesSetting (λ t. table_view t.now) result (required as_table key.now (table_view table.now)) }
{
    match found(table, key) {
        None => Err(refused(alloc, MISSING, key)),
        Some(value) => match value.as_table() {
            Some(inner) => Ok(inner),
            None => Err(refused(alloc, BAD_VALUE, key)),
        },
    }
}
