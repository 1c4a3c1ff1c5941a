//! Arrays at a key of a table.
ghost use Rattle.std.specs.Prelude.{◌≡◌, ◌≤◌, ◌<◌, map, option_map, length, IfOk, IfSome, IsTrue};
ghost use Rattle.std.specs.List.{list_all};
ghost use Rattle.toml.specs.View.{table_view, view};
ghost use Rattle.mesh_config.specs.Keys.Faults.{GivesSetting};
ghost use Rattle.mesh_config.specs.Keys.Values.{elements, turned, counted, array, array_or_none, each_turned, text, required};
ghost use Rattle.mesh_atoms.specs.Literals.{address_of, endpoint_of};
ghost use Rattle.mesh_config.specs.Keys.Ports.{port_of};
ghost use Rattle.mesh_atoms.specs.Settings.{IsCount, is_addressed};

use crate::keys::fault::{ConfigFault, refused};
use crate::keys::refusal::{BAD_VALUE, MISSING, TOO_MANY};
use crate::keys::values::{found, string_in};
use mesh_atoms::{Addr4, Endpoint, Seq, address_of, endpoint_of};
use std::alloc::Global;
use toml::{Table, Value};

// The elements of an array.
fn elements_in(value: &Value) -> Option<&[Value]>
    ensures { option_map (λ vs. map view vs.now) result ≡ elements (view value.now) }
{
    match value.as_array() {
        Some(values) => Some(values.as_slice()),
        None => None,
    }
}

// The elements of the array that stands at a key, from `low` to `high`.
fn elements_within<'a>(
    alloc: Global,
    key: &str,
    value: &'a Value,
    low: usize,
    high: usize,
) -> Result<&'a [Value], ConfigFault>
    ensures read { GivesSetting (λ vs. map view vs.now) result (counted low high key.now (turned key.now (elements (view value.now)))) }
    ensures size { IfOk result (λ vs. IsCount low high (length vs.now)) }
{
    match elements_in(value) {
        Some(values) => {
            if high < values.len() {
                Err(refused(alloc, TOO_MANY, key))
            } else if values.len() < low {
                Err(refused(alloc, BAD_VALUE, key))
            } else {
                Ok(values)
            }
        }
        None => Err(refused(alloc, BAD_VALUE, key)),
    }
}

/// The elements of the array at a key. Refused with MISSING where it is absent, with TOO_MANY above `high`, with BAD_VALUE below
/// `low` or where the value is no array.
pub fn array_at<'a>(
    alloc: Global,
    table: &'a Table,
    key: &str,
    low: usize,
    high: usize,
) -> Result<&'a [Value], ConfigFault>
    ensures read { GivesSetting (λ vs. map view vs.now) result (array low high key.now (table_view table.now)) }
    ensures size { IfOk result (λ vs. IsCount low high (length vs.now)) }
{
    match found(table, key) {
        None => Err(refused(alloc, MISSING, key)),
        Some(value) => elements_within(alloc, key, value, low, high),
    }
}

/// The elements of the array at a key; none where it is absent. Refused with TOO_MANY above `high`, with BAD_VALUE where the value
/// is no array.
pub fn array_or_none<'a>(
    alloc: Global,
    table: &'a Table,
    key: &str,
    high: usize,
) -> Result<&'a [Value], ConfigFault>
    ensures read { GivesSetting (λ vs. map view vs.now) result (array_or_none high key.now (table_view table.now)) }
    ensures size { IfOk result (λ vs. length vs.now ≤ high) }
{
    match found(table, key) {
        None => Ok(&[]),
        Some(value) => elements_within(alloc, key, value, 0, high),
    }
}

fn address_in(value: &Value) -> Option<Addr4>
    ensures exact { result ≡ text address_of (view value.now) }
    ensures addressed { IfSome result (λ addr. 0 < addr.0) }
{
    address_of(string_in(value)?)
}

fn all_addresses(alloc: Global, key: &str, values: &[Value]) -> Result<Seq<Addr4>, ConfigFault>
    ensures read { GivesSetting (λ addrs. addrs) result (each_turned (text address_of) key.now (Ok (map view values.now))) }
    ensures size { IfOk result (λ addrs. length addrs ≡ length values.now) }
    ensures addressed { IfOk result (λ addrs. IsTrue (list_all is_addressed addrs)) }
{
    let mut addrs = Seq::new(alloc);
    for value in values {
        match address_in(value) {
            Some(addr) => addrs.push(addr)?,
            None => return Err(refused(alloc, BAD_VALUE, key)),
        }
    }
    Ok(addrs)
}

/// The 1 to 4 addresses at a key. Refused as an array is, and with BAD_VALUE where an element is no address.
pub fn addresses_at(alloc: Global, table: &Table, key: &str) -> Result<Seq<Addr4>, ConfigFault>
    ensures read { GivesSetting (λ addrs. addrs) result (each_turned (text address_of) key.now (array 1 4 key.now (table_view table.now))) }
    ensures size { IfOk result (λ addrs. IsCount 1 4 (length addrs)) }
    ensures addressed { IfOk result (λ addrs. IsTrue (list_all is_addressed addrs)) }
{
    let values = array_at(alloc, table, key, 1, 4)?;
    all_addresses(alloc, key, values)
}

fn endpoint_in(value: &Value) -> Option<Endpoint>
    ensures { option_map port_of result ≡ text endpoint_of (view value.now) }
{
    endpoint_of(string_in(value)?)
}

/// The endpoint at a key. Refused with MISSING where it is absent, with BAD_VALUE where it is none.
pub fn endpoint_at(alloc: Global, table: &Table, key: &str) -> Result<Endpoint, ConfigFault>
    ensures { GivesSetting port_of result (required (text endpoint_of) key.now (table_view table.now)) }
{
    match found(table, key) {
        None => Err(refused(alloc, MISSING, key)),
        Some(value) => match endpoint_in(value) {
            Some(endpoint) => Ok(endpoint),
            None => Err(refused(alloc, BAD_VALUE, key)),
        },
    }
}

/// The address at a key. Refused with MISSING where it is absent, with BAD_VALUE where it is none.
pub fn address_at(alloc: Global, table: &Table, key: &str) -> Result<Addr4, ConfigFault>
    ensures read { GivesSetting (λ addr. addr) result (required (text address_of) key.now (table_view table.now)) }
    ensures addressed { IfOk result (λ addr. 0 < addr.0) }
{
    match found(table, key) {
        None => Err(refused(alloc, MISSING, key)),
        Some(value) => match address_in(value) {
            Some(addr) => Ok(addr),
            None => Err(refused(alloc, BAD_VALUE, key)),
        },
    }
}

fn all_endpoints(alloc: Global, key: &str, values: &[Value]) -> Result<Seq<Endpoint>, ConfigFault>
    ensures read { GivesSetting (map port_of) result (each_turned (text endpoint_of) key.now (Ok (map view values.now))) }
    ensures size { IfOk result (λ endpoints. length endpoints ≡ length values.now) }
{
    let mut endpoints = Seq::new(alloc);
    for value in values {
        match endpoint_in(value) {
            Some(endpoint) => endpoints.push(endpoint)?,
            None => return Err(refused(alloc, BAD_VALUE, key)),
        }
    }
    Ok(endpoints)
}

/// Up to `high` endpoints at a key; none where it is absent. Refused as an array is, and with BAD_VALUE where an element is none.
pub fn endpoints_at(
    alloc: Global,
    table: &Table,
    key: &str,
    high: usize,
) -> Result<Seq<Endpoint>, ConfigFault>
    ensures read { GivesSetting (map port_of) result (each_turned (text endpoint_of) key.now (array_or_none high key.now (table_view table.now))) }
    ensures size { IfOk result (λ endpoints. length endpoints ≤ high) }
{
    let values = array_or_none(alloc, table, key, high)?;
    all_endpoints(alloc, key, values)
}
