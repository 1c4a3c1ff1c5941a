//! A text, read as TOML.
ghost use Rattle.std.specs.Prelude.{◌≡◌, option_map, if◌then◌else◌, Some, None};
ghost use Rattle.std.specs.Str.{is_utf8};
ghost use Rattle.toml.specs.View.{table_view};
ghost use Rattle.mesh_config.specs.Keys.Faults.{GivesSetting};
ghost use Rattle.mesh_config.specs.Keys.Document.{document};

use crate::keys::fault::{ConfigFault, refused};
use crate::keys::refusal::{NOT_TOML, TOO_LONG};
use std::alloc::{AllocError, Global};
use toml::Table;

/// The longest text of settings that is read, in octets: 1 MiB. Own.
pub const LONGEST_SETTINGS: usize = 1_048_576;

// The octets as text, where they are UTF-8.
fn text_of(octets: &[u8]) -> Option<&str>
    ensures { option_map (λ s. s.now) result ≡ (if is_utf8 octets.now then Some octets.now else None) }
{
    match std::str::from_utf8(octets) {
        Ok(text) => Some(text),
        Err(_) => None,
    }
}

/// The top table of the TOML that the octets spell. They are refused with TOO_LONG where they are more than `LONGEST_SETTINGS`,
/// else with NOT_TOML where they are not UTF-8 or no TOML.
pub fn document(alloc: Global, octets: &[u8]) -> Result<Table, ConfigFault>
    ensures { GivesSetting table_view result (document octets.now) }
{
    if octets.len() > LONGEST_SETTINGS {
        return Err(refused(alloc, TOO_LONG, "input"));
    }
    match text_of(octets) {
        None => Err(refused(alloc, NOT_TOML, "input")),
        Some(text) => match toml::table_from_str(alloc, text) {
            Ok(table) => Ok(table),
            Err(e) => {
                if e.is_memory() {
                    Err(ConfigFault::Memory(AllocError))
                } else {
                    Err(refused(alloc, NOT_TOML, "input"))
                }
            }
        },
    }
}
