//! Arrays of tables of which each has a number above that of the one before.
ghost use Rattle.std.specs.Prelude.{◌≡◌, map, Ok, IfOk, length};
ghost use Rattle.toml.specs.View.{table_view, view};
ghost use Rattle.mesh_config.specs.Keys.Faults.{ValueOrFault, first};
ghost use Rattle.mesh_config.specs.Keys.Values.{SaysNothing};
ghost use Rattle.mesh_config.specs.Stated.Tables.{element_visits, table_of, no_less, rising_visits, Each};

use crate::keys::refusal::BAD_VALUE;
use crate::keys::{ConfigFault, refused};
use mesh_atoms::Seq;
use std::alloc::Global;
use toml::{Table, Value};

/// A value that a table of such an array stands for: its number, what its visits are, and what it says of the value.
pub trait FromRising: Sized + Drop {
    ghost use Rattle.std.specs.Prelude.{◌≡◌, ℕ, List, Option, Result, Ok};
    ghost use Rattle.toml.specs.Data.{Members};
    ghost use Rattle.mesh_config.specs.Keys.Faults.{Fault};

    // The number of the table.
    ghost number: { Members → Result ℕ Fault };

    // The visits of the table, whose number is to be no less than so many.
    ghost visits: { ℕ → Members → List (Option Fault) };

    // What the table says of the value.
    ghost says: { Members → Self → Type 0 };

    /// The value with the number of its table, which is to be no less than `least`, or the first fault of the visits.
    fn from_table(alloc: Global, table: &Table, least: u64) -> Result<(Self, u32), ConfigFault>
        ensures { ValueOrFault (λ x. says (table_view table.now) x.0 × (number (table_view table.now) ≡ Ok x.1)) (first (visits least (table_view table.now))) result };
}

/// Refuses the key with BAD_VALUE where the number is less than `least`.
pub fn refuse_below(alloc: Global, number: u64, least: u64, key: &str) -> Result<(), ConfigFault>
    ensures { ValueOrFault SaysNothing (no_less least key.now (Ok number)) result }
{
    if number < least {
        Err(refused(alloc, BAD_VALUE, key))
    } else {
        Ok(())
    }
}

// The value of an element, which must be a table, with its number.
fn element<T: FromRising>(
    alloc: Global,
    key: &str,
    value: &Value,
    least: u64,
) -> Result<(T, u32), ConfigFault>
    ensures { ValueOrFault (λ x. T.says (table_of (view value.now)) x.0 × (T.number (table_of (view value.now)) ≡ Ok x.1)) (first (element_visits (T.visits least) key.now (view value.now))) result }
{
    match value.as_table() {
        Some(table) => T::from_table(alloc, table, least),
        None => Err(refused(alloc, BAD_VALUE, key)),
    }
}

/// The values of the elements of the array at `key`, each of which must be a table with a number above that of the one before,
/// or the first fault of their visits.
pub fn all_rising<T: FromRising>(
    alloc: Global,
    key: &str,
    values: &[Value],
) -> Result<Seq<T>, ConfigFault>
    ensures answer { ValueOrFault (Each T.says (map view values.now)) (first (rising_visits T.visits T.number key.now 0 (map view values.now))) result }
    ensures size { IfOk result (λ xs. length xs ≡ length values.now) }
{
    let mut all = Seq::new(alloc);
    let mut least = 0;
    for value in values {
        match element(alloc, key, value, least) {
            Ok((one, number)) => {
                all.push(one)?;
                least = u64::from(number) + 1;
            }
            Err(e) => return Err(e),
        }
    }
    Ok(all)
}
