//! Arrays of tables.
ghost use Rattle.std.specs.Prelude.{◌≡◌, map, IfOk, length};
ghost use Rattle.toml.specs.View.{table_view, view};
ghost use Rattle.mesh_config.specs.Keys.Faults.{ValueOrFault, first};
ghost use Rattle.mesh_config.specs.Stated.Tables.{tables_visits, element_visits, table_of, Each};

use crate::keys::refusal::BAD_VALUE;
use crate::keys::{ConfigFault, refused};
use mesh_atoms::Seq;
use std::alloc::Global;
use toml::{Table, Value};

/// A value that a table stands for: what its visits are, and what it says of the value.
pub trait FromTable: Sized + Drop {
    ghost use Rattle.std.specs.Prelude.{List, Option};
    ghost use Rattle.toml.specs.Data.{Members};
    ghost use Rattle.mesh_config.specs.Keys.Faults.{Fault};

    // The visits of the table.
    ghost visits: { Members → List (Option Fault) };

    // What the table says of the value.
    ghost says: { Members → Self → Type 0 };

    /// The value, or the first fault of the visits.
    fn from_table(alloc: Global, table: &Table) -> Result<Self, ConfigFault>
        ensures { ValueOrFault (says (table_view table.now)) (first (visits (table_view table.now))) result };
}

/// The value of an element, which must be a table, or the first fault of its visits.
pub fn element<T: FromTable>(alloc: Global, key: &str, value: &Value) -> Result<T, ConfigFault>
    ensures { ValueOrFault (T.says (table_of (view value.now))) (first (element_visits T.visits key.now (view value.now))) result }
{
    match value.as_table() {
        Some(table) => T::from_table(alloc, table),
        None => Err(refused(alloc, BAD_VALUE, key)),
    }
}

/// The values of the elements of the array at `key`, each of which must be a table, or the first fault of their visits.
pub fn all_tables<T: FromTable>(
    alloc: Global,
    key: &str,
    values: &[Value],
) -> Result<Seq<T>, ConfigFault>
    ensures answer { ValueOrFault (Each T.says (map view values.now)) (first (tables_visits T.visits key.now (map view values.now))) result }
    ensures size { IfOk result (λ xs. length xs ≡ length values.now) }
{
    let mut all = Seq::new(alloc);
    for value in values {
        match element(alloc, key, value) {
            Ok(one) => all.push(one)?,
            Err(e) => return Err(e),
        }
    }
    Ok(all)
}
