//! Whether rows are the same.
ghost use Rattle.std.specs.Prelude.{◌≡◌, ◌↔◌, IsTrue};

use crate::TcRow;

/// Whether two lists of rows are the same. Takes no memory.
pub fn are_same_rows(rows: &[TcRow], others: &[TcRow]) -> bool
    ensures { IsTrue result ↔ (rows.now ≡ others.now) }
{
    rows == others
}
