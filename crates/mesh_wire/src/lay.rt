//! The values of all address TLVs of a message, laid in one buffer (RFC 5444, section 5.4).
ghost use Rattle.std.specs.Prelude.{◌≡◌, ◌+◌, ◌*◌, ◌++◌, OnOk};
ghost use Rattle.mesh_wire.specs.Lines.{octets_of, columns, column_text, columns_text};

use crate::lines::{AddressRecord, AddressTlvKind, COLUMNS};
use mesh_atoms::Bytes;
use std::alloc::AllocError;

// Appends the value of two octets.
fn put_value(column: AddressTlvKind, pair: (u8, u8), out: &mut Bytes) -> Result<(), AllocError>
    ensures { OnOk result (out.new ≡ out.old ++ octets_of column pair) }
{
    out.push(pair.0)?;
    if column.is_wide() {
        out.push(pair.1)?;
    }
    Ok(())
}

// Appends a value for each line: that of the column, or zeros where the line has none.
fn lay_column(
    column: AddressTlvKind,
    lines: &[AddressRecord],
    out: &mut Bytes,
) -> Result<(), AllocError>
    ensures { OnOk result (out.new ≡ out.old ++ column_text column lines.now) }
{
    for line in lines {
        put_value(column, line.octet_pair(column).unwrap_or((0, 0)), out)?;
    }
    Ok(())
}

// The same for several columns.
fn lay_columns(
    columns: &[AddressTlvKind],
    lines: &[AddressRecord],
    out: &mut Bytes,
) -> Result<(), AllocError>
    ensures { OnOk result (out.new ≡ out.old ++ columns_text columns.now lines.now) }
{
    match columns {
        [] => Ok(()),
        [column, rest @ ..] => {
            lay_column(*column, lines, out)?;
            lay_columns(rest, lines, out)
        }
    }
}

/// Appends the values of all columns.
pub(crate) fn lay(lines: &[AddressRecord], out: &mut Bytes) -> Result<(), AllocError>
    ensures { OnOk result (out.new ≡ out.old ++ columns_text columns lines.now) }
{
    lay_columns(&COLUMNS, lines, out)
}
