//! Addresses as text.
ghost use Rattle.std.specs.Prelude.{◌≡◌, ◌++◌, OnOk};
ghost use Rattle.mesh_data.specs.Dotted.{dotted};

use mesh_atoms::{Addr4, Bytes, put_decimal};
use std::alloc::AllocError;

/// Puts an address at the end, as four numbers with dots between them.
#[tactic(auto, unfolding(crate::specs::Dotted::dotted))]
pub(crate) fn put_address(out: &mut Bytes, addr: Addr4) -> Result<(), AllocError>
    ensures { OnOk result (out.new ≡ out.old ++ dotted addr) }
{
    put_decimal(out, u64::from(addr.0 / 16777216))?;
    out.append(b".")?;
    put_decimal(out, u64::from(addr.0 / 65536 % 256))?;
    out.append(b".")?;
    put_decimal(out, u64::from(addr.0 / 256 % 256))?;
    out.append(b".")?;
    put_decimal(out, u64::from(addr.0 % 256))
}
