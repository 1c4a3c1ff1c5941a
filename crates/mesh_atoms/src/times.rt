//! Times that are sent.
ghost use Rattle.std.specs.Prelude.{◌≤◌};
ghost use Rattle.mesh_atoms.specs.Hello.{IsRoundedUp};
ghost use Rattle.mesh_atoms.specs.Settings.{one_hour};

use crate::codes::{time_code_at_least, time_of};

/// Ticks of 1/8192 s rounded up to a time code that is sent, up to an hour (RFC 5497, section 5).
pub fn time_at_least(ticks: u64) -> u64
    requires { ticks ≤ one_hour }
    ensures { IsRoundedUp ticks result }
{
    match time_code_at_least(ticks) {
        Some(code) => time_of(code),
        None => 0,
    }
}
