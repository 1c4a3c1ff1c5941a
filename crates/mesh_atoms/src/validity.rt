//! For how long what a TC of a router says is to be held.
ghost use Rattle.std.specs.Prelude.{◌≡◌, ◌≤◌, ◌<◌, ◌^◌, ◌++◌, ◌+◌, ◌*◌, length, IfOk, OnOk};
ghost use Rattle.mesh_atoms.specs.Settings.{one_hour};
ghost use Rattle.mesh_atoms.specs.Validity.{IsLeastCode, IsTimeValue, IsValidity};

use crate::{Bytes, RouterSettings, time_code_at_least};
use std::alloc::AllocError;

impl RouterSettings {
    /// The value of VALIDITY_TIME in the router's TCs: the time codes of its near holds, each with its number of hops, and that of
    /// its hold time, all rounded up to a code that is sent (RFC 5497, section 6). At most 17 octets.
    pub fn validity(&self) -> Result<Bytes, AllocError>
        ensures value { IfOk result (λ value. IsValidity self.now.times.topology_hold self.now.near_hold value) }
        ensures sent { IfOk result (λ value. IsTimeValue value) }
        ensures short { IfOk result (λ value. length value ≤ 17) }
    {
        let mut value = Bytes::new(self.near_hold.allocator());
        for near in self.near_hold.as_slice() {
            value.push(least_code(near.hold))?;
            value.push(near.hops)?;
        }
        value.push(least_code(self.times.topology_hold))?;
        Ok(value)
    }
}

/// The least time code, of those that are sent, that is no shorter than so many ticks of 1/8192 s, up to an hour (RFC 5497,
/// section 5).
pub fn least_code(ticks: u64) -> u8
    requires { ticks ≤ one_hour }
    ensures { IsLeastCode ticks result }
{
    match time_code_at_least(ticks) {
        Some(code) => code,
        None => 0,
    }
}
