//! The addresses of a router beside a list.
ghost use Rattle.std.specs.Prelude.{Contains};
ghost use Rattle.mesh_settled.specs.Gaps.Fields.{Addresses};
ghost use Rattle.mesh_settled.specs.Gaps.Found.{IsFieldTest, IsLeastMissing};
ghost use Rattle.mesh_settled.specs.Gaps.Joints.{all_addresses};

use crate::gaps::compare::{Apart, least_apart, least_missing, least_of, lower};
use crate::gaps::joints::{addrs_of, is_address_of};
use mesh_atoms::{Addr4, RouterSettings};

// The least address of the list that is none of the router's.
fn least_stranger(addrs: &[Addr4], settings: &RouterSettings) -> Option<Addr4>
    ensures { IsLeastMissing (λ a. Contains addrs.now a) (all_addresses settings.now.interfaces) result }
{
    let mut best = None;
    for i in 0..addrs.len() {
        best = lower(best, addrs[i], is_address_of(settings, addrs[i]));
    }
    best
}

// The least address of the router that the list hasn't.
fn least_untold(settings: &RouterSettings, addrs: &[Addr4]) -> Option<Addr4>
    ensures { IsLeastMissing (λ a. Contains (all_addresses settings.now.interfaces) a) addrs.now result }
{
    let mut best = None;
    for i in 0..settings.interfaces.len() {
        best = least_of(best, least_missing(addrs_of(settings, i), addrs));
    }
    best
}

/// The least address that the list alone or the router alone has.
pub fn owned(addrs: &[Addr4], settings: &RouterSettings) -> Option<Apart>
    ensures { IsFieldTest (Addresses addrs.now) (Addresses (all_addresses settings.now.interfaces)) result }
{
    least_apart(
        least_stranger(addrs, settings),
        least_untold(settings, addrs),
    )
}
