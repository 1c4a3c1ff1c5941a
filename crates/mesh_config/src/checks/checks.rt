//! The checks for duplicates, after the walk.
ghost use Rattle.std.specs.Prelude.{◌≡◌, ◌++◌, map, OnOk, IfOk};
ghost use Rattle.std.specs.List.{list_all, list_any};
ghost use Rattle.mesh_atoms.specs.Settings.{are_distinct, is_host};
ghost use Rattle.mesh_config.specs.Keys.Faults.{ValueOrFault, first};
ghost use Rattle.mesh_config.specs.Keys.Values.{SaysNothing};
ghost use Rattle.mesh_config.specs.Checks.Compared.{same_interface, same_attached, router_addrs, all_addrs, attaches_no_host, stated_duplicates, stated_identifiers};
ghost use Rattle.mesh_config.specs.Checks.Checks.{duplicate_unless, duplicates};

use crate::checks::distinct::are_distinct;
use crate::keys::refusal::DUPLICATE;
use crate::keys::{ConfigFault, refused};
use crate::stated::StatedRouter;
use mesh_atoms::{Addr4, Attached4, Seq};
use std::alloc::{AllocError, Global};

/// Refuses the key with DUPLICATE unless the check holds.
pub fn refuse_duplicates(alloc: Global, distinct: bool, key: &str) -> Result<(), ConfigFault>
    ensures { ValueOrFault SaysNothing (duplicate_unless distinct key.now) result }
{
    if distinct {
        Ok(())
    } else {
        Err(refused(alloc, DUPLICATE, key))
    }
}

fn are_interfaces_distinct(routers: &[StatedRouter]) -> bool
    ensures { result ≡ list_all (λ r. are_distinct same_interface r.interfaces) routers.now }
{
    for router in routers {
        if !are_distinct(router.interfaces.as_slice()) {
            return false;
        }
    }
    true
}

fn are_nets_distinct(routers: &[StatedRouter]) -> bool
    ensures { result ≡ list_all (λ r. are_distinct same_attached r.attached) routers.now }
{
    for router in routers {
        if !are_distinct(router.attached.as_slice()) {
            return false;
        }
    }
    true
}

fn put_addrs(out: &mut Seq<Addr4>, addrs: &[Addr4]) -> Result<(), AllocError>
    ensures { OnOk result (out.new ≡ out.old ++ addrs.now) }
{
    for addr in addrs {
        out.push(*addr)?;
    }
    Ok(())
}

fn put_router_addrs(out: &mut Seq<Addr4>, router: &StatedRouter) -> Result<(), AllocError>
    ensures { OnOk result (out.new ≡ out.old ++ router_addrs router.now) }
{
    for interface in router.interfaces.as_slice() {
        put_addrs(out, interface.addrs.as_slice())?;
    }
    Ok(())
}

// The addresses of all routers.
fn all_addrs(alloc: Global, routers: &[StatedRouter]) -> Result<Seq<Addr4>, AllocError>
    ensures { IfOk result (λ addrs. addrs ≡ all_addrs routers.now) }
{
    let mut addrs = Seq::new(alloc);
    for router in routers {
        put_router_addrs(&mut addrs, router)?;
    }
    Ok(addrs)
}

fn is_host(attached: &Attached4, addr: Addr4) -> bool
    ensures { result ≡ is_host attached.now.net addr }
{
    attached.net.prefix == 32 && attached.net.addr.0 == addr.0
}

fn is_host_among(attached: &Attached4, addrs: &[Addr4]) -> bool
    ensures { result ≡ list_any (is_host attached.now.net) addrs.now }
{
    for addr in addrs {
        if is_host(attached, *addr) {
            return true;
        }
    }
    false
}

fn has_no_attached(addrs: &[Addr4], router: &StatedRouter) -> bool
    ensures { result ≡ attaches_no_host addrs.now router.now }
{
    for attached in router.attached.as_slice() {
        if is_host_among(attached, addrs) {
            return false;
        }
    }
    true
}

fn have_no_attached(addrs: &[Addr4], routers: &[StatedRouter]) -> bool
    ensures { result ≡ list_all (attaches_no_host addrs.now) routers.now }
{
    for router in routers {
        if !has_no_attached(addrs, router) {
            return false;
        }
    }
    true
}

// Nothing stands twice among the routers.
fn distinct_stated(alloc: Global, routers: &[StatedRouter]) -> Result<(), ConfigFault>
    ensures { ValueOrFault SaysNothing (first (stated_duplicates routers.now)) result }
{
    refuse_duplicates(alloc, are_distinct(routers), "name")?;
    refuse_duplicates(alloc, are_interfaces_distinct(routers), "name")?;
    let addrs = all_addrs(alloc, routers)?;
    refuse_duplicates(alloc, are_distinct(addrs.as_slice()), "addresses")?;
    refuse_duplicates(alloc, are_nets_distinct(routers), "net")?;
    refuse_duplicates(alloc, have_no_attached(addrs.as_slice(), routers), "net")
}

/// Refuses with DUPLICATE what stands twice among the routers: a router's name, an interface's within its router, an address, a
/// network within its router, or a network that is a router's address; the first in this order.
pub fn no_duplicates(alloc: Global, routers: &[StatedRouter]) -> Result<(), ConfigFault>
    ensures { ValueOrFault SaysNothing (first (duplicates (map stated_identifiers routers.now))) result }
{
    distinct_stated(alloc, routers)
}
