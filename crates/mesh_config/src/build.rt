//! Settings out of what their tables state.
ghost use Rattle.std.specs.Prelude.{◌≡◌, ◌≤◌, None, length, map, IfOk, IsTrue};
ghost use Rattle.mesh_atoms.specs.Base.{addr_eq};
ghost use Rattle.mesh_atoms.specs.Settings.{are_distinct};
ghost use Rattle.mesh_config.specs.Keys.Faults.{first};
ghost use Rattle.mesh_config.specs.Checks.Compared.{stated_lists, stated_duplicates};
ghost use Rattle.mesh_config.specs.Fields.{interface_fields, thresholds_of, threshold_pair, settings_parts, stated_parts, IsClear};
ghost use Rattle.mesh_config.specs.Stated.Router.{stated_interface_fields};
ghost use Rattle.mesh_config.specs.Senders.{HaveNoDuplicates, senders_to, sender_pair, HaveSenders, HaveAllSenders, stated_steps, with_steps, qualities_to, HaveQualities, HaveAllQualities};
ghost use Rattle.mesh_config.specs.Stated.Steps.{quality_pair};

use crate::senders::{qualities_to, senders_to};
use crate::stated::{StatedArc, StatedInterface, StatedRouter, Thresholds};
use mesh_atoms::{
    Admit, Interface, Metric, RadioArc, RouterSettings, SenderMetric, SenderQuality, Seq, Times,
};
use std::alloc::{AllocError, Global};

// The network that a scenario states: its routers, its arcs by the numbers of their ends, and the tables of these arcs, one by one.
#[derive(Clone, Copy)]
struct StatedNetwork<'a> {
    routers: &'a [StatedRouter],
    arcs: &'a [RadioArc],
    stated_arcs: &'a [StatedArc],
}

/// The interface that is stated, with these thresholds, with this metric of its own, and with these senders.
pub fn interface_from(
    stated: &StatedInterface,
    thresholds: Thresholds,
    metric: Metric,
    senders: Seq<SenderMetric>,
    qualities: Seq<SenderQuality>,
) -> Result<Interface, AllocError>
    requires few { length senders ≤ 4096 }
    requires distinct { IsTrue (are_distinct addr_eq (map (λ s. s.sender) senders)) }
    requires same { map (λ q. q.sender) qualities ≡ map (λ s. s.sender) senders }
    ensures fields { IfOk result (λ i. interface_fields i ≡ stated_interface_fields stated.now) }
    ensures thresholds { IfOk result (λ i. thresholds_of i ≡ threshold_pair thresholds) }
    ensures metric { IfOk result (λ i. i.metric ≡ metric) }
    ensures senders { IfOk result (λ i. i.senders ≡ senders) }
    ensures qualities { IfOk result (λ i. i.admit.senders ≡ qualities) }
{
    let name = stated.name.copy()?;
    let addrs = stated.addrs.copy()?;
    Ok(Interface {
        name,
        addrs,
        metric,
        senders,
        admit: Admit {
            accept: thresholds.accept,
            reject: thresholds.reject,
            senders: qualities,
        },
    })
}

// An interface, with its senders; its own metric is 1.
fn make_interface(
    alloc: Global,
    network: &StatedNetwork,
    thresholds: Thresholds,
    router: usize,
    iface: usize,
    stated: &StatedInterface,
) -> Result<Interface, AllocError>
    requires few { length network.now.arcs.now ≤ 4096 }
    requires apart { HaveNoDuplicates network.now.routers.now network.now.arcs.now }
    ensures fields { IfOk result (λ i. interface_fields i ≡ stated_interface_fields stated.now) }
    ensures thresholds { IfOk result (λ i. thresholds_of i ≡ threshold_pair thresholds) }
    ensures senders { IfOk result (λ i. map sender_pair i.senders ≡ senders_to (stated_lists network.now.routers.now) network.now.arcs.now router iface) }
    ensures qualities { IfOk result (λ i. map quality_pair i.admit.senders
        ≡ qualities_to (stated_lists network.now.routers.now) (with_steps network.now.arcs.now (stated_steps network.now.stated_arcs.now)) router iface) }
    ensures own { IfOk result (λ i. i.metric.code ≡ 0) }
{
    let senders = senders_to(alloc, network.routers, network.arcs, router, iface)?;
    let qualities = qualities_to(
        alloc,
        network.routers,
        network.arcs,
        network.stated_arcs,
        router,
        iface,
    )?;
    interface_from(stated, thresholds, Metric { code: 0 }, senders, qualities)
}

fn make_interfaces(
    alloc: Global,
    network: &StatedNetwork,
    thresholds: Thresholds,
    router: usize,
    interfaces: &[StatedInterface],
) -> Result<Seq<Interface>, AllocError>
    requires few { length network.now.arcs.now ≤ 4096 }
    requires apart { HaveNoDuplicates network.now.routers.now network.now.arcs.now }
    ensures interfaces { IfOk result (λ all. map interface_fields all ≡ map stated_interface_fields interfaces.now) }
    ensures thresholds { IfOk result (λ all. map thresholds_of all ≡ map (λ i. threshold_pair thresholds) interfaces.now) }
    ensures senders { IfOk result (λ all. HaveSenders (stated_lists network.now.routers.now) network.now.arcs.now router 0 all) }
    ensures qualities { IfOk result (λ all.
        HaveQualities (stated_lists network.now.routers.now) (with_steps network.now.arcs.now (stated_steps network.now.stated_arcs.now)) router 0 all) }
{
    let mut all = Seq::new(alloc);
    for (iface, stated) in interfaces.iter().enumerate() {
        all.push(make_interface(alloc, network, thresholds, router, iface, stated)?)?;
    }
    Ok(all)
}

/// The settings of the router that is stated, with the interfaces that are made from the stated ones.
pub fn router_from(
    stated: &StatedRouter,
    times: Times,
    interfaces: Seq<Interface>,
) -> Result<RouterSettings, AllocError>
    requires clear { IsClear stated.now }
    requires interfaces { map interface_fields interfaces ≡ map stated_interface_fields stated.now.interfaces }
    requires thresholds { map thresholds_of interfaces ≡ map (λ i. threshold_pair stated.now.head.rules.thresholds) stated.now.interfaces }
    ensures parts { IfOk result (λ r. settings_parts r ≡ stated_parts times stated.now) }
    ensures interfaces { IfOk result (λ r. r.interfaces ≡ interfaces) }
{
    let attached = stated.attached.copy()?;
    stated.head.settings(times, interfaces, attached)
}

fn make_router(
    alloc: Global,
    network: &StatedNetwork,
    times: Times,
    router: usize,
    stated: &StatedRouter,
) -> Result<RouterSettings, AllocError>
    requires few { length network.now.arcs.now ≤ 4096 }
    requires apart { HaveNoDuplicates network.now.routers.now network.now.arcs.now }
    requires clear { IsClear stated.now }
    ensures parts { IfOk result (λ r. settings_parts r ≡ stated_parts times stated.now) }
    ensures senders { IfOk result (λ r. HaveSenders (stated_lists network.now.routers.now) network.now.arcs.now router 0 r.interfaces) }
    ensures qualities { IfOk result (λ r.
        HaveQualities (stated_lists network.now.routers.now) (with_steps network.now.arcs.now (stated_steps network.now.stated_arcs.now)) router 0 r.interfaces) }
{
    let interfaces = make_interfaces(
        alloc,
        network,
        stated.head.rules.thresholds,
        router,
        stated.interfaces.as_slice(),
    )?;
    router_from(stated, times, interfaces)
}

/// The settings of all routers, where this is stated of the arcs, one by one; an arc of which nothing is stated any more has no
/// step of its quality.
pub fn make_routers(
    alloc: Global,
    routers: &[StatedRouter],
    arcs: &[RadioArc],
    stated_arcs: &[StatedArc],
    times: Times,
) -> Result<Seq<RouterSettings>, AllocError>
    requires few { length arcs.now ≤ 4096 }
    requires apart { HaveNoDuplicates routers.now arcs.now }
    requires clear { first (stated_duplicates routers.now) ≡ None }
    ensures parts { IfOk result (λ all. map settings_parts all ≡ map (stated_parts times) routers.now) }
    ensures senders { IfOk result (λ all. HaveAllSenders (stated_lists routers.now) arcs.now 0 all) }
    ensures qualities { IfOk result (λ all. HaveAllQualities (stated_lists routers.now) (with_steps arcs.now (stated_steps stated_arcs.now)) 0 all) }
{
    let network = StatedNetwork {
        routers,
        arcs,
        stated_arcs,
    };
    let mut all = Seq::new(alloc);
    for (at, stated) in routers.iter().enumerate() {
        all.push(make_router(alloc, &network, times, at, stated)?)?;
    }
    Ok(all)
}
