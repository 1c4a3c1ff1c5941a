//! The interfaces of a running router out of what their tables state.
ghost use Rattle.std.specs.Prelude.{◌≡◌, map, length, true, IfOk};
ghost use Rattle.mesh_atoms.specs.Settings.{are_distinct};
ghost use Rattle.mesh_config.specs.Stated.Router.{stated_interface_fields};
ghost use Rattle.mesh_config.specs.Fields.{interface_fields, thresholds_of, threshold_pair, interface_costs};
ghost use Rattle.mesh_config.specs.RunSettings.{same_neighbour, senders_checked, stated_costs};

use crate::build::interface_from;
use crate::checks::{Compared, are_distinct};
use crate::run_tables::{Costs, StatedNeighbour, senders_of};
use crate::stated::{StatedInterface, Thresholds};
use mesh_atoms::{Interface, Seq};
use std::alloc::{AllocError, Global};

impl Compared for StatedNeighbour {
    ghost same = { same_neighbour };

    fn is_same(&self, other: &StatedNeighbour) -> bool {
        self.cost.sender.0 == other.cost.sender.0
    }
}

/// Whether no interface has two neighbours of one address.
pub fn are_senders_distinct(costs: &[Costs]) -> bool
    ensures { result ≡ senders_checked costs.now }
{
    for one in costs {
        if !are_distinct(one.neighbours.as_slice()) {
            return false;
        }
    }
    true
}

fn run_interface(
    alloc: Global,
    stated: &StatedInterface,
    thresholds: Thresholds,
    costs: &Costs,
) -> Result<Interface, AllocError>
    requires { are_distinct same_neighbour costs.now.neighbours ≡ true }
    ensures fields { IfOk result (λ i. interface_fields i ≡ stated_interface_fields stated.now) }
    ensures thresholds { IfOk result (λ i. thresholds_of i ≡ threshold_pair thresholds) }
    ensures costs { IfOk result (λ i. interface_costs i ≡ stated_costs costs.now) }
{
    let (senders, qualities) = senders_of(alloc, costs.neighbours.as_slice())?;
    interface_from(stated, thresholds, costs.metric, senders, qualities)
}

/// The interfaces as they are stated, each with the thresholds and with its costs. No interface may have two neighbours of one
/// address.
pub fn run_interfaces(
    alloc: Global,
    interfaces: &[StatedInterface],
    thresholds: Thresholds,
    costs: &[Costs],
) -> Result<Seq<Interface>, AllocError>
    requires each { length costs.now ≡ length interfaces.now }
    requires distinct { senders_checked costs.now ≡ true }
    ensures fields { IfOk result (λ all. map interface_fields all ≡ map stated_interface_fields interfaces.now) }
    ensures thresholds { IfOk result (λ all. map thresholds_of all ≡ map (λ i. threshold_pair thresholds) interfaces.now) }
    ensures costs { IfOk result (λ all. map interface_costs all ≡ map stated_costs costs.now) }
{
    let mut all = Seq::new(alloc);
    for (at, stated) in interfaces.iter().enumerate() {
        all.push(run_interface(alloc, stated, thresholds, &costs[at])?)?;
    }
    Ok(all)
}
