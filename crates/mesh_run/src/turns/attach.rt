//! Attaching the interfaces of a router.
ghost use Rattle.std.specs.Prelude.{◌≡◌, ◌<◌, ◌≤◌, length, map, take, OnOk, IfErr};
ghost use Rattle.mesh_io.specs.Faults.{RoseByOne};
ghost use Rattle.mesh_io.specs.Told.{TellsMore};
ghost use Rattle.mesh_run.specs.Turns.Parts.{AttachesPort};
ghost use Rattle.mesh_run.specs.Turns.Turns.{attached_report};
ghost use Rattle.mesh_run.specs.Attaching.{AttachesAtOnce};

use mesh_atoms::Port;
use mesh_io::{Air, Attached};

/// Attaches an interface for each port, in order, up to the first attach that fails; the error is its number, counted from 0.
pub fn attach_all<A: Air>(air: &mut A, ports: &[Port]) -> Result<(), usize>
    requires { A.attached air.old ≡ 0 }
    ensures all { OnOk result (A.attached air.new ≡ length ports.now) }
    ensures told { OnOk result (TellsMore (A.reports air.old) (A.reports air.new) (map attached_report ports.now)) }

    // No attach failed, so each was tried once; or one failed, and none was tried after it.
    ensures no_fault { OnOk result (A.faults air.new ≡ A.faults air.old) }
    ensures one_fault { IfErr result (λ i. RoseByOne (A.faults air.old) (A.faults air.new)) }
    ensures fewer { IfErr result (λ i. (i < length ports.now)) }
    ensures number { IfErr result (λ i. A.attached air.new ≡ i) }
    ensures told_before { IfErr result (λ i. TellsMore (A.reports air.old) (A.reports air.new) (map attached_report (take i ports.now))) }
    ensures first_try { AttachesAtOnce A A.attached A.faults air.old air.new }
    ensures later { A.faults air.old ≤ A.faults air.new }
{
    for i in 0..ports.len() {
        if attach(air, &ports[i]) == Attached::Failed {
            return Err(i);
        }
    }
    Ok(())
}

// Attaches an interface for a port.
fn attach<A: Air>(air: &mut A, port: &Port) -> Attached
    ensures { AttachesPort (A.attached air.old) (A.attached air.new) (A.reports air.old) (A.reports air.new)
        (A.faults air.old) (A.faults air.new) port.now result }
{
    air.attach(port.local, port.peers.as_slice())
}
