//! The laws of a flood (RFC 7181, section 14.3).
ghost use Rattle.mesh_probe.specs.Laws.{FloodReaches, FloodSendsOnce};
ghost use Rattle.mesh_probe.specs.Probes.{ProbesReach, ProbesSendOnce};

/// The laws of floods (RFC 7181, section 14.3). In a settled network whose routers are all willing to flood and have room in their
/// sets of messages, a TC that no router knows and whose hop limit is no less than the number of routers is heard by each router that is
/// joined with its originator (`reaches`). Whatever the network, no router sends a TC twice on an interface (`once`). It does nothing.
pub fn floods_reach()
    ensures reaches { FloodReaches }
    ensures once { FloodSendsOnce }
{}

/// The same laws of probes, from what a probe is: its number is the least that no router has noted, and what it tells are the frames
/// of the flood and the routers that hear one. It does nothing.
pub fn probes_reach()
    ensures reaches { ProbesReach }
    ensures once { ProbesSendOnce }
{
    floods_reach();
}
