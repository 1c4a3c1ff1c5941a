//! What every step of a router keeps and what it sends, and what the routers of an emulated network come through (RFC 6130 and RFC 7181).
ghost use Rattle.mesh_machine.specs.Laws.{KeepsSound, RunsAreSound, SendsPackets};
ghost use Rattle.mesh_machine.specs.NetRun.{AreMachines, EndTogether};

/// A step of a sound router leaves a sound router.
pub fn steps_keep_sound()
    ensures { KeepsSound }
{}

/// Every router is sound, whatever happened to it from its opening state on.
pub fn runs_are_sound()
    ensures { RunsAreSound }
{}

/// Where what is heard is octets, each frame that a step sends spells a packet, and is sent on one of the router's interfaces.
pub fn steps_send_packets()
    ensures { SendsPackets }
{}

/// In every run of a scenario's network from its opening, over the losses and delays of that scenario, each router is a run of the
/// machine with its settings.
pub fn machines()
    ensures { AreMachines }
{}

/// Where such a run is over, each router is sound, and the moment of its last event is the scenario's end.
pub fn routers_end_together()
    ensures { EndTogether }
{}
