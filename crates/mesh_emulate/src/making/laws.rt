//! What holds of every made network, and what its text tells.
ghost use Rattle.mesh_emulate.specs.Making.Made.{MadeNetworksRunMachines, MadeNetworksTellSettled, TellsLeastRoutes};

/// In every run of a made network each router is a run of the machine with its settings. A line of its text is `settled yes` exactly
/// where the network is settled at the end; then the text tells how many least routes the radio graph has, and the greatest metric of
/// them. It does nothing.
pub fn made_networks_tell()
    ensures machines { MadeNetworksRunMachines }
    ensures settled { MadeNetworksTellSettled }
    ensures routes { TellsLeastRoutes }
{}
