//! The emulation of a network: what its input states, run to its end and told.
#![tactic(auto)]

mod emulation;
mod events;
mod laws;
mod making;
mod network;
mod prepared;
mod probe;
mod summary;
mod trip;
mod wanted;
mod writing;

pub use emulation::{EmulateFault, emulate};
pub use laws::emulations_tell;
pub use making::{Kind, made, made_networks_tell, make};
pub use wanted::{NamedPacket, Wanted};
