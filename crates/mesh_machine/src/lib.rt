//! The router as a machine: what each event does to it and what it sends, as definitions (RFC 6130 and RFC 7181), with the laws
//! that hold of each step and of each run; an emulated network of such machines, likewise; and what a router shows.
#![tactic(auto)]

mod arrival;
mod count;
mod fate;
mod frame;
mod laws;
mod losses;
mod names;
mod said;
mod view;
mod ways;

pub use arrival::Arrival;
pub use count::all_two_hop_count;
pub use fate::{Fate, Heard, Read};
pub use frame::Frame;
pub use laws::{
    machines, routers_end_together, runs_are_sound, steps_keep_sound, steps_send_packets,
};
pub use losses::{Draws, loses, words_of};
pub use names::router_name;
pub use said::{Said, said_of};
pub use view::RouterView;
pub use ways::{ArcsOut, leaving_of, sender_of, ways_of};
