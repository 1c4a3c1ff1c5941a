//! The air over UDP sockets and the clock of the operating system. They tell nothing of what they hear, send and tell: what is known of
//! them is what every air and every clock keeps, and how what the system says is turned.
#![tactic(auto)]

mod face;
mod posts;
mod system;
mod ticks;
mod udp;

pub use ticks::SystemClock;
pub use udp::UdpAir;
