//! The texts of routers and of emulated networks: the lines and the section of a router, the lines of an event (a trace), the summary of
//! a network, and what can be read back from them.
#![tactic(auto)]

mod laws;
mod lines;
mod sections;
mod summary;
mod trace;

pub use laws::texts_read_back;
pub use lines::{
    Piece, face_name, faces_of, put_all, put_flooding_line, put_line, put_link_line,
    put_neighbour_line, put_route_line, put_router_line, put_routing_line, relays_of,
};
pub use sections::put_section;
pub use summary::{put_counts_line, put_settled, put_summary};
pub use trace::{
    FrameLine, put_event, put_flooding_relays_line, put_frame_line, put_lost_line,
    put_routing_relays_line, put_tick_line,
};
