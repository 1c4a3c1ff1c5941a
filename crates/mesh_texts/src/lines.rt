//! The lines of a router's section, and the pieces that every line of a text is put together from.

mod lines;
mod names;
mod pieces;

pub use crate::lines::lines::{
    put_flooding_line, put_link_line, put_neighbour_line, put_route_line, put_router_line,
    put_routing_line, relays_of,
};
pub use crate::lines::names::{face_name, faces_of};
pub use crate::lines::pieces::{Piece, put_all, put_labelled, put_line};
