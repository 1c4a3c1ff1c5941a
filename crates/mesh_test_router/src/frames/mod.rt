//! Routers by the frames that they hear and send: refusals, one without memory, TCs and messages of other types, full sets, and three
//! routers in a row.

pub(crate) mod full;
pub(crate) mod hears;
pub(crate) mod lone;
mod looks;
mod octets;
pub(crate) mod row;
pub(crate) mod steps;

/// The routers 10.0.0.1, 10.0.0.2 and 10.0.0.3.
const ONE: u32 = 0x0a00_0001;

const TWO: u32 = 0x0a00_0002;

const THREE: u32 = 0x0a00_0003;

/// The router 10.9.9.9, which is no neighbour.
const FAR: u32 = 0x0a09_0909;
