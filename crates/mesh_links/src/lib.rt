//! The links of one interface (RFC 6130, section 7.1, and RFC 7181, section 8.1).
#![tactic(auto)]

mod addresses;
mod admittance;
mod ending;
mod expiry;
mod hearing;
mod links;
mod owners;
mod renewal;
mod status;
mod staying;

pub use links::LinkSet;
pub use mesh_atoms::Shown;
