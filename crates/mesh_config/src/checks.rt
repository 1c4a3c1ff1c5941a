//! What must hold of several tables of settings together: nothing stands twice, and arcs name interfaces that are there.

mod checks;
mod distinct;
mod joins;

pub use crate::checks::checks::{no_duplicates, refuse_duplicates};
pub use crate::checks::distinct::{Compared, are_distinct};
pub use crate::checks::joins::all_joined;
