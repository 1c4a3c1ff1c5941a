//! A way to make a scenario.

/// A way to make a scenario: routers in rows and columns, in a ring, or joined by draws.
#[derive(Clone, Copy)]
pub enum Kind {
    Grid,
    Ring,
    Random,
}
