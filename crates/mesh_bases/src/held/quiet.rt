//! What an event has left as it was (RFC 7181, section 17).
ghost use Rattle.std.specs.Prelude.{◌≡◌, ◌&&◌, true};

/// What an event has left as it was: the neighbourhood but for moments, and what others advertise.
#[derive(Clone, Copy)]
pub struct Quiet {
    pub near: bool,
    pub advertised: bool,
}

impl Quiet {
    /// Both of them.
    pub(crate) fn both() -> Quiet
        ensures near { result.near ≡ true }
        ensures advertised { result.advertised ≡ true }
    {
        Quiet {
            near: true,
            advertised: true,
        }
    }

    /// What one event after the other has left as it was.
    pub fn and(self, other: Quiet) -> Quiet
        ensures near { result.near ≡ (self.near && other.near) }
        ensures advertised { result.advertised ≡ (self.advertised && other.advertised) }
    {
        Quiet {
            near: self.near & other.near,
            advertised: self.advertised & other.advertised,
        }
    }
}
