//! The status of a link, and what is said of it.
ghost use Rattle.std.specs.Prelude.{◌≡◌};
ghost use Rattle.mesh_atoms.specs.Hello.{status_said};
ghost use Rattle.mesh_atoms.specs.State.{state_of};

use crate::{Link, LinkState, LinkStatus};

impl Link {
    /// The status of the link at that moment, in ticks of 1/8192 s (RFC 6130, section 7.1).
    pub fn state(&self, now: u64) -> LinkState
        ensures { result ≡ state_of self.now now }
    {
        if self.pending {
            LinkState::Pending
        } else if self.lost {
            LinkState::Lost
        } else if now < self.sym {
            LinkState::Symmetric
        } else if now < self.heard {
            LinkState::Heard
        } else {
            LinkState::Lost
        }
    }

    /// The LINK_STATUS that is said of the link at that moment, in ticks of 1/8192 s; `None` where it is PENDING (RFC 6130,
    /// section 7.1).
    pub fn status(&self, now: u64) -> Option<LinkStatus>
        ensures { result ≡ status_said (state_of self.now now) }
    {
        match self.state(now) {
            LinkState::Pending => None,
            LinkState::Lost => Some(LinkStatus::Lost),
            LinkState::Symmetric => Some(LinkStatus::Symmetric),
            LinkState::Heard => Some(LinkStatus::Heard),
        }
    }
}
