//! What follows from the bases of a router at the end of each event, and what the router counts (RFC 7181, sections 16.1, 18 and 19).
ghost use Rattle.std.specs.Prelude.{◌≡◌, OnOk};
ghost use Rattle.mesh_atoms.specs.Advertised.{AreTcRows};
ghost use Rattle.mesh_atoms.specs.State.{State};
ghost use Rattle.mesh_bases.specs.Renewed.{IsAnsnAfter, IsEmptiedAt};

use crate::advertise::advertised_rows;
use mesh_atoms::{Relays, RouterSettings, Seq, TcRow, are_same_rows};
use mesh_nbrs::Near4;
use mesh_routes::RoutingSet;
use std::alloc::{AllocError, Global};

/// Relays, routes, advertised rows with their ANSN and the moment at which they became empty; the sequence number of the next
/// TC; the moments of the next HELLO and TC, and that of the last event. Moments are in ticks of 1/8192 s.
pub struct Derived {
    pub relays: Relays,
    pub routes: RoutingSet,
    pub rows: Seq<TcRow>,
    pub ansn: u16,
    pub emptied: Option<u64>,
    pub sequence: u16,
    pub next_hello: u64,
    pub next_tc: u64,
    pub last: u64,
}

// By hand, so that no crate that lets go of one has to know its parts.
impl Drop for Derived {
    fn drop(self) {
        let Derived {
            relays: _,
            routes: _,
            rows: _,
            ansn: _,
            emptied: _,
            sequence: _,
            next_hello: _,
            next_tc: _,
            last: _,
        } = self;
    }
}

impl Derived {
    // Takes the advertised rows at the end of an event. The ANSN rises where the rows change.
    fn take_rows(&mut self, now: u64, rows: Seq<TcRow>)
        ensures rows { self.new.rows ≡ rows }
        ensures ansn { IsAnsnAfter self.old self.new }
        ensures emptied { IsEmptiedAt now self.old self.new }
        ensures others { self.new ≡ record self.old { rows = self.new.rows; ansn = self.new.ansn; emptied = self.new.emptied } }
    {
        if !are_same_rows(rows.as_slice(), self.rows.as_slice()) {
            self.ansn = self.ansn.wrapping_add(1);
        }
        if rows.len() == 0 && self.rows.len() != 0 {
            self.emptied = Some(now);
        }
        self.rows = rows;
    }

    /// Renews the advertised rows at the end of an event at `now` (RFC 7181, section 16.1): the ANSN rises where they change.
    pub fn renew_rows<N: Near4>(
        &mut self,
        alloc: Global,
        near: &N,
        settings: &RouterSettings,
        now: u64,
    ) -> Result<(), AllocError>
        ensures rows { OnOk result ((s : State) → s.settings ≡ settings.now → s.bases.neighbourhood ≡ N.near near.now → AreTcRows s self.new.rows) }
        ensures ansn { OnOk result (IsAnsnAfter self.old self.new) }
        ensures emptied { OnOk result (IsEmptiedAt now self.old self.new) }
        ensures others { self.new ≡ record self.old { rows = self.new.rows; ansn = self.new.ansn; emptied = self.new.emptied } }
    {
        let rows = advertised_rows(alloc, near, settings)?;
        self.take_rows(now, rows);
        Ok(())
    }
}
