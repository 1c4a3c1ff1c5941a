//! What is told of a data packet at the end of a run.
ghost use Rattle.std.specs.Prelude.{◌≤◌, ◌<◌, length, map, OnOk, IfSome};
ghost use Rattle.mesh_atoms.specs.Settled.{AreStates};
ghost use Rattle.mesh_emulate.specs.Parts.{MakesWanted, IsTripText};
ghost use Rattle.mesh_io.specs.Pieces.{PutsPieces};

use crate::wanted::Departure;
use crate::writing::write_put;
use mesh_atoms::{Bytes, Scenario};
use mesh_data::{send, trip_text};
use mesh_io::{Sink, Stop};
use mesh_radio::RouterView;
use std::alloc::{AllocError, Global};

// Puts the trip of a packet, in place of what was there.
fn put_trip<R: RouterView>(
    alloc: Global,
    routers: &[R],
    scenario: &Scenario,
    departure: Departure,
    text: &mut Bytes,
) -> Result<(), AllocError>
    requires states { AreStates scenario.now (map R.state routers.now) }
    requires from { departure.from < length scenario.now.routers }
    ensures { OnOk result (IsTripText scenario.now (map R.state routers.now) departure text.new) }
{
    let trip = send(alloc, routers, scenario, departure.from, departure.dest)?;
    *text = trip_text(alloc, scenario, departure.from, departure.dest, &trip)?;
    Ok(())
}

/// Writes the trip of the packet that is sent; nothing where none is.
pub fn tell_trip<R: RouterView, O: Sink>(
    alloc: Global,
    routers: &[R],
    scenario: &Scenario,
    send: Option<Departure>,
    text: &mut Bytes,
    out: &mut O,
) -> Result<(), Stop>
    requires states { AreStates scenario.now (map R.state routers.now) }
    requires from { IfSome send (λ departure. departure.from < length scenario.now.routers) }
    ensures leaves { PutsPieces (MakesWanted (IsTripText scenario.now (map R.state routers.now)) send)
        (O.content out.old) (O.content out.new) (O.faults out.old) (O.faults out.new) result }
    ensures later { O.faults out.old ≤ O.faults out.new }
{
    match send {
        None => Ok(()),
        Some(departure) => {
            let put = put_trip(alloc, routers, scenario, departure, text);
            write_put(put, text, out)
        }
    }
}
