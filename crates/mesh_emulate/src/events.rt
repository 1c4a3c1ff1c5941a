//! The events of a network up to its end, with the text of each as it is done, or without.
ghost use Rattle.std.specs.Prelude.{◌≡◌, ◌≤◌, true, OnOk};
ghost use Rattle.mesh_emulate.specs.Parts.{IsLastEvent, EventsMake};
ghost use Rattle.mesh_io.specs.Pieces.{PutsPieces};
ghost use Rattle.mesh_texts.specs.Runs.{IsTraced};

use crate::network::Network;
use crate::writing::write_put;
use mesh_atoms::{Bytes, Scenario};
use mesh_io::{Sink, Stop};
use mesh_radio::NetEvent;
use mesh_texts::put_event;
use std::alloc::AllocError;

// Puts the text of the event after which the network is this, in place of what was there.
fn put_text<N: Network>(
    net: &N,
    scenario: &Scenario,
    event: &NetEvent,
    text: &mut Bytes,
) -> Result<(), AllocError>
    requires { IsLastEvent scenario.now (N.net net.now) event.now }
    ensures { OnOk result (IsTraced (N.net net.now) event.now text.new) }
{
    let routers = net.routers();
    text.clear();
    put_event(text, scenario, event, &routers[event.router])
}

// Does all events that are left, and writes the text of each as it is done.
fn trace_events<N: Network, O: Sink>(
    net: &mut N,
    scenario: &Scenario,
    text: &mut Bytes,
    out: &mut O,
) -> Result<(), Stop>
    requires { (N.net net.old).scenario ≡ scenario.now }
    ensures leaves { PutsPieces (EventsMake true (N.net net.old) (N.net net.new))
        (O.content out.old) (O.content out.new) (O.faults out.old) (O.faults out.new) result }
    ensures later { O.faults out.old ≤ O.faults out.new }
{
    'events: for _ in 0..u64::MAX {
        let event = match net.step() {
            Ok(Some(event)) => event,
            Ok(None) => return Ok(()),
            Err(_) => return Err(Stop::Memory),
        };
        let put = put_text(net, scenario, &event, text);
        match write_put(put, text, out) {
            Ok(()) => {}
            Err(stop) => return Err(stop),
        }
    }
    Err(Stop::Memory)
}

/// Does all events that are left, and with `trace` writes the text of each as it is done.
pub fn tell_events<N: Network, O: Sink>(
    net: &mut N,
    scenario: &Scenario,
    trace: bool,
    text: &mut Bytes,
    out: &mut O,
) -> Result<(), Stop>
    requires { (N.net net.old).scenario ≡ scenario.now }
    ensures leaves { PutsPieces (EventsMake trace (N.net net.old) (N.net net.new))
        (O.content out.old) (O.content out.new) (O.faults out.old) (O.faults out.new) result }
    ensures later { O.faults out.old ≤ O.faults out.new }
{
    if trace {
        return trace_events(net, scenario, text, out);
    }
    match net.run_until_end() {
        Ok(()) => Ok(()),
        Err(_) => Err(Stop::Memory),
    }
}
