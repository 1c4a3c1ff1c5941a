//! What is wanted of an emulation, by names and by numbers.
ghost use Rattle.std.specs.Option.{option_copied};
ghost use Rattle.std.specs.Prelude.{◌≡◌, ℕ, codes, option_map, IfOk, IfErr, IfSome, IfNone};
ghost use Rattle.mesh_atoms.specs.Settings.{name_eq};
ghost use Rattle.mesh_emulate.specs.Wants.{HasName, IsNamed, packet_of, wants_of, Agree, Departs, IsErrand};
ghost use Rattle.mesh_emulate.specs.Wants.{IsUnknownName, NamesUnknown, start_of, FirstUnknown};
ghost use Rattle.mesh_config.specs.Keys.Faults.{IfSettingRefused};

use mesh_atoms::{Addr4, RouterSettings, Scenario};
use mesh_config::refusal::UNKNOWN_NAME;
use mesh_config::{ConfigFault, refused};
use std::alloc::Global;

/// A data packet: from the router of that name, to that address.
#[derive(Clone, Copy)]
pub struct NamedPacket<'a> {
    pub from: &'a [u8],
    pub dest: Addr4,
}

/// What is wanted of an emulation beside its summary: each event as it is done, the trip of a packet at the end, and the probe of the
/// network by the router of that name.
#[derive(Clone, Copy)]
pub struct Wanted<'a> {
    pub trace: bool,
    pub send: Option<NamedPacket<'a>>,
    pub probe: Option<&'a [u8]>,
}

/// A data packet from a router of a scenario, by its number there.
#[derive(Clone, Copy)]
pub struct Departure {
    pub from: usize,
    pub dest: Addr4,
}

/// What is wanted, by numbers.
#[derive(Clone, Copy)]
pub struct Errand {
    pub trace: bool,
    pub send: Option<Departure>,
    pub probe: Option<usize>,
}

fn has_name(router: &RouterSettings, name: &[u8]) -> bool
    ensures { result ≡ name_eq name.now router.now.name }
{
    name == router.name.as_slice()
}

// The number of a router of that name.
fn router_named(routers: &[RouterSettings], name: &[u8]) -> Option<usize>
    ensures some { IfSome result (HasName routers.now name.now) }
    ensures none { IfNone result ((x : ℕ) → HasName routers.now name.now x → ⊥) }
{
    for x in 0..routers.len() {
        if has_name(&routers[x], name) {
            return Some(x);
        }
    }
    None
}

// The number of the router of that name, or the refusal of a name that no router has, by the option's name.
fn number_named(
    alloc: Global,
    scenario: &Scenario,
    name: &[u8],
    option: &str,
) -> Result<usize, ConfigFault>
    ensures found { IfOk result (IsNamed scenario.now name.now) }
    ensures unknown { IfErr result (IfSettingRefused (IsUnknownName scenario.now name.now option.now)) }
{
    match router_named(scenario.routers.as_slice(), name) {
        Some(x) => Ok(x),
        None => Err(refused(alloc, UNKNOWN_NAME, option)),
    }
}

// The packet by the number of its router.
fn departure_of(
    alloc: Global,
    scenario: &Scenario,
    send: &Option<NamedPacket>,
) -> Result<Option<Departure>, ConfigFault>
    ensures found { IfOk result (Agree (Departs scenario.now) (option_map packet_of send.now)) }
    ensures unknown { IfErr result (IfSettingRefused (NamesUnknown scenario.now (start_of (option_map packet_of send.now)) (codes "send"))) }
{
    match send {
        None => Ok(None),
        Some(packet) => match number_named(alloc, scenario, packet.from, "send") {
            Ok(from) => Ok(Some(Departure {
                from,
                dest: packet.dest,
            })),
            Err(fault) => Err(fault),
        },
    }
}

// The router that probes the network, by its number.
fn origin_of(
    alloc: Global,
    scenario: &Scenario,
    probe: Option<&[u8]>,
) -> Result<Option<usize>, ConfigFault>
    ensures found { IfOk result (Agree (IsNamed scenario.now) (option_copied probe.entry)) }
    ensures unknown { IfErr result (IfSettingRefused (NamesUnknown scenario.now (option_copied probe.entry) (codes "probe"))) }
{
    match probe {
        None => Ok(None),
        Some(name) => match number_named(alloc, scenario, name, "probe") {
            Ok(origin) => Ok(Some(origin)),
            Err(fault) => Err(fault),
        },
    }
}

/// What is wanted, by numbers of the scenario's routers, or the refusal of the first name that no router has.
pub fn errand_of(alloc: Global, scenario: &Scenario, wanted: &Wanted) -> Result<Errand, ConfigFault>
    ensures found { IfOk result (IsErrand scenario.now (wants_of wanted.now)) }
    ensures unknown { IfErr result (IfSettingRefused (FirstUnknown scenario.now (wants_of wanted.now))) }
{
    let send = match departure_of(alloc, scenario, &wanted.send) {
        Ok(send) => send,
        Err(fault) => return Err(fault),
    };
    match origin_of(alloc, scenario, wanted.probe) {
        Ok(probe) => Ok(Errand {
            trace: wanted.trace,
            send,
            probe,
        }),
        Err(fault) => Err(fault),
    }
}
