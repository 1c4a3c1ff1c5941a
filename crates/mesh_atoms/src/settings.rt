//! The settings of a router, and the scenario of a network.
ghost use Rattle.std.specs.Prelude.{◌≡◌, ◌≤◌, ◌<◌, ◌^◌, length, map, IsTrue, IfOk};
ghost use Rattle.std.specs.Option.{ForSome};
ghost use Rattle.std.specs.List.{flat_map, list_all};
ghost use Rattle.mesh_atoms.specs.declared.limits.TheConstants.{MOST_TC_ROWS};
ghost use Rattle.mesh_atoms.specs.Base.{addr_eq};
ghost use Rattle.mesh_atoms.specs.Settings.{are_distinct, are_ascending, one_millisecond, one_hour, longest_delay, IsTimes, IsEnd, IsInterface, IsRouter, IsCount, IsNearHold, are_senders, AreRouters, AreArcs};

use crate::{Addr4, Admit, Bytes, Endpoint, MOST_TC_ROWS, Metric, NetAddr, Seq, Willing};
use std::alloc::AllocError;

/// The intervals and hold times of a router, in ticks of 1/8192 s, each from 820 (100 ms) to 29,491,200 (an hour)
/// (RFC 7181, section 5, and RFC 6130, section 5), and the hop limit of its TCs, at least 1.
#[derive(Clone, Copy)]
pub struct Times {
    /// Between two HELLOs.
    pub hello: u64,
    /// The validity of a HELLO.
    pub hold: u64,
    /// For which a link that is not heard any more is told as lost.
    pub link_hold: u64,
    /// For which a lost neighbour's address is told as lost.
    pub neighbour_hold: u64,
    /// Between two TCs.
    pub tc: u64,
    /// The validity of a TC.
    pub topology_hold: u64,
    /// For which TCs without rows are sent.
    pub advertised_hold: u64,
    pub received_hold: u64,
    pub processed_hold: u64,
    pub forwarded_hold: u64,
    pub tc_hop_limit: u8,
    pub ghost sound: { IsTimes hello hold link_hold neighbour_hold tc topology_hold advertised_hold received_hold processed_hold forwarded_hold tc_hop_limit },
}

/// The times that stand where a setting says no other: a HELLO every 2 s with a validity of 6 s, a TC every 5 s with one of
/// 15 s, and messages seen before held for 30 s (RFC 6130, section 5, and RFC 7181, section 5.4).
pub const DEFAULT_TIMES: Times = Times {
    hello: 16384,
    hold: 49152,
    link_hold: 49152,
    neighbour_hold: 49152,
    tc: 40960,
    topology_hold: 122880,
    advertised_hold: 122880,
    received_hold: 245760,
    processed_hold: 245760,
    forwarded_hold: 245760,
    tc_hop_limit: 255,
};

/// The most rows of a TC where a setting says no other number: all that a router advertises.
pub const DEFAULT_TC_ROWS: usize = MOST_TC_ROWS;

/// The metric of what is received from a sender other than 0.0.0.0.
#[derive(Clone, Copy)]
pub struct SenderMetric {
    pub sender: Addr4,
    pub metric: Metric,
    pub ghost addressed: { 0 < sender.0 },
}

/// An interface of a router: its name of 1 to 16 lower case letters and digits, its 1 to 4 addresses other than 0.0.0.0,
/// the metric of what it receives: that of the sender where there is one, else its own; and which of its links are admitted, by
/// the qualities of the same senders. No sender stands twice.
pub struct Interface {
    pub name: Bytes,
    pub addrs: Seq<Addr4>,
    pub metric: Metric,
    pub senders: Seq<SenderMetric>,
    pub admit: Admit,
    pub ghost sound: { IsInterface name addrs },
    pub ghost few_senders: { length senders ≤ 4096 },
    pub ghost distinct_senders: { IsTrue (are_distinct addr_eq (map (λ s. s.sender) senders)) },
    pub ghost same_senders: { map (λ s. s.sender) admit.senders ≡ map (λ s. s.sender) senders },
}

// By hand, so that no crate that lets go of one has to know its parts.
impl Drop for Interface {
    fn drop(self) {
        let Interface {
            name: _,
            addrs: _,
            metric: _,
            senders: _,
            admit: _,
        } = self;
    }
}

impl Interface {
    /// An equal interface.
    pub fn copy(&self) -> Result<Interface, AllocError>
        ensures { IfOk result (λ copy. copy ≡ self.now) }
    {
        Ok(Interface {
            name: self.name.copy()?,
            addrs: self.addrs.copy()?,
            metric: self.metric,
            senders: self.senders.copy()?,
            admit: self.admit.copy()?,
        })
    }
}

/// A network behind a router (RFC 7181, section 7.2), at this distance in hops.
#[derive(Clone, Copy)]
pub struct Attached4 {
    pub net: NetAddr,
    pub metric: Metric,
    pub distance: u8,
}

/// Routers up to so many hops away, from 1 to 254, are to hold what a TC says for this time, in ticks of 1/8192 s from 820
/// (100 ms) to 29,491,200 (an hour) (RFC 5497, section 6).
#[derive(Clone, Copy)]
pub struct NearHold {
    pub hops: u8,
    pub hold: u64,
    pub ghost in_range: { IsNearHold hops hold },
}

/// The settings of a router: its name, its 1 to 8 interfaces, whose names and addresses are distinct, and at most 64
/// distinct networks that it attaches, none of them one of its addresses. The moments of its first HELLO and its first
/// TC are in ticks of 1/8192 s, up to 29,491,200 (an hour). A TC of it has at most `tc_rows` rows, from 1 to 1,088, and near
/// routers hold it for other times than far ones: at most 8 near holds, in order of their hops, no two at one number.
pub struct RouterSettings {
    pub name: Bytes,
    pub willing: Willing,
    pub hello_at: u64,
    pub tc_at: u64,
    pub times: Times,
    pub interfaces: Seq<Interface>,
    pub attached: Seq<Attached4>,
    pub tc_rows: usize,
    pub near_hold: Seq<NearHold>,
    pub ghost sound: { IsRouter name hello_at tc_at (map (λ i. i.name) interfaces) (flat_map (λ i. i.addrs) interfaces) (map (λ a. a.net) attached) },
    pub ghost rows_in_range: { IsCount 1 MOST_TC_ROWS tc_rows },
    pub ghost few_near_holds: { length near_hold ≤ 8 },
    pub ghost near_holds_in_order: { IsTrue (are_ascending (map (λ n. n.hops) near_hold)) },
}

// By hand, so that no crate that lets go of one has to know its parts.
impl Drop for RouterSettings {
    fn drop(self) {
        let RouterSettings {
            name: _,
            willing: _,
            hello_at: _,
            tc_at: _,
            times: _,
            interfaces: _,
            attached: _,
            tc_rows: _,
            near_hold: _,
        } = self;
    }
}

impl RouterSettings {
    /// Equal settings.
    pub fn copy(&self) -> Result<RouterSettings, AllocError>
        ensures { IfOk result (λ copy. copy ≡ self.now) }
    {
        let name = self.name.copy()?;
        let interfaces = copy_interfaces(&self.interfaces)?;
        let attached = self.attached.copy()?;
        let near_hold = self.near_hold.copy()?;
        Ok(RouterSettings {
            name,
            willing: self.willing,
            hello_at: self.hello_at,
            tc_at: self.tc_at,
            times: self.times,
            interfaces,
            attached,
            tc_rows: self.tc_rows,
            near_hold,
        })
    }
}

fn copy_interfaces(interfaces: &Seq<Interface>) -> Result<Seq<Interface>, AllocError>
    ensures { IfOk result (λ copy. copy ≡ interfaces.now) }
{
    let mut copies = Seq::new(interfaces.allocator());
    for interface in interfaces.as_slice() {
        copies.push(interface.copy()?)?;
    }
    Ok(copies)
}

/// Where an interface of a running router receives, and where it sends to: at most 64 peers.
#[derive(Drop)]
pub struct Port {
    pub local: Endpoint,
    pub peers: Seq<Endpoint>,
    pub ghost few: { length peers ≤ 64 },
}

/// A router that runs up to a moment from 9 (1 ms) to 29,491,200 (an hour), in ticks of 1/8192 s, with one port for each
/// interface. Each interface has metrics of at most 1,024 senders, which are distinct.
#[derive(Drop)]
pub struct RunSetup {
    pub end: u64,
    pub router: RouterSettings,
    pub ports: Seq<Port>,
    pub ghost end_in_range: { IsEnd end },
    pub ghost sound_senders: { IsTrue (list_all are_senders (map (λ i. map (λ s. s.sender) i.senders) router.interfaces)) },
    pub ghost ports_of_interfaces: { length ports ≡ length router.interfaces },
}

/// A radio arc from one interface to another, routers and interfaces being numbered from 0: its metric, the frames that
/// are lost on it among a thousand, and its delay from 9 (1 ms) to 8192 (1 s) in ticks of 1/8192 s.
#[derive(Clone, Copy)]
pub struct RadioArc {
    pub from: usize,
    pub from_iface: usize,
    pub to: usize,
    pub to_iface: usize,
    pub metric: Metric,
    pub loss: u16,
    pub delay: u64,
    pub ghost lost_of_thousand: { loss ≤ 1000 },
    pub ghost delayed: { one_millisecond ≤ delay },
    pub ghost delayed_up_to: { delay ≤ longest_delay },
}

/// A network of 1 to 64 routers, whose names and addresses are distinct, and no attached network of which is a router's
/// address, and of at most 4,096 radio arcs between interfaces of two different routers, no pair of which is joined
/// twice. Its moments are in ticks of 1/8192 s: the end from 9 (1 ms) to 29,491,200 (an hour), and that before which
/// frames may be lost, up to 29,491,200. The seed is below 2^63.
#[derive(Drop)]
pub struct Scenario {
    pub end: u64,
    pub seed: u64,
    pub loss_until: Option<u64>,
    pub routers: Seq<RouterSettings>,
    pub arcs: Seq<RadioArc>,
    pub ghost end_in_range: { IsEnd end },
    pub ghost seed_in_range: { seed < 2 ^ 63 },
    pub ghost loss_in_range: { ForSome loss_until (λ moment. moment ≤ one_hour) },
    pub ghost sound_routers: { AreRouters (map (λ r. r.name) routers) (flat_map (λ r. flat_map (λ i. i.addrs) r.interfaces) routers) (flat_map (λ r. map (λ a. a.net) r.attached) routers) },
    pub ghost sound_arcs: { AreArcs (map (λ r. length r.interfaces) routers) (map (λ a. record { from = a.from; from_iface = a.from_iface; to = a.to; to_iface = a.to_iface }) arcs) },
}
