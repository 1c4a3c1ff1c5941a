//! What is seen of a router.
use mesh_atoms::{Addr4, Advertiser, NetAddr, Relays, Route};
use mesh_core::RouterView;
use mesh_expire::Table;
use mesh_flood::Heading;

/// What a router holds: the moments of its last event and of the next one that is due; how many links and 2-hop tuples of its first
/// interface, neighbours and lost addresses; how many advertisers, router, address and network tuples; and its ANSN.
#[derive(Clone, Copy, PartialEq, Eq)]
pub(crate) struct Held {
    pub(crate) last: u64,
    pub(crate) due: u64,
    pub(crate) near: [usize; 4],
    pub(crate) far: [usize; 4],
    pub(crate) ansn: u16,
}

/// Nothing, and nothing happened.
pub(crate) const EMPTY: Held = Held {
    last: 0,
    due: 0,
    near: [0, 0, 0, 0],
    far: [0, 0, 0, 0],
    ansn: 0,
};

/// What is seen beside the view of a router: whether it is spent, the moments of its last event and of the next one that is due, how many
/// advertisers it has, of 10.9.9.9 the number that is kept and until when, and its own ANSN.
#[derive(Clone, Copy)]
pub(crate) struct Beside {
    pub(crate) spent: bool,
    pub(crate) last: u64,
    pub(crate) due: u64,
    pub(crate) advertisers: usize,
    pub(crate) kept: Option<(u16, u64)>,
    pub(crate) ansn: u16,
}

/// The number that is kept of an originator, and until when.
pub(crate) fn kept_of<T: Table<Addr4, Advertiser>>(
    advertisers: &T,
    originator: u32,
) -> Option<(u16, u64)> {
    match advertisers.get(&Addr4(originator)) {
        Some((advertiser, until)) => Some((advertiser.ansn, until)),
        None => None,
    }
}

fn held_by<V: RouterView>(view: &V, beside: &Beside) -> Held {
    Held {
        last: beside.last,
        due: beside.due,
        near: [
            view.links(0),
            view.two_hops(0),
            view.neighbours(),
            view.losts(),
        ],
        far: [
            beside.advertisers,
            view.routers(),
            view.addresses(),
            view.networks(),
        ],
        ansn: beside.ansn,
    }
}

/// Whether the one router is the only relay, for flooding on the first interface and for routing; or whether there is none.
fn are_relays(relays: &Relays, wanted: &[Addr4]) -> bool {
    match relays.flooding.get(0) {
        Some(flooding) => flooding.as_slice() == wanted && relays.routing.as_slice() == wanted,
        None => false,
    }
}

/// A route on the first interface: the address and the prefix length of where it leads, the cost, the next address, and the address of
/// the node before the last.
pub(crate) type RouteHas = (u32, u8, u64, u32, u32);

fn is_route(route: &Route, want: RouteHas) -> bool {
    let parent = NetAddr {
        addr: Addr4(want.4),
        prefix: 32,
    };
    route.dest.addr == Addr4(want.0)
        && route.dest.prefix == want.1
        && route.metric == want.2
        && route.next == Addr4(want.3)
        && route.iface == 0
        && route.parent == parent
}

fn are_routes(routes: &[Route], wanted: &[RouteHas]) -> bool {
    if routes.len() != wanted.len() {
        return false;
    }
    for place in 0..routes.len() {
        if !is_route(&routes[place], wanted[place]) {
            return false;
        }
    }
    true
}

#[derive(Clone, Copy)]
pub(crate) enum Look {
    Spent(bool),
    Holds(Held),
    // of 10.9.9.9: the number, and until when
    Kept(Option<(u16, u64)>),
    // for flooding on the first interface, and for routing
    Relays(&'static [Addr4]),
    Routes(&'static [RouteHas]),
    // whether the message was noted
    Noted(Heading, bool),
    // whether a set of messages is full
    Full(bool),
}

/// Whether a router is as it must look.
pub(crate) fn shows<V: RouterView>(view: &V, beside: &Beside, look: &Look) -> bool {
    match *look {
        Look::Spent(want) => beside.spent == want,
        Look::Holds(want) => held_by(view, beside) == want,
        Look::Kept(want) => beside.kept == want,
        Look::Relays(want) => are_relays(view.relays(), want),
        Look::Routes(want) => are_routes(view.routes(), want),
        Look::Noted(heading, want) => view.has_noted(&heading) == want,
        Look::Full(want) => view.has_full_set() == want,
    }
}
