//! The rows that a router's own TCs tell (RFC 7181, section 16.1).
ghost use Rattle.std.specs.Prelude.{◌≡◌, ◌∷◌, [], map, flat_map, Some, false, true, IfOk, OnOk, IsTrue};
ghost use Rattle.std.specs.BTreeMap.{get, IsOrdered};
ghost use Rattle.mesh_atoms.specs.Advertised.{AreRowsBy, AreTcRows};
ghost use Rattle.mesh_atoms.specs.Base.{net_eq};
ghost use Rattle.mesh_atoms.specs.Settings.{are_distinct};
ghost use Rattle.mesh_atoms.specs.State.{State};
ghost use Rattle.mesh_atoms.specs.Nodes.{net_cmp};
ghost use Rattle.mesh_topo.specs.Advertised.Offers.{lesser, put_offer, of_selector, of_network, of_address, row_of, KeepsWithOffers};
ghost use Rattle.mesh_topo.specs.Advertised.Selectors.{AreSelectors, SelectorGives};

use mesh_atoms::{Addr4, Attached4, Metric, NetAddr, Seq, TcRow, host};
use std::alloc::{AllocError, Global};
use std::collections::BTreeMap;

/// A symmetric neighbour that has chosen this router as a routing relay, with its addresses and the metric to it.
#[derive(Drop)]
pub struct Selector {
    pub originator: Addr4,
    pub addrs: Seq<Addr4>,
    pub metric: Metric,
}

/// What a row says beside its address.
#[derive(Clone, Copy, PartialEq, Eq)]
pub(crate) struct Offer {
    pub origin: bool,
    /// The distance of an attached network; none for an address.
    pub gateway: Option<u8>,
    pub metric: Metric,
}

/// The rows by these selectors and attached networks, which must be distinct: each address and originator of a selector,
/// at the least metric of the selectors that have it; and each network that is no such address, with its distance and
/// metric. Rows are in ascending order. Refuses only where an allocation fails. Takes time
/// n log n for n addresses and networks.
pub fn tc_rows(
    alloc: Global,
    selectors: &[Selector],
    attached: &[Attached4],
) -> Result<Seq<TcRow>, AllocError>
    requires { IsTrue (are_distinct net_eq (map (λ a. a.net) attached.now)) }
    ensures exact { IfOk result (AreRowsBy (SelectorGives selectors.now) attached.now) }
    // They are what a router advertises that has these selectors and attaches these networks.
    ensures rows { IfOk result (λ rows. (s : State) → AreSelectors s selectors.now → s.settings.attached ≡ attached.now → AreTcRows s rows) }
{
    let mut offers = BTreeMap::new(alloc);
    put_selectors(&mut offers, selectors)?;
    put_networks(&mut offers, attached)?;
    let rows = in_order(alloc, &offers)?;
    Ok(rows)
}

// The metric of the lesser cost.
fn lesser(a: Metric, b: Metric) -> Metric
    ensures { result ≡ lesser a b }
{
    if b.code < a.code { b } else { a }
}

// What is offered of a node that had an offer: a network gives way.
fn merged(old: Offer, new: Offer) -> Offer
    ensures { result ≡ put_offer (Some old) new }
{
    if new.gateway.is_some() {
        return old;
    }
    Offer {
        origin: old.origin || new.origin,
        gateway: old.gateway,
        metric: lesser(old.metric, new.metric),
    }
}

// What is offered of a node with one offer more.
fn offer_with(offers: &BTreeMap<NetAddr, Offer>, net: NetAddr, offer: Offer) -> Offer
    ensures { result ≡ put_offer (get net_cmp offers.now net) offer }
{
    match offers.get(&net) {
        Some(old) => merged(*old, offer),
        None => offer,
    }
}

// Puts one offer.
fn put(offers: &mut BTreeMap<NetAddr, Offer>, net: NetAddr, offer: Offer) -> Result<(), AllocError>
    ensures { OnOk result (KeepsWithOffers offers.old ((net, offer) ∷ []) offers.new) }
{
    let offer = offer_with(offers, net, offer);
    offers.insert(net, offer)?;
    Ok(())
}

// Puts an address of a selector.
fn put_address(
    offers: &mut BTreeMap<NetAddr, Offer>,
    addr: Addr4,
    origin: bool,
    metric: Metric,
) -> Result<(), AllocError>
    ensures { OnOk result (KeepsWithOffers offers.old (of_address origin metric addr ∷ []) offers.new) }
{
    let offer = Offer {
        origin,
        gateway: None,
        metric,
    };
    put(offers, host(addr), offer)
}

// Puts addresses of a selector.
fn put_addresses(
    offers: &mut BTreeMap<NetAddr, Offer>,
    addrs: &[Addr4],
    metric: Metric,
) -> Result<(), AllocError>
    ensures { OnOk result (KeepsWithOffers offers.old (map (of_address false metric) addrs.now) offers.new) }
{
    for i in 0..addrs.len() {
        put_address(offers, addrs[i], false, metric)?;
    }
    Ok(())
}

// Puts the originator and the addresses of a selector.
fn put_selector(
    offers: &mut BTreeMap<NetAddr, Offer>,
    selector: &Selector,
) -> Result<(), AllocError>
    ensures { OnOk result (KeepsWithOffers offers.old (of_selector selector.now) offers.new) }
{
    put_address(offers, selector.originator, true, selector.metric)?;
    put_addresses(offers, selector.addrs.as_slice(), selector.metric)?;
    Ok(())
}

// Puts all selectors.
fn put_selectors(
    offers: &mut BTreeMap<NetAddr, Offer>,
    selectors: &[Selector],
) -> Result<(), AllocError>
    ensures { OnOk result (KeepsWithOffers offers.old (flat_map of_selector selectors.now) offers.new) }
{
    for i in 0..selectors.len() {
        put_selector(offers, &selectors[i])?;
    }
    Ok(())
}

// Puts an attached network.
fn put_network(offers: &mut BTreeMap<NetAddr, Offer>, attached: Attached4) -> Result<(), AllocError>
    ensures { OnOk result (KeepsWithOffers offers.old (of_network attached ∷ []) offers.new) }
{
    let offer = Offer {
        origin: false,
        gateway: Some(attached.distance),
        metric: attached.metric,
    };
    put(offers, attached.net, offer)
}

// Puts all attached networks.
fn put_networks(
    offers: &mut BTreeMap<NetAddr, Offer>,
    attached: &[Attached4],
) -> Result<(), AllocError>
    ensures { OnOk result (KeepsWithOffers offers.old (map of_network attached.now) offers.new) }
{
    for i in 0..attached.len() {
        put_network(offers, attached[i])?;
    }
    Ok(())
}

// The row of a node.
fn row_of(net: NetAddr, offer: Offer) -> TcRow
    ensures { result ≡ row_of (net, offer) }
{
    TcRow {
        dest: net,
        origin: offer.origin,
        routable: offer.gateway.is_none(),
        gateway: offer.gateway,
        metric: Some(offer.metric),
    }
}

// The rows of all nodes, in their order.
fn in_order(alloc: Global, offers: &BTreeMap<NetAddr, Offer>) -> Result<Seq<TcRow>, AllocError>
    ensures all { IfOk result (λ rows. rows ≡ map row_of offers.now.entries) }
    ensures ordered { IfOk result (λ rows. IsOrdered net_cmp offers.now) }
{
    let mut rows = Seq::new(alloc);
    for (net, offer) in offers.iter() {
        rows.push(row_of(*net, *offer))?;
    }
    Ok(rows)
}
