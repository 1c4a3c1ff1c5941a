//! Bases of indexed tables.
use crate::index::index_table::IndexTable;
use crate::{Bases, SweptTable};
use mesh_atoms::{
    Addr4, AddressKey, AddressTuple, Advertiser, FloodKey, Link, LinkKey, Lost, Neighbour,
    NetworkKey, NetworkTuple, Noted, RouterKey, RouterTuple, TwoHop, TwoHopKey,
};

/// Bases of indexed tables, and of a swept one for the 2-hop tuples, which are many and go together.
#[derive(Drop)]
pub struct IndexedBases;

impl Bases for IndexedBases {
    type Links = IndexTable<LinkKey, Link>;

    type TwoHops = SweptTable<TwoHopKey, TwoHop>;

    type Neighbours = IndexTable<Addr4, Neighbour>;

    type Losts = IndexTable<Addr4, Lost>;

    type Advertisers = IndexTable<Addr4, Advertiser>;

    type Routers = IndexTable<RouterKey, RouterTuple>;

    type Addresses = IndexTable<AddressKey, AddressTuple>;

    type Networks = IndexTable<NetworkKey, NetworkTuple>;

    type Received = IndexTable<FloodKey, Noted>;

    type Processed = IndexTable<FloodKey, Noted>;

    type Forwarded = IndexTable<FloodKey, Noted>;
}
