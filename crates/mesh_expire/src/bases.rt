//! Which table each kind of tuple stands in.
use crate::list_table::ListTable;
use crate::no_table::NoTable;
use crate::table::{PlacedTable, Table};
use mesh_atoms::{
    Addr4, AddressKey, AddressTuple, Advertiser, FloodKey, Link, LinkKey, Lost, Neighbour,
    NetworkKey, NetworkTuple, Noted, RouterKey, RouterTuple, TwoHop, TwoHopKey,
};

/// The tables of a router's information bases, one type for each kind of tuple (RFC 6130, sections 7 and 8, and RFC 7181,
/// sections 8 to 11).
pub trait Bases {
    /// Of one interface.
    type Links: Table<LinkKey, Link>;

    /// Of one interface.
    type TwoHops: PlacedTable<TwoHopKey, TwoHop>;

    /// By the originator.
    type Neighbours: Table<Addr4, Neighbour>;

    /// By the address that is lost.
    type Losts: Table<Addr4, Lost>;

    /// By the originator.
    type Advertisers: Table<Addr4, Advertiser>;

    type Routers: Table<RouterKey, RouterTuple>;

    type Addresses: Table<AddressKey, AddressTuple>;

    type Networks: Table<NetworkKey, NetworkTuple>;

    /// Of one interface.
    type Received: Table<FloodKey, Noted>;

    type Processed: Table<FloodKey, Noted>;

    type Forwarded: Table<FloodKey, Noted>;
}

/// Bases of plain lists.
#[derive(Drop)]
pub struct PlainBases;

impl Bases for PlainBases {
    type Links = ListTable<LinkKey, Link>;

    type TwoHops = ListTable<TwoHopKey, TwoHop>;

    type Neighbours = ListTable<Addr4, Neighbour>;

    type Losts = ListTable<Addr4, Lost>;

    type Advertisers = ListTable<Addr4, Advertiser>;

    type Routers = ListTable<RouterKey, RouterTuple>;

    type Addresses = ListTable<AddressKey, AddressTuple>;

    type Networks = ListTable<NetworkKey, NetworkTuple>;

    type Received = ListTable<FloodKey, Noted>;

    type Processed = ListTable<FloodKey, Noted>;

    type Forwarded = ListTable<FloodKey, Noted>;
}

/// Bases that hold nothing, and answer with an allocation failure to each tuple that is put in.
#[derive(Drop)]
pub struct NoBases;

impl Bases for NoBases {
    type Links = NoTable;

    type TwoHops = NoTable;

    type Neighbours = NoTable;

    type Losts = NoTable;

    type Advertisers = NoTable;

    type Routers = NoTable;

    type Addresses = NoTable;

    type Networks = NoTable;

    type Received = NoTable;

    type Processed = NoTable;

    type Forwarded = NoTable;
}
