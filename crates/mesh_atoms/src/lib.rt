//! The base that every crate stands on: lists of octets and of values, refusals, addresses, metrics, messages as typed
//! values, the tuples of the information bases, settings, and the graphs of relays and routes.
#![tactic(auto)]

mod addr;
mod addresses;
mod admit;
mod agreement;
mod bytes;
mod codes;
mod gap;
mod graphs;
mod hello;
pub mod hello_rule;
mod hosts;
mod least;
mod limits;
mod literals;
mod network;
mod octets;
mod originator;
mod quality;
pub mod reason;
mod refusal;
mod same;
mod seq;
mod settings;
mod status;
mod tc;
pub mod tc_rule;
mod text;
mod times;
pub mod tlv_type;
mod tuples;
mod validity;

pub use addr::{Addr4, Endpoint, NetAddr};
pub use addresses::{contains, have_common_addr};
pub use admit::{Admit, QualityStep, SenderQuality};
pub use agreement::definitions_agree;
pub use bytes::Bytes;
pub use codes::{Metric, seq_newer, time_at, time_code_at_least, time_of};
pub use gap::{Gap, GapKey, GapKind, GapValue};
pub use graphs::{
    Arc4, Certificate, Direct, Far, Graph, Near, NeighbourGraph, Pair, PathRow, RadioGraph, Route,
};
pub use hello::{Hello, HelloRow, LinkStatus, LocalIf, Metrics, Mpr, OtherStatus, Shown, Willing};
pub use hosts::host;
pub use least::least_metric;
pub use limits::{LONGEST_DATAGRAM, MOST_TC_ROWS, MOST_TUPLES};
pub use literals::{address_of, endpoint_of, name_of, net_of, number_of, place_of};
pub use network::{Counts, Emission, NetEvent};
pub use octets::{
    address_in, octets_of_address, octets_of_short, read_octet, read_short, refuse, short_of,
};
pub use quality::quality_at;
pub use refusal::{DecodeFault, Refusal};
pub use same::are_same_rows;
pub use seq::Seq;
pub use settings::{
    Attached4, DEFAULT_TC_ROWS, DEFAULT_TIMES, Interface, NearHold, Port, RadioArc, RouterSettings,
    RunSetup, Scenario, SenderMetric, Times,
};
pub use tc::{Tc, TcRow};
pub use text::put_decimal;
pub use times::time_at_least;
pub use tuples::{
    AddressKey, AddressTuple, Advertiser, Base, FloodKey, Link, LinkKey, LinkState, Lost,
    Neighbour, NetworkKey, NetworkTuple, Noted, Relays, RouterKey, RouterTuple, TwoHop, TwoHopKey,
};
