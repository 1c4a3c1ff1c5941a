//! HELLO and TC messages as typed values (RFC 6130 and RFC 7181).
#![tactic(auto)]

mod collect;
mod fault;
mod hello;
mod hop;
mod laws;
mod lay;
mod lines;
mod octets;
mod parts;
mod rows;
mod rules;
mod runs;
mod singles;
mod summary;
mod tc;
mod times;
mod write;

pub use collect::{net_of, part_of, value_of};
pub use fault::WireFault;
pub use hello::{HelloHeader, hello_of, originator_of};
pub use hop::rehop;
pub use laws::{
    each_is_read_or_refused, one_reading, worked_readings, worked_spellings,
    written_for_each_distance,
};
pub use octets::is_status_type;
pub use rows::MessageSummary;
pub use summary::{hello_summary, tc_summary};
pub use tc::{TcContent, TcHeader, tc_of};
pub use times::only_value;
pub use write::{write_hello, write_tc};
