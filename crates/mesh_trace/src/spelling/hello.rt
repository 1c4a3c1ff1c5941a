//! Whether octets may be sent for a HELLO.
ghost use Rattle.std.specs.Prelude.{◌≡◌, ◌+◌, ◌≤◌, ◌↔◌, List, ℕ, Contains, length, map, slice_range, IfOk, IsTrue};
ghost use Rattle.std.specs.List.{AllPairs};
ghost use Rattle.mesh_atoms.specs.Nodes.{IsBefore};
ghost use Rattle.mesh_tlv.specs.Fields.{TlvFields, fields};
ghost use Rattle.mesh_packet.specs.Fields.{fields_of_message, fields_of_packet};
ghost use Rattle.mesh_packet.specs.Grammar.{Spells, SpellsMessage};
ghost use Rattle.mesh_packet.specs.Least.{IsEncodable, IsEncodableMessage};
ghost use Rattle.mesh_packet.specs.Placed.{ArePlaced};
ghost use Rattle.mesh_wire.specs.Hello.{HelloIs};
ghost use Rattle.mesh_wire.specs.HelloRules.{BreaksHello};
ghost use Rattle.mesh_wire.specs.Rules.{Keeps};
ghost use Rattle.mesh_wire.specs.Writes.{IsReadOfHello, IsReadOfOther, HasBriefBlocks, WritesHello};
ghost use Rattle.mesh_trace.specs.Spelling.Looks.{IsLocal, LooksHello, HasHelloHeader, SaysHello};

use crate::spelling::brief::is_brief;
use crate::spelling::parts::{Looks, are_tlvs_read, is_all_read};
use crate::spelling::sole::sole_message;
use mesh_atoms::tlv_type::{INTERVAL_TIME, LINK_METRIC, LOCAL_IF, MPR, MPR_WILLING, VALIDITY_TIME};
use mesh_atoms::{DecodeFault, Hello, HelloRow, NetAddr};
use mesh_packet::{Decoded, Message, Span, decode};
use mesh_tlv::Tlv;
use mesh_wire::{WireFault, hello_of, is_status_type};
use std::alloc::{AllocError, Global};

// Whether two lists of rows are the same.
fn are_same_hello_rows(rows: &[HelloRow], others: &[HelloRow]) -> bool
    ensures { IsTrue result ↔ (rows.now ≡ others.now) }
{
    rows == others
}

// Whether two HELLOs say the same.
fn is_same_hello(one: &Hello, other: &Hello) -> bool
    ensures { IsTrue result ↔ (one.now ≡ other.now) }
{
    one.originator == other.originator
        && one.validity == other.validity
        && one.interval == other.interval
        && one.willing == other.willing
        && are_same_hello_rows(one.rows.as_slice(), other.rows.as_slice())
}

// Whether a message has the header of a HELLO.
fn has_header(message: &Message) -> bool
    ensures { IsTrue result ↔ HasHelloHeader (fields_of_message message.now) }
{
    message.kind == 0
        && message.limit.is_none()
        && message.count.is_none()
        && message.sequence.is_none()
}

// Whether the rows show the address as one of the sender's. Takes time near log n in the number n of rows.
fn is_local(rows: &[HelloRow], net: NetAddr) -> bool
    requires { AllPairs (λ r t. IsBefore r.addr t.addr) rows.now }
    ensures { IsTrue result ↔ IsLocal rows.now net }
{
    match rows.binary_search_by_key(&net, |row| row.addr) {
        Ok(place) => rows[place].local.is_some(),
        Err(_) => false,
    }
}

// Whether the reading looks at what is said so of an address that isn't the sender's.
fn is_read_of_other(kind: u8, octets: &[u8]) -> bool
    ensures { IsTrue result ↔ IsReadOfOther kind octets.now }
{
    match kind {
        MPR => match octets {
            [flags] => 1 <= *flags && *flags < 4,
            _ => false,
        },
        LINK_METRIC => match octets {
            [high, _] => 16 <= *high,
            _ => false,
        },
        _ => is_status_type(kind),
    }
}

// A HELLO whose rows were read.
#[derive(Drop)]
struct ReadHello {
    hello: Hello,
}

impl Looks for ReadHello {
    ghost use Rattle.mesh_wire.specs.Writes.{IsReadOfHello};
    ghost use Rattle.mesh_trace.specs.Spelling.Looks.{LooksHello};

    ghost reads = { λ read. LooksHello read.hello.rows };

    ghost reads_tlv = { λ read. IsReadOfHello };

    fn is_read(&self, net: NetAddr, kind: u8, ext: u8, octets: &[u8]) -> bool {
        ext == 0
            && (kind == LOCAL_IF
                || (is_read_of_other(kind, octets) && !is_local(self.hello.rows.as_slice(), net)))
    }

    fn is_tlv_read(&self, tlv: &Tlv) -> bool {
        tlv.ext == 0
            && (tlv.kind == VALIDITY_TIME || tlv.kind == INTERVAL_TIME || tlv.kind == MPR_WILLING)
    }
}

// Whether a message that was read says the HELLO, and nothing that the reading ignores.
fn is_message_of_hello(hello: &Hello, read: &ReadHello, message: &Message) -> bool
    requires encodable { IsEncodableMessage (fields_of_message message.now) }
    requires header { HasHelloHeader (fields_of_message message.now) }
    requires reads { HelloIs (fields_of_message message.now) read.now.hello }
    requires keeps { Keeps (BreaksHello (fields_of_message message.now)) }
    ensures { IsTrue result ↔ SaysHello hello.now (fields_of_message message.now) }
{
    if !is_same_hello(&read.hello, hello) {
        return false;
    }
    if !are_tlvs_read(read, message.tlvs.as_slice()) {
        return false;
    }
    is_all_read(read, message)
}

// Whether a message that stands there says the HELLO, and has each address block in the fewest octets.
fn tells_hello(
    alloc: Global,
    hello: &Hello,
    message: &Message,
    bytes: &[u8],
    span: Span,
) -> Result<bool, AllocError>
    requires end { span.start + span.len ≤ length bytes.now }
    requires encodable { IsEncodableMessage (fields_of_message message.now) }
    requires spelled { SpellsMessage (fields_of_message message.now) (slice_range bytes.now span.start (span.start + span.len)) }
    ensures { IfOk result (λ yes. (text : List ℕ) (spelled : SpellsMessage (fields_of_message message.now) text)
        → slice_range bytes.now span.start (span.start + span.len) ≡ text
        → IsTrue yes ↔ (SaysHello hello.now (fields_of_message message.now) × HasBriefBlocks spelled)) }
{
    if !has_header(message) {
        return Ok(false);
    }
    let read = match hello_of(alloc, message) {
        Ok(hello) => ReadHello { hello },
        Err(WireFault::Broken { .. }) => {
            return Ok(false);
        }
        Err(WireFault::Memory(e)) => {
            return Err(e);
        }
    };
    if !is_message_of_hello(hello, &read, message) {
        return Ok(false);
    }
    is_brief(alloc, message, bytes, span)
}

// The same of a packet that was read.
fn is_hello(
    alloc: Global,
    hello: &Hello,
    decoded: &Decoded,
    bytes: &[u8],
) -> Result<bool, AllocError>
    requires value { Spells (fields_of_packet decoded.now.packet) decoded.now.spans bytes.now }
    requires placed { ArePlaced (fields_of_packet decoded.now.packet).messages decoded.now.spans bytes.now }
    requires encodable { IsEncodable (fields_of_packet decoded.now.packet) }
    ensures { IfOk result (λ yes. IsTrue yes ↔ WritesHello hello.now bytes.now) }
{
    match sole_message(&decoded.packet) {
        Some(message) => tells_hello(alloc, hello, message, bytes, decoded.spans.as_slice()[0]),
        None => Ok(false),
    }
}

/// Whether octets may be sent for a HELLO (RFC 6130, section 10, and RFC 7181, section 15): a packet of one message alone, which reads as
/// the HELLO, has nothing that the reading ignores, and each of whose address blocks is in the fewest octets. An allocation failure is the only
/// fault.
pub fn spells_hello(alloc: Global, hello: &Hello, bytes: &[u8]) -> Result<bool, AllocError>
    ensures { IfOk result (λ yes. IsTrue yes ↔ WritesHello hello.now bytes.now) }
{
    match decode(alloc, bytes) {
        Ok(decoded) => is_hello(alloc, hello, &decoded, bytes),
        Err(DecodeFault::Refused(_)) => Ok(false),
        Err(DecodeFault::Memory(e)) => Err(e),
    }
}
