//! A message that is forwarded as it came, but for its hop limit and hop count (RFC 7181, section 14.3).
ghost use Rattle.std.specs.Prelude.{◌≡◌, ◌≤◌, ◌+◌, ℕ, length, slice_get, slice_index, IsTrue};
ghost use Rattle.mesh_packet.specs.Fields.{MessageFields};
ghost use Rattle.mesh_packet.specs.Grammar.{SpellsMessage};
ghost use Rattle.mesh_wire.specs.Rehop.{HasHop, IsElsewhere, CanHop, one_hop_on, limit_place, count_place, flags_of, has_count, hopped};

// The flags of an originator and of a hop count (RFC 5444, section 5.2).
const ORIGINATOR: u8 = 0x80;

const COUNT: u8 = 0x20;

/// Writes a message one hop further: the hop limit one lower, a hop count that is there one higher, and each other octet
/// as it is (RFC 7181, section 14.3). The octets are those of one whole message with a hop limit above 1 and no hop count
/// of 255. Takes no memory.
pub fn rehop(message: &[u8], out: &mut [u8])
    requires whole { (fields : MessageFields) × SpellsMessage fields message.now × HasHop fields }
    requires room { length out.old ≡ length message.now }
    // `out` spells what the message spells, one hop further.
    ensures spelled { (fields : MessageFields) → SpellsMessage fields message.now → SpellsMessage (one_hop_on fields) out.new }
    // `out` is the message with the two octets changed.
    ensures exact { out.new ≡ hopped message.now }
    // Octet by octet.
    ensures limit { slice_index out.new (limit_place (flags_of message.now)) + 1 ≡ slice_index message.now (limit_place (flags_of message.now)) }
    ensures count { IsTrue (has_count message.now) → slice_index out.new (count_place (flags_of message.now)) ≡ slice_index message.now (count_place (flags_of message.now)) + 1 }
    ensures others { (place : ℕ) → IsElsewhere message.now place → slice_get out.new place ≡ slice_get message.now place }
{
    hop(message, out);
}

// The octets one hop further.
fn hop(message: &[u8], out: &mut [u8])
    requires hop { CanHop (flags_of message.now) message.now }
    requires room { length out.old ≡ length message.now }
    ensures { out.new ≡ hopped message.now }
{
    let flags = message[1];
    let place = place_of_limit(flags);
    out.copy_from_slice(message);
    out[place] -= 1;
    if flags & COUNT != 0 {
        out[place + 1] += 1;
    }
}

// Where the hop limit stands.
fn place_of_limit(flags: u8) -> usize
    ensures value { result ≡ limit_place flags }
    ensures most { result ≤ 20 }
{
    if flags & ORIGINATOR != 0 {
        4 + usize::from(flags % 16 + 1)
    } else {
        4
    }
}
