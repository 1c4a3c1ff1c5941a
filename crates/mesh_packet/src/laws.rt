//! Laws of the definitions (RFC 5444, section 5).
ghost use Rattle.mesh_packet.specs.Laws.{HasOnePacket, HasOneFault, SpellsOrHasFault, HasNoFaultToo, HasOneLeastForm, ZeroBeginsPackets};

/// Each list of octets either spells one packet, with its messages at one list of places, or has one first fault. A packet
/// has at most one least form.
pub fn one_reading()
    ensures packet { HasOnePacket }
    ensures fault { HasOneFault }
    ensures either { SpellsOrHasFault }
    ensures apart { HasNoFaultToo }
    ensures least { HasOneLeastForm }
{}

/// A message behind the octet 0, which is a packet's header without flags, is a packet of exactly that message, with no sequence
/// number and no TLVs; and what spells such a packet is a message behind the octet 0.
pub fn zero_begins_packets()
    ensures { ZeroBeginsPackets }
{}
