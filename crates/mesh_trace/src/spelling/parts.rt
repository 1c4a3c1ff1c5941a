//! Whether a reading looks at all that address TLVs say.
ghost use Rattle.std.specs.Prelude.{◌≡◌, ◌+◌, ◌-◌, ◌<◌, ◌≤◌, ◌↔◌, ℕ, List, All, Contains, Some, length, map, slice_get, slice_range, IsTrue};
ghost use Rattle.mesh_atoms.specs.declared.addr.NetAddr.{NetAddr as Net};
ghost use Rattle.mesh_addr.specs.declared.records.RawAddr.{RawAddr as Raw};
ghost use Rattle.mesh_tlv.specs.Fields.{TlvFields, AddrTlvFields, fields, addr_fields};
ghost use Rattle.mesh_tlv.specs.Least.{IsFit};
ghost use Rattle.mesh_packet.specs.Fields.{BlockFields, fields_of_block, fields_of_message};
ghost use Rattle.mesh_packet.specs.Least.{IsEncodableMessage};
ghost use Rattle.mesh_wire.specs.Parts.{IsIn, octets_of, value_at};
ghost use Rattle.mesh_trace.specs.Spelling.Looks.{SaysOnly, TellsOnly};

use mesh_addr::RawAddr;
use mesh_atoms::NetAddr;
use mesh_packet::{Block, Message};
use mesh_tlv::{AddrTlv, Tlv};
use mesh_wire::{net_of, part_of, value_of};

/// What a reading looks at.
pub(crate) trait Looks {
    ghost use Rattle.std.specs.Prelude.{◌↔◌, IsTrue};
    ghost use Rattle.mesh_tlv.specs.Fields.{TlvFields, fields};
    ghost use Rattle.mesh_trace.specs.Spelling.Looks.{Saying};

    /// What it looks at of an address.
    ghost reads: { Self → Saying };

    /// What it looks at of the message.
    ghost reads_tlv: { Self → TlvFields → Type 0 };

    /// Whether it looks at these octets that a TLV of that type and extension says of an address.
    fn is_read(&self, net: NetAddr, kind: u8, ext: u8, octets: &[u8]) -> bool
        ensures { IsTrue result ↔ reads self.now net kind ext octets.now };

    /// Whether it looks at the message TLV.
    fn is_tlv_read(&self, tlv: &Tlv) -> bool
        ensures { IsTrue result ↔ reads_tlv self.now (fields tlv.now) };
}

// The addresses of a block that a TLV covers.
fn covered_by<'a>(addrs: &'a [RawAddr], tlv: &AddrTlv) -> &'a [RawAddr]
    requires { IsFit (length addrs.now) (addr_fields tlv.now) }
    ensures { result.now ≡ slice_range addrs.now tlv.now.first (tlv.now.last + 1) }
{
    &addrs[tlv.first as usize..tlv.last as usize + 1]
}

// Whether a reading looks at these octets that a TLV says of an address.
fn is_one_read<L: Looks>(looks: &L, address: &RawAddr, tlv: &AddrTlv, octets: &[u8]) -> bool
    requires { address.now.prefix ≤ 32 }
    ensures { IsTrue result ↔ ((net : Net) → IsIn address.now net → L.reads looks.now net tlv.now.kind tlv.now.ext octets.now) }
{
    match net_of(address) {
        Some(net) => looks.is_read(net, tlv.kind, tlv.ext, octets),
        None => false,
    }
}

// Whether a reading looks at what a TLV says of the addresses that it covers.
fn are_covered_read<L: Looks>(looks: &L, covered: &[RawAddr], tlv: &AddrTlv) -> bool
    requires indexes { tlv.now.first ≤ tlv.now.last }
    requires count { length covered.now ≡ tlv.now.last + 1 - tlv.now.first }
    requires narrow { All (λ a. a.prefix ≤ 32) covered.now }
    ensures { IsTrue result ↔ ((i : ℕ) (a : Raw) (net : Net) → slice_get covered.now i ≡ Some a → IsIn a net
        → L.reads looks.now net tlv.now.kind tlv.now.ext (octets_of (value_at (addr_fields tlv.now) (tlv.now.first + i)))) }
{
    let octets = value_of(tlv);
    let size = octets.len() / (tlv.last as usize + 1 - tlv.first as usize);
    let multi = tlv.multi;
    for i in 0..covered.len() {
        if !is_one_read(
            looks,
            &covered[i],
            tlv,
            part_of(tlv, multi, octets, size, i),
        ) {
            return false;
        }
    }
    true
}

// Whether a reading looks at what a TLV of a block says.
fn is_addr_tlv_read<L: Looks>(looks: &L, addrs: &[RawAddr], tlv: &AddrTlv) -> bool
    requires fit { IsFit (length addrs.now) (addr_fields tlv.now) }
    requires narrow { All (λ a. a.prefix ≤ 32) addrs.now }
    ensures { IsTrue result ↔ SaysOnly (L.reads looks.now) addrs.now (addr_fields tlv.now) }
{
    are_covered_read(looks, covered_by(addrs, tlv), tlv)
}

// The same of all TLVs of a block.
fn is_block_read<L: Looks>(looks: &L, addrs: &[RawAddr], tlvs: &[AddrTlv]) -> bool
    requires fit { All (IsFit (length addrs.now)) (map addr_fields tlvs.now) }
    requires narrow { All (λ a. a.prefix ≤ 32) addrs.now }
    ensures { IsTrue result ↔ ((tlv : AddrTlvFields) → Contains (map addr_fields tlvs.now) tlv → SaysOnly (L.reads looks.now) addrs.now tlv) }
{
    for i in 0..tlvs.len() {
        if !is_addr_tlv_read(looks, addrs, &tlvs[i]) {
            return false;
        }
    }
    true
}

// The same of all blocks.
fn are_blocks_read<L: Looks>(looks: &L, blocks: &[Block]) -> bool
    requires fit { All (λ b. All (IsFit (length b.addrs)) b.tlvs) (map fields_of_block blocks.now) }
    requires narrow { All (λ b. All (λ a. a.prefix ≤ 32) b.addrs) (map fields_of_block blocks.now) }
    ensures { IsTrue result ↔ ((b : BlockFields) → Contains (map fields_of_block blocks.now) b → (tlv : AddrTlvFields) → Contains b.tlvs tlv
        → SaysOnly (L.reads looks.now) b.addrs tlv) }
{
    for i in 0..blocks.len() {
        let block = &blocks[i];
        if !is_block_read(looks, block.addrs.addrs.as_slice(), block.tlvs.as_slice()) {
            return false;
        }
    }
    true
}

/// Whether a reading looks at all message TLVs.
pub(crate) fn are_tlvs_read<L: Looks>(looks: &L, tlvs: &[Tlv]) -> bool
    ensures { IsTrue result ↔ ((tlv : TlvFields) → Contains (map fields tlvs.now) tlv → L.reads_tlv looks.now tlv) }
{
    for i in 0..tlvs.len() {
        if !looks.is_tlv_read(&tlvs[i]) {
            return false;
        }
    }
    true
}

/// Whether a reading looks at all that a message of IPv4 addresses says of addresses.
pub(crate) fn is_all_read<L: Looks>(looks: &L, message: &Message) -> bool
    requires encodable { IsEncodableMessage (fields_of_message message.now) }
    requires width { message.now.width ≡ 4 }
    ensures { IsTrue result ↔ TellsOnly (L.reads looks.now) (fields_of_message message.now) }
{
    are_blocks_read(looks, message.blocks.as_slice())
}
