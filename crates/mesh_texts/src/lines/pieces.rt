//! The pieces that lines are put together from, put behind other octets.
ghost use Rattle.std.specs.Prelude.{◌≡◌, ◌++◌, ◌≤◌, length, map, decimal, codes, OnOk};
ghost use Rattle.std.specs.List.{flat_map};
ghost use Rattle.hex.specs.Hex.{encode_lower};
ghost use Rattle.mesh_settled.specs.machine.tlv.Least.{Grows};
ghost use Rattle.mesh_texts.specs.Lines.Marks.{line_of, dotted, slashed, node_text, metric_text, choice_text, relays_text};
ghost use Rattle.mesh_texts.specs.Lines.Pieces.{piece_text, labelled_text};

use mesh_atoms::{Addr4, Bytes, Metric, NetAddr, put_decimal};
use std::alloc::AllocError;

/// A piece of a line.
#[derive(Clone, Copy)]
pub enum Piece<'a> {
    /// These octets.
    Text(&'a [u8]),
    /// A number in decimal digits.
    Number(u64),
    /// An address as four numbers with dots between.
    Address(Addr4),
    /// A network, its prefix behind a slash.
    Network(NetAddr),
    /// A node of a router's graph: an address, or a network.
    Node(NetAddr),
    /// A metric, or `none`.
    Cost(Option<Metric>),
    /// `yes` or `no`.
    Choice(bool),
    /// Addresses, each behind a space, or ` none`.
    Relays(&'a [Addr4]),
    /// Octets in lower-case hexadecimal digits.
    Hex(&'a [u8]),
}

// Puts octets.
fn put(out: &mut Bytes, octets: &[u8]) -> Result<(), AllocError>
    ensures ok { OnOk result (out.new ≡ out.old ++ octets.now) }
    ensures kept { Grows out.old out.new }
{
    out.append(octets)
}

// Puts a number in decimal digits.
fn put_number(out: &mut Bytes, number: u64) -> Result<(), AllocError>
    ensures ok { OnOk result (out.new ≡ out.old ++ decimal number) }
    ensures kept { Grows out.old out.new }
{
    put_decimal(out, number)
}

// Puts octets, and a number in decimal digits.
fn put_numbered(out: &mut Bytes, label: &[u8], number: u64) -> Result<(), AllocError>
    ensures ok { OnOk result (out.new ≡ out.old ++ (label.now ++ decimal number)) }
    ensures kept { Grows out.old out.new }
{
    put(out, label)?;
    put_number(out, number)
}

// Puts two numbers with a dot between.
fn put_half(out: &mut Bytes, label: &[u8], high: u64, low: u64) -> Result<(), AllocError>
    ensures ok { OnOk result (out.new ≡ out.old ++ (label.now ++ decimal high ++ codes "." ++ decimal low)) }
    ensures kept { Grows out.old out.new }
{
    put_numbered(out, label, high)?;
    put_numbered(out, b".", low)
}

// Puts an address.
#[tactic(auto, unfolding(crate::specs::Lines::Marks::dotted))]
fn put_address(out: &mut Bytes, addr: Addr4) -> Result<(), AllocError>
    ensures ok { OnOk result (out.new ≡ out.old ++ dotted addr) }
    ensures kept { Grows out.old out.new }
{
    let number = u64::from(addr.0);
    put_half(out, b"", number / 16_777_216, number / 65_536 % 256)?;
    put_half(out, b".", number / 256 % 256, number % 256)
}

// Puts a network.
#[tactic(auto, unfolding(crate::specs::Lines::Marks::slashed))]
fn put_network(out: &mut Bytes, net: NetAddr) -> Result<(), AllocError>
    ensures ok { OnOk result (out.new ≡ out.old ++ slashed net) }
    ensures kept { Grows out.old out.new }
{
    put_address(out, net.addr)?;
    put_numbered(out, b"/", u64::from(net.prefix))
}

// Puts a node.
#[tactic(auto, unfolding(crate::specs::Lines::Marks::node_text))]
fn put_node(out: &mut Bytes, node: NetAddr) -> Result<(), AllocError>
    ensures ok { OnOk result (out.new ≡ out.old ++ node_text node) }
    ensures kept { Grows out.old out.new }
{
    if node.prefix == 32 {
        put_address(out, node.addr)
    } else {
        put_network(out, node)
    }
}

// Puts a metric that may be absent.
#[tactic(auto, unfolding(crate::specs::Lines::Marks::metric_text))]
fn put_metric(out: &mut Bytes, metric: Option<Metric>) -> Result<(), AllocError>
    ensures ok { OnOk result (out.new ≡ out.old ++ metric_text metric) }
    ensures kept { Grows out.old out.new }
{
    match metric {
        Some(metric) => put_number(out, u64::from(metric.value())),
        None => put(out, b"none"),
    }
}

// Puts a choice.
#[tactic(auto, unfolding(crate::specs::Lines::Marks::choice_text))]
fn put_choice(out: &mut Bytes, choice: bool) -> Result<(), AllocError>
    ensures ok { OnOk result (out.new ≡ out.old ++ choice_text choice) }
    ensures kept { Grows out.old out.new }
{
    if choice {
        put(out, b"yes")
    } else {
        put(out, b"no")
    }
}

// Puts an address behind a space.
fn put_after_space(out: &mut Bytes, addr: Addr4) -> Result<(), AllocError>
    ensures ok { OnOk result (out.new ≡ out.old ++ (codes " " ++ dotted addr)) }
    ensures kept { Grows out.old out.new }
{
    put(out, b" ")?;
    put_address(out, addr)
}

// Puts addresses, each behind a space.
fn put_spaced(out: &mut Bytes, addrs: &[Addr4]) -> Result<(), AllocError>
    ensures ok { OnOk result (out.new ≡ out.old ++ flat_map (λ a. codes " " ++ dotted a) addrs.now) }
    ensures kept { Grows out.old out.new }
{
    for addr in addrs {
        put_after_space(out, *addr)?;
    }
    Ok(())
}

// Puts addresses, each behind a space, or ` none`.
#[tactic(auto, unfolding(crate::specs::Lines::Marks::relays_text))]
fn put_relays(out: &mut Bytes, addrs: &[Addr4]) -> Result<(), AllocError>
    ensures ok { OnOk result (out.new ≡ out.old ++ relays_text addrs.now) }
    ensures kept { Grows out.old out.new }
{
    match addrs {
        [] => put(out, b" none"),
        [_, ..] => put_spaced(out, addrs),
    }
}

// Puts up to 64 octets in lower-case hexadecimal digits.
fn put_short_hex(out: &mut Bytes, octets: &[u8]) -> Result<(), AllocError>
    requires { length octets.now ≤ 64 }
    ensures ok { OnOk result (out.new ≡ out.old ++ encode_lower octets.now) }
    ensures kept { Grows out.old out.new }
{
    let mut text = [0; 128];
    let text = &mut text[..2 * octets.len()];
    // It can't fail: the text has two digits for each octet.
    let _ = hex::encode_to_slice(octets, text);
    put(out, text)
}

// Puts octets in lower-case hexadecimal digits.
fn put_hex(out: &mut Bytes, octets: &[u8]) -> Result<(), AllocError>
    ensures ok { OnOk result (out.new ≡ out.old ++ encode_lower octets.now) }
    ensures kept { Grows out.old out.new }
{
    let mut at = 0;
    while at < octets.len() {
        let size = usize::min(64, octets.len() - at);
        put_short_hex(out, &octets[at..at + size])?;
        at += size;
    }
    Ok(())
}

// Puts a piece.
fn put_piece(out: &mut Bytes, piece: Piece) -> Result<(), AllocError>
    ensures ok { OnOk result (out.new ≡ out.old ++ piece_text piece.entry) }
    ensures kept { Grows out.old out.new }
{
    match piece {
        Piece::Text(octets) => put(out, octets),
        Piece::Number(number) => put_number(out, number),
        Piece::Address(addr) => put_address(out, addr),
        Piece::Network(net) => put_network(out, net),
        Piece::Node(node) => put_node(out, node),
        Piece::Cost(metric) => put_metric(out, metric),
        Piece::Choice(choice) => put_choice(out, choice),
        Piece::Relays(addrs) => put_relays(out, addrs),
        Piece::Hex(octets) => put_hex(out, octets),
    }
}

/// Puts pieces one behind the other. An allocation failure leaves a part of them behind what was there.
pub fn put_all(out: &mut Bytes, pieces: &[Piece]) -> Result<(), AllocError>
    ensures ok { OnOk result (out.new ≡ out.old ++ flat_map piece_text pieces.now) }
    ensures kept { Grows out.old out.new }
{
    for piece in pieces {
        put_piece(out, *piece)?;
    }
    Ok(())
}

/// Puts a piece behind its label. An allocation failure leaves a part of them behind what was there.
pub fn put_labelled(out: &mut Bytes, label: &[u8], piece: Piece) -> Result<(), AllocError>
    ensures ok { OnOk result (out.new ≡ out.old ++ (label.now ++ piece_text piece.entry)) }
    ensures kept { Grows out.old out.new }
{
    put(out, label)?;
    put_piece(out, piece)
}

/// Puts a line of these pieces, each behind its label. An allocation failure leaves a part of it behind what was there.
pub fn put_line(out: &mut Bytes, pieces: &[(&[u8], Piece)]) -> Result<(), AllocError>
    ensures ok { OnOk result (out.new ≡ out.old ++ line_of (map labelled_text pieces.now)) }
    ensures kept { Grows out.old out.new }
{
    for piece in pieces {
        put_labelled(out, piece.0, piece.1)?;
    }
    put(out, b"\n")
}
