//! The lines of a router's section, put behind other octets.
ghost use Rattle.std.specs.Prelude.{◌≡◌, ◌++◌, slice_index_or, OnOk, [], Some};
ghost use Rattle.mesh_atoms.specs.State.{state_of};
ghost use Rattle.mesh_settled.specs.machine.tlv.Least.{Grows};
ghost use Rattle.mesh_texts.specs.Lines.Marks.{status_text, nearness_text, face_name};
ghost use Rattle.mesh_texts.specs.Lines.Lines.{router_line, link_line, neighbour_line, flooding_line, routing_line, row_line, route_line};

use crate::lines::names::face_name;
use crate::lines::pieces::Piece::{Address, Choice, Cost, Network, Node, Number, Relays, Text};
use crate::lines::pieces::put_line;
use mesh_atoms::{Addr4, Bytes, Interface, Link, LinkKey, LinkState, Neighbour, Route, Seq};
use std::alloc::AllocError;

/// Puts whose section it is.
#[tactic(auto, unfolding(crate::specs::Lines::Lines::router_line))]
pub fn put_router_line(out: &mut Bytes, name: &[u8], originator: Addr4) -> Result<(), AllocError>
    ensures ok { OnOk result (out.new ≡ out.old ++ router_line name.now originator) }
    ensures kept { Grows out.old out.new }
{
    put_line(
        out,
        &[(b"router ", Text(name)), (b" ", Address(originator))],
    )
}

// The status of a link at a moment.
#[tactic(auto, unfolding(crate::specs::Lines::Marks::status_text))]
fn status_text(link: &Link, now: u64) -> &'static [u8]
    ensures { result.now ≡ status_text (state_of link.now now) }
{
    match link.state(now) {
        LinkState::Pending => b"pending",
        LinkState::Lost => b"lost",
        LinkState::Symmetric => b"symmetric",
        LinkState::Heard => b"heard",
    }
}

/// Puts the line of a link of the interface of that name, at a moment in ticks of 1/8192 s.
#[tactic(auto, unfolding(crate::specs::Lines::Lines::link_line))]
pub fn put_link_line(
    out: &mut Bytes,
    face: &[u8],
    key: LinkKey,
    link: &Link,
    now: u64,
) -> Result<(), AllocError>
    ensures ok { OnOk result (out.new ≡ out.old ++ link_line now face.now (key, link.now)) }
    ensures kept { Grows out.old out.new }
{
    let status = status_text(link, now);
    put_line(
        out,
        &[
            (b" link ", Text(face)),
            (b" ", Address(key.addr)),
            (b" ", Text(status)),
            (b" in ", Cost(Some(link.link_in))),
            (b" out ", Cost(link.link_out)),
            (b" selector ", Choice(link.selector)),
        ],
    )
}

// How near a neighbour is.
#[tactic(auto, unfolding(crate::specs::Lines::Marks::nearness_text))]
fn nearness_text(symmetric: bool) -> &'static [u8]
    ensures { result.now ≡ nearness_text symmetric }
{
    if symmetric { b"symmetric" } else { b"heard" }
}

/// Puts the line of a neighbour.
#[tactic(auto, unfolding(crate::specs::Lines::Lines::neighbour_line))]
pub fn put_neighbour_line(
    out: &mut Bytes,
    originator: Addr4,
    neighbour: &Neighbour,
) -> Result<(), AllocError>
    ensures ok { OnOk result (out.new ≡ out.old ++ neighbour_line (originator, neighbour.now)) }
    ensures kept { Grows out.old out.new }
{
    let nearness = nearness_text(neighbour.symmetric);
    put_line(
        out,
        &[
            (b" neighbour ", Address(originator)),
            (b" ", Text(nearness)),
            (b" in ", Cost(neighbour.metric_in)),
            (b" out ", Cost(neighbour.metric_out)),
            (b" flooding ", Number(u64::from(neighbour.willing.flooding))),
            (b" routing ", Number(u64::from(neighbour.willing.routing))),
            (b" selector ", Choice(neighbour.selector)),
        ],
    )
}

/// The relays of an interface; none where there is no such interface.
pub fn relays_of(relays: &[Seq<Addr4>], iface: usize) -> &[Addr4]
    ensures exact { result.now ≡ slice_index_or relays.now iface [] }
{
    match relays.get(iface) {
        Some(list) => list.as_slice(),
        None => &[],
    }
}

/// Puts the flooding relays of an interface.
#[tactic(auto, unfolding(crate::specs::Lines::Lines::flooding_line))]
pub fn put_flooding_line<'a>(
    out: &mut Bytes,
    relays: &'a [Seq<Addr4>],
    iface: usize,
    face: &'a Interface,
) -> Result<(), AllocError>
    ensures ok { OnOk result (out.new ≡ out.old ++ flooding_line relays.now (iface, face.now)) }
    ensures kept { Grows out.old out.new }
{
    let name = face.name.as_slice();
    let relays = relays_of(relays, iface);
    put_line(out, &[(b" flooding ", Text(name)), (b"", Relays(relays))])
}

/// Puts the routing relays.
#[tactic(auto, unfolding(crate::specs::Lines::Lines::routing_line))]
pub fn put_routing_line(out: &mut Bytes, relays: &[Addr4]) -> Result<(), AllocError>
    ensures ok { OnOk result (out.new ≡ out.old ++ routing_line relays.now) }
    ensures kept { Grows out.old out.new }
{
    put_line(out, &[(b" routing", Relays(relays))])
}

/// Puts a route of a router that has these interfaces.
#[tactic(auto, unfolding(crate::specs::Lines::Lines::route_line))]
pub fn put_route_line(out: &mut Bytes, row: Route, faces: &[Interface]) -> Result<(), AllocError>
    ensures ok { OnOk result (out.new ≡ out.old ++ row_line faces.now row) }
    ensures kept { Grows out.old out.new }
{
    let face = face_name(faces, row.iface);
    put_line(
        out,
        &[
            (b" route ", Network(row.dest)),
            (b" metric ", Number(row.metric)),
            (b" next ", Address(row.next)),
            (b" on ", Text(face)),
            (b" parent ", Node(row.parent)),
        ],
    )
}
