//! What is told of a network at the end of its run, put behind other octets.
ghost use Rattle.std.specs.Prelude.{◌≡◌, ◌++◌, ◌∷◌, [], codes, map, OnOk};
ghost use Rattle.std.specs.List.{All};
ghost use Rattle.mesh_atoms.specs.Sound.{Sound};
ghost use Rattle.mesh_settled.specs.machine.packet.Least.{Wrote};
ghost use Rattle.mesh_settled.specs.machine.tlv.Least.{Grows};
ghost use Rattle.mesh_settled.specs.machine.Names.{router_name};
ghost use Rattle.mesh_texts.specs.Lines.Marks.{joined, dotted, faces_of};
ghost use Rattle.mesh_texts.specs.Lines.Pieces.{piece_text};
ghost use Rattle.mesh_texts.specs.Sections.Section.{AreSections};
ghost use Rattle.mesh_texts.specs.Network.{counts_line, key_text, gap_line, settled_text, IsSummary};

use crate::Piece::{self, Address, Choice, Network, Number, Text};
use crate::lines::put_labelled;
use crate::{face_name, faces_of, put_all, put_line, put_section};
use mesh_atoms::{Addr4, Bytes, Counts, Gap, GapKey, Interface, Scenario};
use mesh_settled::{RouterView, router_name};
use std::alloc::AllocError;

/// Puts how large a network is, when it ended, and what was counted. An allocation failure leaves a part of it behind what was there.
#[tactic(auto, unfolding(crate::specs::Network::counts_line))]
pub fn put_counts_line(
    out: &mut Bytes,
    scenario: &Scenario,
    counts: Counts,
) -> Result<(), AllocError>
    ensures ok { OnOk result (out.new ≡ out.old ++ counts_line scenario.now counts) }
    ensures kept { Grows out.old out.new }
{
    let routers = scenario.routers.len();
    let arcs = scenario.arcs.len();
    put_line(
        out,
        &[
            (b"emulate routers ", Number(routers as u64)),
            (b" arcs ", Number(arcs as u64)),
            (b" end ", Number(scenario.end)),
            (b" sent ", Number(counts.sent)),
            (b" delivered ", Number(counts.delivered)),
            (b" lost ", Number(counts.lost)),
        ],
    )
}

// Puts the sections of routers, in order.
fn put_sections<R: RouterView>(out: &mut Bytes, routers: &[R]) -> Result<(), AllocError>
    requires { All Sound (map R.state routers.now) }
    ensures ok { OnOk result (Wrote (AreSections (map R.state routers.now)) out.old out.new) }
    ensures kept { Grows out.old out.new }
{
    for router in routers {
        put_section(out, router)?;
    }
    Ok(())
}

// Puts the key of a gap of topology, from an originator to an address or a network.
fn put_topology_key<'a>(
    out: &mut Bytes,
    kind: &'a [u8],
    from: Addr4,
    to: Piece<'a>,
) -> Result<(), AllocError>
    ensures ok { OnOk result (out.new ≡ out.old ++ joined (kind.now ∷ dotted from ∷ codes " " ∷ piece_text to.entry ∷ [])) }
    ensures kept { Grows out.old out.new }
{
    put_all(out, &[Text(kind), Address(from), Text(b" "), to])
}

// Puts the kind of a key and its parts, where the router has these interfaces.
#[tactic(auto, unfolding(crate::specs::Network::key_text))]
fn put_key(out: &mut Bytes, faces: &[Interface], key: GapKey) -> Result<(), AllocError>
    ensures ok { OnOk result (out.new ≡ out.old ++ key_text faces.now key) }
    ensures kept { Grows out.old out.new }
{
    match key {
        GapKey::Link { iface, key } => {
            let face = face_name(faces, iface);
            put_labelled(out, b"link ", Text(face))?;
            put_labelled(out, b" ", Address(key.addr))
        }
        GapKey::Neighbour(originator) => put_labelled(out, b"neighbour ", Address(originator)),
        GapKey::TwoHop { iface, key } => {
            let face = face_name(faces, iface);
            put_labelled(out, b"twohop ", Text(face))?;
            put_labelled(out, b" ", Address(key.link.addr))?;
            put_labelled(out, b" ", Address(key.addr))
        }
        GapKey::Router { from, to } => {
            put_topology_key(out, b"topology router ", from, Address(to))
        }
        GapKey::Address { from, addr } => {
            put_topology_key(out, b"topology address ", from, Address(addr))
        }
        GapKey::Network { from, net } => {
            put_topology_key(out, b"topology network ", from, Network(net))
        }
    }
}

// Puts whose gap it is.
fn put_gap_head(out: &mut Bytes, router: &[u8]) -> Result<(), AllocError>
    ensures ok { OnOk result (out.new ≡ out.old ++ joined (codes "gap " ∷ router.now ∷ codes " " ∷ [])) }
    ensures kept { Grows out.old out.new }
{
    put_all(out, &[Text(b"gap "), Text(router), Text(b" ")])
}

// Puts a gap.
#[tactic(auto, unfolding(crate::specs::Network::gap_line))]
fn put_gap_line(out: &mut Bytes, scenario: &Scenario, gap: Gap) -> Result<(), AllocError>
    ensures ok { OnOk result (out.new ≡ out.old ++ gap_line scenario.now gap) }
    ensures kept { Grows out.old out.new }
{
    let routers = scenario.routers.as_slice();
    put_gap_head(out, router_name(routers, gap.router))?;
    put_key(out, faces_of(routers, gap.router), gap.key)?;
    let (held, present) = (gap.held.is_some(), gap.present.is_some());
    put_line(
        out,
        &[(b" held ", Choice(held)), (b" present ", Choice(present))],
    )
}

// Puts that a network isn't settled, and its gap.
fn put_unsettled(out: &mut Bytes, scenario: &Scenario, gap: Gap) -> Result<(), AllocError>
    ensures ok { OnOk result (out.new ≡ out.old ++ (codes "settled no\n" ++ gap_line scenario.now gap)) }
    ensures kept { Grows out.old out.new }
{
    put_line(out, &[(b"settled ", Text(b"no"))])?;
    put_gap_line(out, scenario, gap)
}

/// Puts whether a network is settled, and else its gap. An allocation failure leaves a part of it behind what was there.
#[tactic(auto, unfolding(crate::specs::Network::settled_text))]
pub fn put_settled(out: &mut Bytes, scenario: &Scenario, gap: Option<Gap>) -> Result<(), AllocError>
    ensures ok { OnOk result (out.new ≡ out.old ++ settled_text scenario.now gap) }
    ensures kept { Grows out.old out.new }
{
    match gap {
        None => put_line(out, &[(b"settled ", Text(b"yes"))]),
        Some(gap) => put_unsettled(out, scenario, gap),
    }
}

/// Puts the summary of a network of these routers: what was counted, each router's section in order, and whether the network is
/// settled or else its gap. An allocation failure leaves a part of it behind what was there.
pub fn put_summary<R: RouterView>(
    out: &mut Bytes,
    scenario: &Scenario,
    routers: &[R],
    counts: Counts,
    gap: Option<Gap>,
) -> Result<(), AllocError>
    requires { All Sound (map R.state routers.now) }
    ensures ok { OnOk result (Wrote (IsSummary scenario.now (map R.state routers.now) counts gap) out.old out.new) }
    ensures kept { Grows out.old out.new }
{
    put_counts_line(out, scenario, counts)?;
    put_sections(out, routers)?;
    put_settled(out, scenario, gap)
}
