//! What is told of a made network at the end of its run, put behind other octets.
ghost use Rattle.std.specs.Prelude.{◌≡◌, ◌≤◌, ◌++◌, ℕ, List, length, map, OnOk};
ghost use Rattle.mesh_emulate.specs.Making.Lines.{kind_text, made_line, routes_line, TellsRoutes};
ghost use Rattle.mesh_emulate.specs.Making.Routes.{metrics_of};
ghost use Rattle.mesh_texts.specs.machine.packet.Least.{Wrote};
ghost use Rattle.mesh_texts.specs.Network.{counts_line, settled_text};

use crate::making::kind::Kind;
use crate::making::routes::{greatest_of, route_count};
use mesh_atoms::{Bytes, Scenario};
use mesh_radio::{Counts, RouterView};
use mesh_settled::Gap;
use mesh_texts::Piece::{Number, Text};
use mesh_texts::{put_counts_line, put_line, put_settled};
use std::alloc::AllocError;

fn kind_text(kind: Kind) -> &'static [u8]
    ensures { result.now ≡ kind_text kind }
{
    match kind {
        Kind::Grid => b"grid",
        Kind::Ring => b"ring",
        Kind::Random => b"random",
    }
}

// Puts how a network was made, and how large it is.
#[tactic(auto, unfolding(crate::specs::Making::Lines::made_line))]
fn put_made_line(out: &mut Bytes, kind: Kind, scenario: &Scenario) -> Result<(), AllocError>
    ensures { OnOk result (out.new ≡ out.old ++ made_line kind scenario.now) }
{
    let routers = scenario.routers.len();
    let arcs = scenario.arcs.len();
    put_line(
        out,
        &[
            (b"made ", Text(kind_text(kind))),
            (b" routers ", Number(routers as u64)),
            (b" arcs ", Number(arcs as u64)),
            (b" seed ", Number(scenario.seed)),
        ],
    )
}

// Puts how many routes there are, and the greatest metric of them.
#[tactic(auto, unfolding(crate::specs::Making::Lines::routes_line))]
fn put_routes_line(out: &mut Bytes, count: u64, greatest: Option<u64>) -> Result<(), AllocError>
    ensures { OnOk result (out.new ≡ out.old ++ routes_line count greatest) }
{
    let greatest = match greatest {
        Some(metric) => Number(metric),
        None => Text(b"none"),
    };
    put_line(
        out,
        &[(b"routes ", Number(count)), (b" greatest ", greatest)],
    )
}

// Puts how many routes these routers have, and the greatest metric of them.
fn put_routes<R: RouterView>(out: &mut Bytes, routers: &[R]) -> Result<(), AllocError>
    requires { length routers.now ≤ 64 }
    ensures { OnOk result (Wrote (TellsRoutes (metrics_of (map R.state routers.now))) out.old out.new) }
{
    put_routes_line(out, route_count(routers), greatest_of(routers))
}

/// Puts how a network was made, what was counted, the routes of its routers in number, and whether it is settled or else its gap.
pub fn put_made<R: RouterView>(
    out: &mut Bytes,
    kind: Kind,
    scenario: &Scenario,
    routers: &[R],
    counts: Counts,
    gap: Option<Gap>,
) -> Result<(), AllocError>
    requires { length routers.now ≤ 64 }
    ensures { OnOk result ((routes : List ℕ) × TellsRoutes (metrics_of (map R.state routers.now)) routes
        × (out.new ≡ out.old ++ (made_line kind scenario.now
        ++ (counts_line scenario.now counts ++ (routes ++ settled_text scenario.now gap))))) }
{
    put_made_line(out, kind, scenario)?;
    put_counts_line(out, scenario, counts)?;
    put_routes(out, routers)?;
    put_settled(out, scenario, gap)
}
