//! What the rows of a HELLO tell of the sender's neighbours (RFC 6130, section 12.6, and RFC 7181, section 15.3).
ghost use Rattle.std.specs.Prelude.{◌≡◌, ◌↔◌, IsTrue, IfOk, OnOk};
ghost use Rattle.mesh_atoms.specs.Base.{SetsOnly, two_hop_eq};
ghost use Rattle.mesh_atoms.specs.HelloTold.{Told, tells_symmetric, or_else};
ghost use Rattle.mesh_atoms.specs.AfterHello.{row_makes};
ghost use Rattle.mesh_atoms.specs.TakesHello.{AreTwoHopRows};
ghost use Rattle.mesh_atoms.specs.declared.settings.RouterSettings.{RouterSettings};
ghost use Rattle.mesh_hello.specs.Told.Telling.{AreOwnAddresses};
ghost use Rattle.mesh_nhdp.specs.Calls.{TellsTwoHops};
ghost use Rattle.mesh_nhdp.specs.Repeats.{RepeatsRow, RepeatsRows};
ghost use Rattle.mesh_hello.specs.Gathers.{Gathers};
ghost use Rattle.mesh_nhdp.specs.Rows.{LooksOn, RowTells, TellsSymmetric};

use mesh_atoms::{
    Addr4, Hello, HelloRow, LinkKey, LinkStatus, Metric, OtherStatus, TwoHop, TwoHopKey, contains,
};
use mesh_expire::PlacedTable;
use mesh_hello::ascending;
use mesh_nbrs::TwoHopSet;
use std::alloc::{AllocError, Global};

/// Whether the row tells of a neighbour of the sender (RFC 6130, section 12.6).
pub fn is_looked_at(row: &HelloRow, own: &[Addr4], listed: &[Addr4]) -> bool
    ensures { IsTrue result ↔ LooksOn own.now listed.now row.now }
{
    row.addr.prefix == 32
        && (row.link.is_some() || row.other.is_some())
        && !contains(own, row.addr.addr)
        && !contains(listed, row.addr.addr)
}

/// Whether the row says that it is a SYMMETRIC neighbour.
pub fn is_symmetric_row(row: &HelloRow) -> bool
    ensures { result ≡ tells_symmetric row.now.link row.now.other }
{
    match row.link {
        Some(LinkStatus::Symmetric) => true,
        _ => match row.other {
            Some(OtherStatus::Symmetric) => true,
            _ => false,
        },
    }
}

/// The neighbour metric where there is one, else the link metric.
pub fn or_else(near: Option<Metric>, link: Option<Metric>) -> Option<Metric>
    ensures { result ≡ or_else near link }
{
    match near {
        Some(metric) => Some(metric),
        None => link,
    }
}

/// The rows of a HELLO as they are told to the 2-hop tuples of the link with this key, which stand until that moment. Rows of the
/// router's own addresses and of those that the HELLO lists as its sender's are passed over.
#[derive(Clone, Copy)]
pub struct TwoHopRows<'a> {
    pub link: LinkKey,
    pub until: u64,
    pub hello: &'a Hello,
    pub own: &'a [Addr4],
    pub listed: &'a [Addr4],
}

/// Makes of the tuple of its address what the row tells; whether that repeats what was held.
fn tell_row<H: PlacedTable<TwoHopKey, TwoHop>>(
    two_hops: &mut TwoHopSet<H>,
    link: LinkKey,
    until: u64,
    row: &HelloRow,
) -> Result<bool, AllocError>
    ensures sets { OnOk result (SetsOnly two_hop_eq two_hops.old two_hops.new
        (record { link = link; addr = row.now.addr.addr }) (row_makes until row.now)) }
    ensures repeats { IfOk result (λ repeats. IsTrue repeats → RepeatsRow two_hops.old link row.now) }
{
    if is_symmetric_row(row) {
        let metric_in = or_else(row.metrics.near_in, row.metrics.link_in);
        let metric_out = or_else(row.metrics.near_out, row.metrics.link_out);
        two_hops.renew(link, row.addr.addr, metric_in, metric_out, until)
    } else {
        Ok(!two_hops.drop_row(link, row.addr.addr))
    }
}

/// The same, where the row tells of a neighbour of the sender; another repeats what was held.
fn tell_if_looked_at<H: PlacedTable<TwoHopKey, TwoHop>>(
    two_hops: &mut TwoHopSet<H>,
    rows: &TwoHopRows,
    row: &HelloRow,
) -> Result<bool, AllocError>
    ensures tells { OnOk result (RowTells rows.now.own.now rows.now.listed.now rows.now.link rows.now.until row.now two_hops.old two_hops.new) }
    ensures repeats { IfOk result (λ repeats. IsTrue repeats → LooksOn rows.now.own.now rows.now.listed.now row.now
        → RepeatsRow two_hops.old rows.now.link row.now) }
{
    if is_looked_at(row, rows.own, rows.listed) {
        tell_row(two_hops, rows.link, rows.until, row)
    } else {
        Ok(true)
    }
}

/// Makes of the 2-hop tuples of a link what the rows of the HELLO tell (RFC 6130, section 12.6, and RFC 7181, section 15.3); whether all
/// rows repeat what was held, so that nothing but moments changes.
pub fn tell_two_hops<H: PlacedTable<TwoHopKey, TwoHop>>(
    two_hops: &mut TwoHopSet<H>,
    rows: &TwoHopRows,
) -> Result<bool, AllocError>
    ensures tells { OnOk result ((settings : RouterSettings) (told : Told) → AreOwnAddresses settings rows.now.own.now
        → told.listed ≡ rows.now.listed.now → TellsTwoHops settings told rows.now.hello.now rows.now.link rows.now.until two_hops.old two_hops.new) }
    ensures repeats { IfOk result (λ repeats. IsTrue repeats
        → RepeatsRows rows.now.own.now rows.now.listed.now two_hops.old rows.now.link rows.now.hello.now) }
{
    let mut repeated = true;
    for row in rows.hello.rows.as_slice() {
        let repeats = tell_if_looked_at(two_hops, rows, row)?;
        repeated &= repeats;
    }
    Ok(repeated)
}

/// Adds the row's address, where the row tells of a SYMMETRIC neighbour of the sender.
fn add_symmetric(
    addrs: &mut Vec<Addr4>,
    row: &HelloRow,
    own: &[Addr4],
    listed: &[Addr4],
) -> Result<(), AllocError>
    ensures { OnOk result (Gathers addrs.old.items addrs.new.items (TellsSymmetric own.now listed.now row.now)) }
{
    if is_looked_at(row, own, listed) && is_symmetric_row(row) {
        addrs.push(row.addr.addr)?;
    }
    Ok(())
}

/// How many addresses the HELLO tells as SYMMETRIC neighbours of the sender.
pub fn count_symmetric(
    alloc: Global,
    hello: &Hello,
    own: &[Addr4],
    listed: &[Addr4],
) -> Result<usize, AllocError>
    ensures { IfOk result (λ count. (settings : RouterSettings) (told : Told) → AreOwnAddresses settings own.now → told.listed ≡ listed.now
        → AreTwoHopRows settings told hello.now count) }
{
    let mut addrs = Vec::new(alloc);
    for row in hello.rows.as_slice() {
        add_symmetric(&mut addrs, row, own, listed)?;
    }
    let told = ascending(addrs);
    let count = told.len();
    Ok(count)
}
