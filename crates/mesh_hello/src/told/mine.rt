//! What a HELLO tells of the receiver (RFC 6130, section 12.5, and RFC 7181, section 15.3).
ghost use Rattle.std.specs.Prelude.{◌≡◌, ◌↔◌, ◌⊎◌, ℕ, Contains, Some, IsTrue};
ghost use Rattle.mesh_atoms.specs.HelloTold.{HasRowOf, IsHandedIn, IsMyStatus};
ghost use Rattle.mesh_atoms.specs.Words.{IsLeastMetric};
ghost use Rattle.mesh_atoms.specs.State.{HasAddressOn};
ghost use Rattle.mesh_atoms.specs.declared.hello.HelloRow.{HelloRow};
ghost use Rattle.mesh_atoms.specs.declared.settings.RouterSettings.{RouterSettings};
ghost use Rattle.mesh_hello.specs.Told.Mine.{Bears, IsMyRow, TellsMine};

use mesh_atoms::{Addr4, Hello, HelloRow, Interface, LinkStatus, Metric, contains, least_metric};

/// What a row may tell of its address: the link's status, or that its router is a relay for flooding or for routing.
#[derive(Clone, Copy)]
pub enum Sign {
    Status(LinkStatus),
    Flooding,
    Routing,
}

fn is_status(link: Option<LinkStatus>, status: LinkStatus) -> bool
    ensures { IsTrue result ↔ (link ≡ Some status) }
{
    match (link, status) {
        (Some(LinkStatus::Lost), LinkStatus::Lost) => true,
        (Some(LinkStatus::Symmetric), LinkStatus::Symmetric) => true,
        (Some(LinkStatus::Heard), LinkStatus::Heard) => true,
        _ => false,
    }
}

fn has_sign(row: &HelloRow, sign: Sign) -> bool
    ensures { IsTrue result ↔ Bears sign row.now }
{
    match sign {
        Sign::Status(status) => is_status(row.link, status),
        Sign::Flooding => row.mpr.flooding,
        Sign::Routing => row.mpr.routing,
    }
}

fn is_row_of(row: &HelloRow, own: &[Addr4]) -> bool
    ensures { IsTrue result ↔ IsMyRow own.now row.now }
{
    row.addr.prefix == 32 && contains(own, row.addr.addr)
}

/// Whether a row of one of these addresses has the sign.
pub fn has_own_row(hello: &Hello, own: &[Addr4], sign: Sign) -> bool
    ensures { IsTrue result ↔ TellsMine hello.now own.now sign }
{
    for row in hello.rows.as_slice() {
        if has_sign(row, sign) && is_row_of(row, own) {
            return true;
        }
    }
    false
}

/// What the HELLO tells of the link with the interface of these addresses: HEARD or SYMMETRIC before LOST.
pub fn status_of_mine(hello: &Hello, own: &[Addr4]) -> Option<LinkStatus>
    ensures { (settings : RouterSettings) (i : ℕ) → ((a : Addr4) → Contains own.now a ↔ HasAddressOn settings i a) → IsMyStatus settings i hello.now result }
{
    if has_own_row(hello, own, Sign::Status(LinkStatus::Heard)) {
        return Some(LinkStatus::Heard);
    }
    if has_own_row(hello, own, Sign::Status(LinkStatus::Symmetric)) {
        return Some(LinkStatus::Symmetric);
    }
    if has_own_row(hello, own, Sign::Status(LinkStatus::Lost)) {
        return Some(LinkStatus::Lost);
    }
    None
}

/// The metric that is handed in for a sender: that of its own entry, else the interface's.
pub fn metric_from(face: &Interface, sender: Addr4) -> Metric
    ensures { IsHandedIn face.now sender result }
{
    for entry in face.senders.as_slice() {
        if entry.sender == sender {
            return entry.metric;
        }
    }
    face.metric
}

/// The least of a metric and the incoming one of the row, where it is a row of one of these addresses.
fn least_with(least: Option<Metric>, row: &HelloRow, own: &[Addr4]) -> Option<Metric>
    ensures { IsLeastMetric (λ m. (least ≡ Some m) ⊎ (IsMyRow own.now row.now × (row.now.metrics.link_in ≡ Some m))) result }
{
    if is_row_of(row, own) {
        least_metric(least, row.metrics.link_in)
    } else {
        least
    }
}

/// The least incoming metric that the HELLO tells of these addresses.
pub fn metric_to(hello: &Hello, own: &[Addr4]) -> Option<Metric>
    ensures { (settings : RouterSettings) (i : ℕ) → ((a : Addr4) → Contains own.now a ↔ HasAddressOn settings i a)
        → IsLeastMetric (λ m. (a : Addr4) × (row : HelloRow) × HasAddressOn settings i a × HasRowOf hello.now a row × (row.metrics.link_in ≡ Some m)) result }
{
    let mut least = None;
    for row in hello.rows.as_slice() {
        least = least_with(least, row, own);
    }
    least
}
