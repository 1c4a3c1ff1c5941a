//! Laws of settled networks, over the definitions alone.
ghost use Rattle.mesh_settled.specs.Law.{LeadsWhereSettled, IsLeastWhereSettled};

/// In a network of sound routers that is settled, each router's rows are exactly the radio graph's least metrics, over inner routers
/// that are willing to route, to the addresses of other routers and to networks that the router doesn't attach (`rows`). Each row's next
/// hop is an adjacent router to which no way is cheaper than the arc. It has the destination at the row's metric, or has a row for the
/// rest of it; or it attaches the network, and the row's metric is no more than the arc's and its own together (`next_hops`). It does
/// nothing.
pub fn settled_routers_lead()
    ensures rows { IsLeastWhereSettled }
    ensures next_hops { LeadsWhereSettled }
{}
