//! Laws of the definitions (RFC 7181, section 18).
ghost use Rattle.mesh_bases.specs.Existing.{RoutersHaveRelays};

/// A router whose neighbourhood is sound at a moment has relays at that moment (RFC 7181, section 18): for flooding on each interface and
/// for routing there are neighbours that cover and of which each is needed. It does nothing.
pub fn routers_have_relays()
    ensures { RoutersHaveRelays }
{}
