//! Laws of the definitions.
ghost use Rattle.mesh_nhdp.specs.Laws.{AdvertisesFew};

/// A router whose neighbourhood is sound advertises at most 1,088 rows in its TCs: one for each of up to 1,024 addresses that it
/// holds, and one for each of up to 64 networks that it attaches.
pub fn advertised_rows_are_few()
    ensures { AdvertisesFew }
{}
