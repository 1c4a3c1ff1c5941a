//! What the definitions say in two ways.
ghost use Rattle.mesh_atoms.specs.Agreement.{TestsSymmetric, TestsHeard, LooksUpLinks, LooksUpTwoHops, LooksUpNeighbours, LooksUpLosts, LooksUpAdvertisers, LooksUpRouters, LooksUpAddresses, LooksUpNetworks, ShowsStatus};

/// Words of the definitions that say one thing in two ways agree: a link's status by tests, as a HELLO shows it and by
/// cases, and tuples by look-up and by membership. It does nothing.
pub fn definitions_agree()
    ensures symmetric { TestsSymmetric }
    ensures heard { TestsHeard }
    ensures status { ShowsStatus }
    ensures links { LooksUpLinks }
    ensures two_hops { LooksUpTwoHops }
    ensures neighbours { LooksUpNeighbours }
    ensures losts { LooksUpLosts }
    ensures advertisers { LooksUpAdvertisers }
    ensures routers { LooksUpRouters }
    ensures addresses { LooksUpAddresses }
    ensures networks { LooksUpNetworks }
{}
