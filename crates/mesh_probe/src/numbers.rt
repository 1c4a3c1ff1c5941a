//! The sequence number of a probe's TC (RFC 7181, section 16).
ghost use Rattle.std.specs.Prelude.{◌↔◌, map, IsTrue};
ghost use Rattle.mesh_flood.specs.Verdict.{key_of};
ghost use Rattle.mesh_probe.specs.Hearing.{IsLeastUnknown};
ghost use Rattle.mesh_probe.specs.Laws.{tc_key};
ghost use Rattle.mesh_probe.specs.Probes.{IsKnown};

use mesh_atoms::Addr4;
use mesh_flood::Heading;
use mesh_machine::RouterView;

// Whether some router has noted the message.
fn is_known<R: RouterView>(routers: &[R], heading: &Heading) -> bool
    ensures { IsTrue result ↔ IsKnown (map R.state routers.now) (key_of heading.now) }
{
    for router in routers {
        if router.has_noted(heading) {
            return true;
        }
    }
    false
}

// Whether some router has noted a TC of that originator with that number.
fn is_taken<R: RouterView>(routers: &[R], originator: Addr4, number: u16) -> bool
    ensures { IsTrue result ↔ IsKnown (map R.state routers.now) (tc_key originator number) }
{
    let heading = Heading {
        kind: 1,
        originator,
        sequence: number,
        limit: None,
        count: None,
    };
    is_known(routers, &heading)
}

/// The least number of a TC of that originator that no router has noted. Takes no memory.
pub(crate) fn free_number<R: RouterView>(routers: &[R], originator: Addr4) -> Option<u16>
    ensures { IsLeastUnknown (map R.state routers.now) originator result }
{
    for number in 0..65536u32 {
        if !is_taken(routers, originator, number as u16) {
            return Some(number as u16);
        }
    }
    None
}
