//! The names of routers.
ghost use Rattle.std.specs.Prelude.{◌≡◌};
ghost use Rattle.mesh_machine.specs.Names.{router_name};

use mesh_atoms::RouterSettings;

/// The name of the router of that number; nothing where there is none. Takes no memory.
#[tactic(auto, unfolding(crate::specs::Names::router_name))]
pub fn router_name(routers: &[RouterSettings], router: usize) -> &[u8]
    ensures { result.now ≡ router_name routers.now router }
{
    match routers.get(router) {
        Some(settings) => settings.name.as_slice(),
        None => b"",
    }
}
