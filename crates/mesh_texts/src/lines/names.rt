//! The interfaces of routers, and their names.
ghost use Rattle.std.specs.Prelude.{◌≡◌};
ghost use Rattle.mesh_texts.specs.Lines.Marks.{face_name, faces_of};

use mesh_atoms::{Interface, RouterSettings};

/// The name of the interface of that number; nothing where there is none.
#[tactic(auto, unfolding(crate::specs::Lines::Marks::face_name))]
pub fn face_name(faces: &[Interface], iface: usize) -> &[u8]
    ensures exact { result.now ≡ face_name faces.now iface }
{
    match faces.get(iface) {
        Some(face) => face.name.as_slice(),
        None => b"",
    }
}

/// The interfaces of the router of that number; none where there is none.
#[tactic(auto, unfolding(crate::specs::Lines::Marks::faces_of))]
pub fn faces_of(routers: &[RouterSettings], router: usize) -> &[Interface]
    ensures exact { result.now ≡ faces_of routers.now router }
{
    match routers.get(router) {
        Some(settings) => settings.interfaces.as_slice(),
        None => &[],
    }
}
