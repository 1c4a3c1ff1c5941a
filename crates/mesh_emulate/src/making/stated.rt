//! The routers of a made scenario as their tables would state them.
ghost use Rattle.std.specs.Prelude.{◌≡◌, ◌≤◌, ◌<◌, length, IfOk};
ghost use Rattle.mesh_atoms.specs.Settings.{IsName};
ghost use Rattle.mesh_emulate.specs.Making.Scenario.{name_of, face_of};
ghost use Rattle.mesh_emulate.specs.Making.Stated.{IsStated, AreStated};
ghost use Rattle.mesh_config.specs.Stated.Router.{stated_interface_fields};

use mesh_atoms::{Addr4, Bytes, Seq, put_decimal};
use mesh_config::{RouterHead, StatedInterface, StatedRouter};
use std::alloc::{AllocError, Global};

fn name_of(alloc: Global, i: usize) -> Result<Bytes, AllocError>
    requires { i < 64 }
    ensures name { IfOk result (λ name. name ≡ name_of i) }
    ensures named { IfOk result (λ name. IsName name) }
{
    let mut name = Bytes::new(alloc);
    name.append(b"m")?;
    put_decimal(&mut name, i as u64)?;
    Ok(name)
}

fn face_of(alloc: Global, i: usize) -> Result<StatedInterface, AllocError>
    requires { i < 64 }
    ensures { IfOk result (λ face. stated_interface_fields face ≡ face_of i) }
{
    let mut name = Bytes::new(alloc);
    name.append(b"w0")?;
    let mut addrs = Seq::new(alloc);
    addrs.push(Addr4(167_772_161 + i as u32))?;
    Ok(StatedInterface { name, addrs })
}

fn router_of(alloc: Global, i: usize) -> Result<StatedRouter, AllocError>
    requires { i < 64 }
    ensures { IfOk result (IsStated i) }
{
    let mut interfaces = Seq::new(alloc);
    interfaces.push(face_of(alloc, i)?)?;
    let head = RouterHead::plain(alloc, name_of(alloc, i)?);
    Ok(StatedRouter {
        head,
        interfaces,
        attached: Seq::new(alloc),
    })
}

/// So many routers.
pub fn stated_routers(alloc: Global, count: usize) -> Result<Seq<StatedRouter>, AllocError>
    requires { count ≤ 64 }
    ensures stated { IfOk result (AreStated 0) }
    ensures count { IfOk result (λ routers. length routers ≡ count) }
{
    let mut routers = Seq::new(alloc);
    for i in 0..count {
        routers.push(router_of(alloc, i)?)?;
    }
    Ok(routers)
}
