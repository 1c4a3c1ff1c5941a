//! What stands twice in a list.
ghost use Rattle.std.specs.Prelude.{◌≡◌};
ghost use Rattle.std.specs.List.{list_any};
ghost use Rattle.mesh_atoms.specs.Settings.{are_distinct, name_eq};

use crate::stated::{StatedInterface, StatedRouter};
use mesh_atoms::{Addr4, Attached4, Bytes};

/// A value that may be the same as another one by some part of it.
pub trait Compared {
    ghost use Rattle.std.specs.Prelude.{Bool};

    ghost same: { Self → Self → Bool };

    fn is_same(&self, other: &Self) -> bool
        ensures { result ≡ same self.now other.now };
}

fn is_among<T: Compared>(item: &T, others: &[T]) -> bool
    ensures { result ≡ list_any (T.same item.now) others.now }
{
    for other in others {
        if item.is_same(other) {
            return true;
        }
    }
    false
}

/// Whether no value is the same as another one of the list.
pub fn are_distinct<T: Compared>(items: &[T]) -> bool
    ensures { result ≡ are_distinct T.same items.now }
{
    for (at, item) in items.iter().enumerate() {
        if is_among(item, &items[at + 1..]) {
            return false;
        }
    }
    true
}

fn is_same_name(a: &Bytes, b: &Bytes) -> bool
    ensures { result ≡ name_eq a.now b.now }
{
    a.as_slice() == b.as_slice()
}

impl Compared for StatedRouter {
    ghost use Rattle.mesh_config.specs.Checks.Compared.{same_router};

    ghost same = { same_router };

    fn is_same(&self, other: &StatedRouter) -> bool {
        is_same_name(&self.head.name, &other.head.name)
    }
}

impl Compared for StatedInterface {
    ghost use Rattle.mesh_config.specs.Checks.Compared.{same_interface};

    ghost same = { same_interface };

    fn is_same(&self, other: &StatedInterface) -> bool {
        is_same_name(&self.name, &other.name)
    }
}

impl Compared for Addr4 {
    ghost use Rattle.mesh_atoms.specs.Base.{addr_eq};

    ghost same = { addr_eq };

    fn is_same(&self, other: &Addr4) -> bool {
        self.0 == other.0
    }
}

impl Compared for Attached4 {
    ghost use Rattle.mesh_config.specs.Checks.Compared.{same_attached};

    ghost same = { same_attached };

    fn is_same(&self, other: &Attached4) -> bool {
        self.net.addr.0 == other.net.addr.0 && self.net.prefix == other.net.prefix
    }
}
