//! Of several values: none, one, or different ones.
ghost use Rattle.std.specs.Prelude.{◌≡◌, ◌||◌};
ghost use Rattle.mesh_wire.specs.Singles.{also, also_some, is_conflict, is_said, value_from};

/// Of several values: none, one, though it may have come more than once, or different ones.
#[derive(Clone, Copy)]
pub(crate) enum Single<T> {
    Absent,
    Value(T),
    Conflict,
}

impl<T: Copy> Single<T> {
    pub(crate) fn is_conflict(self) -> bool
        ensures { result ≡ is_conflict self }
    {
        match self {
            Single::Conflict => true,
            _ => false,
        }
    }

    pub(crate) fn is_said(self) -> bool
        ensures { result ≡ is_said self }
    {
        match self {
            Single::Absent => false,
            _ => true,
        }
    }

    // The one value.
    pub(crate) fn value(self) -> Option<T>
        ensures { result ≡ value_from self }
    {
        match self {
            Single::Value(value) => Some(value),
            _ => None,
        }
    }
}

impl<T: Copy + PartialEq> Single<T> {
    // One value more.
    pub(crate) fn also(self, value: T) -> Single<T>
        ensures { result ≡ also T.eq self value }
    {
        match self {
            Single::Absent => Single::Value(value),
            Single::Value(first) => {
                if first == value {
                    Single::Value(first)
                } else {
                    Single::Conflict
                }
            }
            Single::Conflict => Single::Conflict,
        }
    }

    // One value more, if there is one.
    pub(crate) fn also_some(self, value: Option<T>) -> Single<T>
        ensures { result ≡ also_some T.eq self value }
    {
        match value {
            Some(value) => self.also(value),
            None => self,
        }
    }
}

/// Sets a flag if that is so. Otherwise it stays.
pub(crate) fn set_if(flag: &mut bool, is_so: bool)
    ensures { flag.new ≡ (flag.old || is_so) }
{
    if is_so {
        *flag = true;
    }
}
