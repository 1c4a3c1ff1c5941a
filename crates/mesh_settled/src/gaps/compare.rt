//! Where two tuples of a key differ.
ghost use Rattle.std.specs.Prelude.{◌≡◌, ◌+◌, List, ◌∷◌, Contains, Some, option_map};
ghost use Rattle.mesh_atoms.specs.declared.addr.Addr4.{Addr4};
ghost use Rattle.mesh_settled.specs.Gaps.Fields.{Field, Addresses, Number, flag_field, known_cost};
ghost use Rattle.mesh_settled.specs.Gaps.Found.{IsFieldTest, IsTestFrom, IsLeastMissing, lower, least_of, compared};

use mesh_atoms::{Addr4, GapValue, Metric, contains};

/// The numbers of a field on both sides.
#[derive(Clone, Copy)]
pub struct Apart {
    pub held: Option<u64>,
    pub present: Option<u64>,
}

/// The first field that differs, with its numbers.
#[derive(Clone, Copy)]
pub struct Difference {
    pub field: u8,
    pub held: Option<u64>,
    pub present: Option<u64>,
}

/// What the two sides say where they differ.
#[derive(Clone, Copy)]
pub struct HeldAndPresent {
    pub held: Option<GapValue>,
    pub present: Option<GapValue>,
}

/// The cost that the metric stands for, if there is one.
pub fn known_cost(metric: Option<Metric>) -> Option<u64>
    ensures { result ≡ known_cost metric }
{
    match metric {
        Some(metric) => Some(u64::from(metric.value())),
        None => None,
    }
}

/// The numbers where they differ.
pub fn numbers(held: Option<u64>, present: Option<u64>) -> Option<Apart>
    ensures { IsFieldTest (Number held) (Number present) result }
{
    if held == present {
        None
    } else {
        Some(Apart { held, present })
    }
}

/// The flags where they differ.
pub fn flags(held: bool, present: bool) -> Option<Apart>
    ensures { IsFieldTest (flag_field held) (flag_field present) result }
{
    numbers(Some(u64::from(held)), Some(u64::from(present)))
}

/// The least address, with one more that the list has or hasn't.
pub fn lower(best: Option<Addr4>, addr: Addr4, had: bool) -> Option<Addr4>
    ensures { result ≡ lower best addr had }
{
    match best {
        Some(least) => {
            if !had && addr.0 < least.0 {
                Some(addr)
            } else {
                best
            }
        }
        None => { if had { None } else { Some(addr) } }
    }
}

/// The lesser of the two.
pub fn least_of(best: Option<Addr4>, next: Option<Addr4>) -> Option<Addr4>
    ensures { result ≡ least_of best next }
{
    match next {
        Some(addr) => lower(best, addr, false),
        None => best,
    }
}

/// The least address of the list that the other hasn't.
pub fn least_missing(addrs: &[Addr4], others: &[Addr4]) -> Option<Addr4>
    ensures { IsLeastMissing (λ a. Contains addrs.now a) others.now result }
{
    let mut best = None;
    for i in 0..addrs.len() {
        best = lower(best, addrs[i], contains(others, addrs[i]));
    }
    best
}

fn number(addr: Addr4) -> Option<u64>
    ensures { result ≡ Some addr.0 }
{
    Some(u64::from(addr.0))
}

/// The least address that one side alone has.
pub fn least_apart(held: Option<Addr4>, present: Option<Addr4>) -> Option<Apart>
    ensures { (ms ns : List Addr4) → IsLeastMissing (λ a. Contains ms a) ns held →
        IsLeastMissing (λ a. Contains ns a) ms present →
        IsFieldTest (Addresses ms) (Addresses ns) result }
{
    match (held, present) {
        (None, None) => None,
        (Some(a), None) => Some(Apart {
            held: number(a),
            present: None,
        }),
        (None, Some(b)) => Some(Apart {
            held: None,
            present: number(b),
        }),
        (Some(a), Some(b)) => {
            if a.0 < b.0 {
                Some(Apart {
                    held: number(a),
                    present: None,
                })
            } else {
                Some(Apart {
                    held: None,
                    present: number(b),
                })
            }
        }
    }
}

/// The least address that one side alone has.
pub fn addresses(held: &[Addr4], present: &[Addr4]) -> Option<Apart>
    ensures { IsFieldTest (Addresses held.now) (Addresses present.now) result }
{
    least_apart(least_missing(held, present), least_missing(present, held))
}

/// The field with that number where it differs, else what comes of the fields after it.
pub fn first_of(field: u8, apart: Option<Apart>, rest: Option<Difference>) -> Option<Difference>
    ensures { (f g : Field) (fs gs : List Field) → IsFieldTest f g apart → IsTestFrom (field + 1) fs gs rest →
        IsTestFrom field (f ∷ fs) (g ∷ gs) result }
{
    match apart {
        Some(apart) => Some(Difference {
            field,
            held: apart.held,
            present: apart.present,
        }),
        None => rest,
    }
}

/// A tuple that is of one type on both sides: as the router holds it, and as it is given at present.
pub trait ComparedTuple: Copy {
    ghost fields: { Self → List Field };

    /// Where the two tuples differ.
    fn difference_between(held: Self, given: Self) -> Option<Difference>
        ensures { IsTestFrom 0 (fields held) (fields given) result };
}

/// Where the two tuples differ, if there are two.
pub fn difference_of<T: ComparedTuple>(held: Option<T>, given: Option<T>) -> Option<Difference>
    ensures { (fs gs : List Field) → option_map T.fields held ≡ Some fs → option_map T.fields given ≡ Some gs →
        IsTestFrom 0 fs gs result }
{
    match (held, given) {
        (Some(held), Some(given)) => T::difference_between(held, given),
        _ => None,
    }
}

/// What the two sides say, by which of them have a tuple of the key, and where these differ.
pub fn compared(held: bool, present: bool, difference: Option<Difference>) -> Option<HeldAndPresent>
    ensures { result ≡ compared held present difference }
{
    let there = GapValue {
        field: 0,
        number: None,
    };
    match (held, present, difference) {
        (true, false, _) => Some(HeldAndPresent {
            held: Some(there),
            present: None,
        }),
        (false, true, _) => Some(HeldAndPresent {
            held: None,
            present: Some(there),
        }),
        (true, true, Some(difference)) => Some(HeldAndPresent {
            held: Some(GapValue {
                field: difference.field,
                number: difference.held,
            }),
            present: Some(GapValue {
                field: difference.field,
                number: difference.present,
            }),
        }),
        _ => None,
    }
}
