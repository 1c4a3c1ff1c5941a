//! Time codes, and the order of sequence numbers.
ghost use Rattle.std.specs.Prelude.{◌≡◌, ℕ, ◌+◌, ◌*◌, ◌%◌, ◌^◌, ◌<◌, ◌≤◌, ◌⊎◌, ◌↔◌, length, IsTrue, IsSome, IfSome, IsNone};
ghost use Rattle.mesh_atoms.specs.Codes.Codes.{time_value, time_at_distance, IsSentCode, Newer};

/// The ticks of 1/8192 s that a time code stands for (RFC 5497, section 5); 0 for code 0.
pub fn time_of(code: u8) -> u64
    ensures value { result ≡ time_value code }
    ensures bounded { result < 2 ^ 35 }
{
    if code == 0 {
        0
    } else {
        (8 + u64::from(code % 8)) << (code / 8)
    }
}

/// The least time code, of 1 to 254, that stands for at least so many ticks of 1/8192 s (RFC 5497, section 5); `None`
/// where no such code does.
pub fn time_code_at_least(ticks: u64) -> Option<u8>
    ensures sent { IfSome result IsSentCode }
    ensures enough { IfSome result (λ code. ticks ≤ time_value code) }
    ensures least { IfSome result (λ code. (other : ℕ) → IsSentCode other → ticks ≤ time_value other → code ≤ other) }
    ensures none { IsNone result ↔ ((code : ℕ) → IsSentCode code → time_value code < ticks) }
{
    // Code 254 stands for 14 << 31 ticks.
    if ticks > 14 << 31 {
        return None;
    }
    let (exponent, mantissa) = rounded_up(ticks, 8, 15);
    Some(u8::max(1, (8 * exponent) as u8 + (mantissa - 8) as u8))
}

/// The ticks of 1/8192 s that a value of pairs of a time code and a number of hops, and a last time code, gives at a
/// distance in hops (RFC 5497, section 6); `None` exactly where the value has an even number of octets.
pub fn time_at(value: &[u8], distance: u16) -> Option<u64>
    ensures odd { IsSome result ↔ (length value.now % 2 ≡ 1) }
    ensures time { IfSome result (λ ticks. ticks ≡ time_at_distance distance value.now) }
    ensures bounded { IfSome result (λ ticks. ticks < 2 ^ 35) }
{
    if value.len() % 2 == 0 {
        return None;
    }
    let pairs = value.len() / 2;
    for pair in 0..pairs {
        if distance <= u16::from(value[2 * pair + 1]) {
            return Some(time_of(value[2 * pair]));
        }
    }
    Some(time_of(value[2 * pairs]))
}

/// Whether sequence number `a` is newer than `b`, where numbers go round (RFC 7181, section 21). At a distance of 32768
/// neither is newer.
pub fn seq_newer(a: u16, b: u16) -> bool
    ensures { IsTrue result ↔ Newer a b }
{
    let ahead = a.wrapping_sub(b);
    0 < ahead && ahead < 32768
}

// The least exponent at which a mantissa of `top` reaches the value.
fn exponent_for(value: u64, top: u64) -> u32
    requires top { top < 2 ^ 32 }
    requires reached { value ≤ top * 2 ^ 31 }
    ensures bounded { result ≤ 31 }
    ensures enough { value ≤ top * 2 ^ result }
    ensures least { (exponent : ℕ) → exponent < result → top * 2 ^ exponent < value }
{
    for exponent in 0..31 {
        if value <= top << exponent {
            return exponent;
        }
    }
    31
}

// The exponent and the mantissa, of `low` to `top`, of the least `mantissa * 2 ^ exponent` that reaches the value.
pub(crate) fn rounded_up(value: u64, low: u64, top: u64) -> (u32, u64)
    requires low { low ≤ top }
    requires top { top < 2 ^ 32 }
    requires reached { value ≤ top * 2 ^ 31 }
    ensures exponent { result.0 ≤ 31 }
    ensures at_least { low ≤ result.1 }
    ensures at_most { result.1 ≤ top }
    ensures enough { value ≤ result.1 * 2 ^ result.0 }
    ensures least { (exponent mantissa : ℕ) → low ≤ mantissa → mantissa ≤ top → value ≤ mantissa * 2 ^ exponent → (result.0 < exponent) ⊎ ((result.0 ≡ exponent) × (result.1 ≤ mantissa)) }
{
    let exponent = exponent_for(value, top);
    (exponent, u64::max(low, value.div_ceil(1 << exponent)))
}
