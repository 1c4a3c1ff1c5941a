//! Link metrics.
ghost use Rattle.std.specs.Prelude.{◌<◌};

use crate::codes::codes::rounded_up;

/// A link metric by its 12-bit code; the cost that the code stands for (RFC 7181, section 6.2) is 1 to 16,776,960. A
/// greater code stands for a greater cost.
#[derive(Clone, Copy, PartialEq, Eq, PartialOrd, Ord)]
pub struct Metric {
    pub code: u16,
    pub ghost in_range: { code < 4096 },
}

impl Metric {
    ghost use Rattle.std.specs.Prelude.{◌≡◌, ◌<◌, ◌≤◌, ◌↔◌, IsNone, IfSome};
    ghost use Rattle.mesh_atoms.specs.Codes.Codes.{metric_value};

    /// The metric of a code; `None` exactly where the code has more than 12 bits.
    pub fn of_code(code: u16) -> Option<Metric>
        ensures none { IsNone result ↔ (4095 < code) }
        ensures code { IfSome result (λ metric. metric.code ≡ code) }
    {
        if code > 4095 {
            None
        } else {
            Some(Metric { code })
        }
    }

    /// The cost that the metric stands for: `(257 + b) * 2^a - 256` for the code `256 a + b`.
    pub fn value(self) -> u32
        ensures value { result ≡ metric_value self }
        ensures positive { 1 ≤ result }
        ensures bounded { result ≤ 16776960 }
    {
        ((257 + u32::from(self.code % 256)) << (self.code / 256)) - 256
    }

    /// The least metric that stands for at least this cost; `None` exactly where the cost is above 16,776,960.
    pub fn at_least(v: u32) -> Option<Metric>
        ensures none { IsNone result ↔ (16776960 < v) }
        ensures enough { IfSome result (λ metric. v ≤ metric_value metric) }
        ensures least { IfSome result (λ metric. (other : Metric) → v ≤ metric_value other → metric.code ≤ other.code) }
    {
        if v > 16776960 {
            return None;
        }
        let (exponent, mantissa) = rounded_up(u64::from(v) + 256, 257, 512);
        Some(Metric {
            code: 256 * exponent as u16 + (mantissa - 257) as u16,
        })
    }
}
