//! What is kept of all that the TLVs of a message say of one address (RFC 6130, section 10, and RFC 7181, section 13.3).
ghost use Rattle.std.specs.Prelude.{◌≡◌, ◌<◌};
ghost use Rattle.mesh_wire.specs.KeptParts.{shown_in, has_other_length, metrics_also, take_part, no_parts};
ghost use Rattle.mesh_wire.specs.Metrics.{metric_in};

use crate::octets::{ByKind, Octets};
use crate::singles::{Single, set_if};
use mesh_atoms::Metric;
use mesh_atoms::tlv_type::LINK_METRIC;

/// What is kept of metrics: whether a value is not of two octets, and the metric of each kind.
#[derive(Clone, Copy)]
pub(crate) struct MetricParts {
    pub wrong: bool,
    pub link_in: Single<Metric>,
    pub link_out: Single<Metric>,
    pub near_in: Single<Metric>,
    pub near_out: Single<Metric>,
}

/// What the TLVs say of one address.
#[derive(Clone, Copy)]
pub(crate) struct RowParts {
    pub octets: ByKind<Octets>,
    pub metrics: MetricParts,
}

// The metric whose code is the lower 12 bits of two octets.
fn metric_in(high: u8, low: u8) -> Metric
    ensures { result ≡ metric_in high low }
{
    Metric {
        code: (256 * u16::from(high) + u16::from(low)) % 4096,
    }
}

// The metric that a value shows of the kind with the flag.
fn shown_in(flag: u8, octets: &[u8]) -> Option<Metric>
    requires { flag < 256 }
    ensures { result ≡ shown_in flag octets.now }
{
    match octets {
        [high, low] => {
            if *high & flag != 0 {
                Some(metric_in(*high, *low))
            } else {
                None
            }
        }
        _ => None,
    }
}

// Whether a value is not of so many octets.
fn has_other_length(octets: &[u8], len: usize) -> bool
    ensures { result ≡ has_other_length len octets.now }
{
    octets.len() != len
}

impl MetricParts {
    // One value more.
    fn take(&mut self, octets: &[u8])
        ensures { self.new ≡ metrics_also octets.now self.old }
    {
        set_if(&mut self.wrong, has_other_length(octets, 2));
        self.link_in = self.link_in.also_some(shown_in(128, octets));
        self.link_out = self.link_out.also_some(shown_in(64, octets));
        self.near_in = self.near_in.also_some(shown_in(32, octets));
        self.near_out = self.near_out.also_some(shown_in(16, octets));
    }
}

impl RowParts {
    // Nothing is said.
    pub(crate) fn new() -> RowParts
        ensures { result ≡ no_parts }
    {
        RowParts {
            octets: ByKind::new(),
            metrics: MetricParts {
                wrong: false,
                link_in: Single::Absent,
                link_out: Single::Absent,
                near_in: Single::Absent,
                near_out: Single::Absent,
            },
        }
    }

    // One value more, of a type without extension.
    pub(crate) fn take(&mut self, kind: u8, octets: &[u8])
        ensures { self.new ≡ take_part kind octets.now self.old }
    {
        self.octets.take(kind, octets);
        if kind == LINK_METRIC {
            self.metrics.take(octets);
        }
    }
}
