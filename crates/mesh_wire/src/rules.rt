//! The rules on the addresses of a message, by what is kept of each (RFC 6130, section 12.1, and RFC 7181, section 16.3.1).
ghost use Rattle.std.specs.Prelude.{◌≡◌};
ghost use Rattle.mesh_wire.specs.RowRules.{has_wrong_type, has_wrong_gateway, has_wrong_metric, hello_rule, tc_rule};

use crate::collect::AddressParts;
use crate::parts::RowParts;
use mesh_atoms::{hello_rule, tc_rule};

impl RowParts {
    fn has_wrong_metric(&self) -> bool
        ensures { result ≡ has_wrong_metric self.now }
    {
        let metrics = &self.metrics;
        metrics.wrong
            || (metrics.link_in.is_conflict()
                || (metrics.link_out.is_conflict()
                    || (metrics.near_in.is_conflict() || metrics.near_out.is_conflict())))
    }

    fn has_wrong_type(&self, prefix: u8) -> bool
        ensures { result ≡ has_wrong_type prefix self.now }
    {
        let kept = &self.octets.addr_type;
        kept.wrong || (kept.one.is_conflict() || (prefix < 32 && kept.one.is_said()))
    }

    fn has_wrong_gateway(&self) -> bool
        ensures { result ≡ has_wrong_gateway self.now }
    {
        let kept = &self.octets.gateway;
        kept.wrong
            || (kept.one.is_conflict()
                || (kept.one.is_said() && self.octets.addr_type.one.is_said()))
    }
}

impl AddressParts {
    /// The first rule on the addresses of a HELLO that the row breaks.
    pub(crate) fn hello_rule(&self) -> Option<u8>
        ensures { result ≡ hello_rule self.now }
    {
        if self.parts.octets.is_undefined() {
            Some(hello_rule::UNDEFINED)
        } else if self.parts.octets.has_two() {
            Some(hello_rule::TWO_VALUES)
        } else if self.net.prefix < 32 && self.parts.octets.has_status() {
            Some(hello_rule::PREFIX)
        } else if self.parts.has_wrong_metric() {
            Some(hello_rule::METRIC)
        } else {
            None
        }
    }

    /// The first rule on the addresses of a TC that the row breaks.
    pub(crate) fn tc_rule(&self) -> Option<u8>
        ensures { result ≡ tc_rule self.now }
    {
        if self.parts.has_wrong_type(self.net.prefix) {
            Some(tc_rule::ADDR_TYPE)
        } else if self.parts.has_wrong_gateway() {
            Some(tc_rule::GATEWAY)
        } else if self.parts.has_wrong_metric() {
            Some(tc_rule::METRIC)
        } else {
            None
        }
    }
}
