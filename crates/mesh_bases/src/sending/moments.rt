//! The moments at which a router sends (RFC 6130, section 11, and RFC 7181, section 16.2).
ghost use Rattle.std.specs.Prelude.{◌<◌, ◌≤◌, ◌^◌};
ghost use Rattle.mesh_machine.specs.Sending.{IsNextMoment};

/// The first moment above now of the series that begins at `start` and goes on by that interval. All are in ticks of
/// 1/8192 s and below 2^62; the interval isn't 0.
pub fn next_moment(start: u64, interval: u64, now: u64) -> u64
    requires interval { 0 < interval }
    requires start { start < 2 ^ 62 }
    requires most { interval < 2 ^ 62 }
    requires now { now < 2 ^ 62 }
    ensures { IsNextMoment start interval now result }
{
    if now < start {
        start
    } else {
        start + ((now - start) / interval + 1) * interval
    }
}
