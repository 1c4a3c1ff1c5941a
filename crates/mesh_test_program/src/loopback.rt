//! Two airs over loopback, one of which hears what the other sends.
ghost use Rattle.std.specs.Prelude.{◌≡◌, ◌<◌, ◌≤◌, length};

use crate::octets::LONE;
use mesh_air::UdpAir;
use mesh_atoms::{Addr4, Endpoint};
use mesh_io::{Air, Attached, Ear, Sent};
use std::io;

// The length of the first frame that is heard within so many calls, 0 where none is.
fn heard_within<A: Air>(air: &mut A, buf: &mut [u8], calls: u64) -> (usize, u32)
    requires attached { 0 < A.attached air.old }
    requires longest { length buf.old ≡ 65507 }
    ensures { result.0 ≤ length buf.new }
{
    for _ in 0..calls {
        if let Ear::Frame { len, sender } = air.hear(0, buf) {
            return (len, sender.0);
        }
    }
    (0, 0)
}

fn says<A: Air>(air: &mut A, bytes: &[u8]) -> bool
    requires { 0 < A.attached air.old }
{
    air.send(0, bytes) == Sent::Done
}

fn ends(one: &mut UdpAir<HostRuntime>, other: &mut UdpAir<HostRuntime>, buf: &mut [u8]) -> bool
    requires longest { length buf.old ≡ 65507 }
{
    let here = Endpoint {
        addr: Addr4(2_130_706_433),
        port: 46981,
    };
    let there = Endpoint {
        addr: Addr4(2_130_706_433),
        port: 46982,
    };
    match one.attach(here, &[there]) {
        Attached::Done => match other.attach(there, &[here]) {
            Attached::Done => {
                if !says(one, LONE) {
                    return false;
                }
                let (len, sender) = heard_within(other, buf, 100);
                sender == 2_130_706_433 && &buf[..len] == LONE.as_slice()
            }
            Attached::Failed => false,
        },
        Attached::Failed => false,
    }
}

#[test]
fn hears_over_loopback(rt: HostRuntime) -> io::Result<()> {
    let mut buf = vec![in rt.alloc(); 0; 65507]?;
    let mut one = UdpAir::new(&rt, rt.alloc())?;
    let mut other = UdpAir::new(&rt, rt.alloc())?;
    let heard = ends(&mut one, &mut other, buf.as_mut_slice());
    assert!(&rt; heard);
    Ok(())
}
