//! The listing of one line as a text of its own, which `mesh dump` makes line by line.
ghost use Rattle.mesh_report.specs.Packets.{CanList, line_read};

use mesh_packet::decode;
use mesh_report::{LineRead, packet_text};
use std::alloc::{AllocError, Global};
use std::test::Fail;

/// A packet of sequence number 1 alone, as line 2; worked by hand from the formats.
const PACKET: &[u8] = b"\x08\x00\x01";

const LISTING: &[u8] = b"line 2 packet sequence 1 tlvs 0 messages 0\n recode 080001\n";

fn says(alloc: Global, line: &LineRead) -> Result<bool, AllocError>
    requires { CanList (line_read line.now) }
{
    let text = packet_text(alloc, 2, line, true)?;
    Ok(text.as_slice() == LISTING)
}

fn is_listed(alloc: Global) -> Result<bool, AllocError> {
    match decode(alloc, PACKET) {
        Ok(decoded) => says(alloc, &LineRead::Read(decoded)),
        Err(_) => Ok(false),
    }
}

#[test]
fn lists_a_line(rt: HostRuntime) -> Result<(), Fail> {
    assert!(rt; is_listed(rt.alloc())?);
    Ok(())
}
