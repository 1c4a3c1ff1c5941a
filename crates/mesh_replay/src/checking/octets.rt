//! Frames of which the octets aren't fixed: those that the next line tells are read, and compared with the message that is due.
ghost use Rattle.std.specs.Prelude.{◌≡◌, ◌++◌, ◌↔◌, ◌≢◌, None, IfOk, OnOk, IsTrue};
ghost use Rattle.hex.specs.Hex.{encode_lower};
ghost use Rattle.hex.specs.declared.error.FromHexError.TheVariants.{OutOfMemory};
ghost use Rattle.mesh_trace.specs.machine.Sendable.{AreOctets};
ghost use Rattle.mesh_texts.specs.Lines.Marks.{face_name};
ghost use Rattle.mesh_trace.specs.Reading.Readers.{IsReaderOf};
ghost use Rattle.mesh_replay.specs.Checking.Sending.{WritesSent, sent_front};
ghost use Rattle.mesh_replay.specs.Checking.Texts.{IsStill, ReadsNext, ReadsText, TakesNext, sent_text};

use crate::checking::case::CheckedEvent;
use hex::FromHexError;
use mesh_atoms::{Bytes, Hello, Tc};
use mesh_texts::{Piece, face_name, put_all};
use mesh_trace::{Reader, spells_hello, spells_tc};
use std::alloc::{AllocError, Global};

/// A message that a frame is to spell, in whichever way; a TC with the value of its VALIDITY_TIME.
#[derive(Clone, Copy)]
pub(crate) enum DueMessage<'a> {
    Hello { hello: &'a Hello },
    Tc { tc: &'a Tc, validity: &'a [u8] },
}

// Puts what stands before the octets in the line of a frame that is sent.
fn put_sent_front<'a>(
    out: &mut Bytes,
    moment: u64,
    router: &'a [u8],
    face: &'a [u8],
) -> Result<(), AllocError>
    ensures { OnOk result (out.new ≡ out.old ++ sent_front moment router.now face.now) }
{
    put_all(
        out,
        &[
            Piece::Text(b"sent "),
            Piece::Number(moment),
            Piece::Text(b" "),
            Piece::Text(router),
            Piece::Text(b" "),
            Piece::Text(face),
            Piece::Text(b" "),
        ],
    )
}

// Looks for a line that begins as that of a frame which the event sends on an interface.
fn look_for_sent(event: &CheckedEvent, iface: usize, reader: &mut Reader) -> Result<(), AllocError>
    ensures text { OnOk result (reader.new.text ≡ sent_front event.now.moment event.now.settings.now.name (face_name event.now.settings.now.interfaces iface)) }
    ensures still { OnOk result (IsStill reader.old reader.new) }
{
    let face = face_name(event.settings.interfaces.as_slice(), iface);
    reader.text.clear();
    put_sent_front(
        &mut reader.text,
        event.moment,
        event.settings.name.as_slice(),
        face,
    )
}

// Whether these are the octets that the digits tell, in lower case.
fn tells(alloc: Global, octets: &[u8], digits: &[u8]) -> Result<bool, AllocError>
    ensures { IfOk result (λ fits. IsTrue fits ↔ (encode_lower octets.now ≡ digits.now)) }
{
    let told = hex::encode(alloc, octets)?;
    Ok(told.as_bytes() == digits)
}

// No octets, unless memory was wanting.
fn none_for(fault: FromHexError) -> Result<Option<Bytes>, AllocError>
    ensures { IfOk result (λ told. (told ≡ None) × (fault ≢ OutOfMemory)) }
{
    match fault {
        FromHexError::OutOfMemory => Err(AllocError),
        FromHexError::OddLength
        | FromHexError::InvalidHexCharacter { .. }
        | FromHexError::InvalidStringLength => Ok(None),
    }
}

// The octets that hexadecimal digits of lower case tell; `None` where a text tells none.
fn octets_in(alloc: Global, digits: &[u8]) -> Result<Option<Bytes>, AllocError>
    ensures { IfOk result (ReadsText AreOctets encode_lower digits.now) }
{
    match hex::decode(alloc, digits) {
        Ok(octets) => {
            let is_lower = tells(alloc, octets.as_slice(), digits)?;
            Ok(if is_lower {
                Some(Bytes::from_vec(octets))
            } else {
                None
            })
        }
        Err(fault) => none_for(fault),
    }
}

// The octets of the next line, where it tells that the event sends a frame on the interface.
fn sent_octets(
    alloc: Global,
    trace: &[u8],
    event: &CheckedEvent,
    iface: usize,
    reader: &mut Reader,
) -> Result<Option<Bytes>, AllocError>
    requires { IsReaderOf trace.now reader.old }
    ensures { IfOk result (ReadsNext AreOctets (sent_text event.now.settings.now event.now.moment iface) trace.now reader.old reader.new) }
{
    look_for_sent(event, iface, reader)?;
    match reader.rest(trace) {
        Some(digits) => octets_in(alloc, digits),
        None => Ok(None),
    }
}

// Whether octets spell a message of the event's router.
fn spells(
    alloc: Global,
    event: &CheckedEvent,
    message: &DueMessage,
    octets: &[u8],
) -> Result<bool, AllocError>
    ensures { IfOk result (λ yes. IsTrue yes ↔ WritesSent event.now.settings.now message.now octets.now) }
{
    match *message {
        DueMessage::Hello { hello } => spells_hello(alloc, hello, octets),
        DueMessage::Tc { tc, validity } => spells_tc(
            alloc,
            tc,
            event.settings.times.tc_hop_limit,
            validity,
            octets,
        ),
    }
}

/// Takes the next line, where it tells that the event sends a frame on the interface that spells the message, and gives its octets.
pub(crate) fn take_message(
    alloc: Global,
    trace: &[u8],
    event: &CheckedEvent,
    iface: usize,
    message: &DueMessage,
    reader: &mut Reader,
) -> Result<Option<Bytes>, AllocError>
    requires { IsReaderOf trace.now reader.old }
    ensures { IfOk result (TakesNext (WritesSent event.now.settings.now message.now) (sent_text event.now.settings.now event.now.moment iface)
        trace.now reader.old reader.new) }
{
    let Some(octets) = sent_octets(alloc, trace, event, iface, reader)? else {
        return Ok(None);
    };
    if !spells(alloc, event, message, octets.as_slice())? {
        return Ok(None);
    }
    reader.take(trace);
    Ok(Some(octets))
}
