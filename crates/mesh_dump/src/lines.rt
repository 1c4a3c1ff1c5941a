//! Lines of hexadecimal text.
ghost use Rattle.std.specs.Prelude.{◌≡◌, ◌⊎◌, ◌∷◌, ◌<◌, ◌≤◌, ◌==◌, length, drop, position, Ok, Err, OnOk, IfOk, IfErr};
ghost use Rattle.std.specs.Str.Lines.{lines, strip_carriage_return};
ghost use Rattle.hex.specs.Hex.{decode_of};
ghost use Rattle.hex.specs.declared.error.FromHexError.TheVariants.{OutOfMemory};
ghost use Rattle.mesh_atoms.specs.Reading.{IfRefused};
ghost use Rattle.mesh_packet.specs.Least.{Wrote};
ghost use Rattle.mesh_report.specs.Packets.{line_read, CanList, IsLineText};
ghost use Rattle.mesh_dump.specs.Lines.{IsNotHex, FrameSays, IsListing, refusals};
ghost use Rattle.mesh_dump.specs.Pairs.{AreFirst};

use crate::digits::put_octets;
use crate::empty::EmptyLine;
use hex::FromHexError;
use memchr::memchr;
use mesh_atoms::{Bytes, DecodeFault, Refusal, refuse};
use mesh_packet::decode;
use mesh_report::{LineRead, Room, put_line_text};
use std::alloc::{AllocError, Global};

// The rules that a text can break before it is a frame.
const NOT_HEX: u8 = 12;

const ODD_DIGITS: u8 = 13;

// A line that stands before a line feed, without the carriage return at its end.
fn without_return(line: &[u8]) -> &[u8]
    ensures { result.now ≡ strip_carriage_return line.now }
{
    let len = line.len();
    if len > 0 && line[len - 1] == b'\r' {
        &line[..len - 1]
    } else {
        line
    }
}

// The place of the first line feed.
fn line_feed(text: &[u8]) -> Option<usize>
    ensures { result ≡ position (λ octet. octet == 10) text.now }
{
    memchr(b'\n', text)
}

// The first line, and how many octets it takes with its line feed.
pub fn first_line(text: &[u8]) -> (&[u8], usize)
    requires { 0 < length text.now }
    ensures line { lines text.now ≡ result.0.now ∷ lines (drop result.1 text.now) }
    ensures some { 0 < result.1 }
    ensures within { result.1 ≤ length text.now }
{
    // Most line feeds are far; one that is the first octet is found without a search.
    if text[0] == b'\n' {
        return (&text[..0], 1);
    }
    match line_feed(text) {
        Some(end) => (without_return(&text[..end]), end + 1),
        None => (text, text.len()),
    }
}

// Why decoding a text gave no octets.
fn fault_of(text: &[u8], fault: FromHexError) -> DecodeFault
    requires { (fault ≡ OutOfMemory) ⊎ (decode_of text.now ≡ Err fault) }
    ensures { IfRefused (IsNotHex text.now) result }
{
    match fault {
        FromHexError::InvalidHexCharacter { index, .. } => {
            DecodeFault::Refused(refuse(index, NOT_HEX))
        }
        FromHexError::OddLength => DecodeFault::Refused(refuse(text.len(), ODD_DIGITS)),
        // Only decoding into a slice gives this.
        FromHexError::InvalidStringLength => unreachable!(),
        FromHexError::OutOfMemory => DecodeFault::Memory(AllocError),
    }
}

// Puts the octets that a line writes over the first ones of `frame`, and gives how many they are.
fn fill(alloc: Global, frame: &mut Vec<u8>, line: &[u8]) -> Result<usize, DecodeFault>
    ensures octets { IfOk result (λ count. AreFirst count line.now frame.new.items) }
    ensures refused { IfErr result (IfRefused (IsNotHex line.now)) }
{
    if put_octets(alloc, frame, line)? {
        return Ok(line.len() / 2);
    }
    match hex::decode(alloc, line) {
        Ok(octets) => {
            let count = octets.len();
            *frame = octets;
            Ok(count)
        }
        Err(fault) => Err(fault_of(line, fault)),
    }
}

// What a frame says.
fn read_frame<'a>(alloc: Global, frame: &'a [u8]) -> Result<LineRead<'a>, AllocError>
    ensures read { IfOk result (λ read. FrameSays frame.now (line_read read)) }
    ensures list { IfOk result (λ read. CanList (line_read read)) }
{
    match decode(alloc, frame) {
        Ok(decoded) => Ok(LineRead::Read(decoded)),
        Err(DecodeFault::Refused(refusal)) => Ok(LineRead::Refused(refusal)),
        Err(DecodeFault::Memory(e)) => Err(e),
    }
}

// 1 where a line is refused, else 0.
fn refusals(read: &LineRead) -> u64
    ensures { result ≡ refusals (line_read read.now) }
{
    match read {
        LineRead::Read(_) => 0,
        LineRead::Refused(_) => 1,
    }
}

// Puts what was read of the line of this number, and gives 1 where it is refused, else 0.
fn put_read(
    alloc: Global,
    out: &mut Bytes,
    room: &mut Room,
    number: u64,
    read: &LineRead,
    recode: bool,
) -> Result<u64, AllocError>
    requires { CanList (line_read read.now) }
    ensures text { OnOk result (Wrote (IsLineText recode number (line_read read.now)) out.old out.new) }
    ensures refused { IfOk result (λ count. count ≡ refusals (line_read read.now)) }
{
    put_line_text(alloc, out, room, number, read, recode)?;
    Ok(refusals(read))
}

/// What one line after the other is listed in: room for its octets and for its lines, its text, and the listing of an empty line.
#[derive(Drop)]
pub struct Desk {
    frame: Vec<u8>,
    room: Room,
    pub text: Bytes,
    pub empty: EmptyLine,
}

impl Desk {
    /// A desk without a text.
    pub fn new(alloc: Global) -> Desk {
        Desk {
            frame: Vec::new(alloc),
            room: Room::new(),
            text: Bytes::new(alloc),
            empty: EmptyLine::new(),
        }
    }
}

// Puts the listing of a refused line, the line of this number, and gives 1.
fn put_refused(
    alloc: Global,
    desk: &mut Desk,
    number: u64,
    refusal: Refusal,
    recode: bool,
) -> Result<u64, AllocError>
    ensures text { OnOk result (Wrote (IsLineText recode number (Err refusal)) desk.old.text desk.new.text) }
    ensures refused { IfOk result (λ count. count ≡ 1) }
{
    let read = LineRead::Refused(refusal);
    put_read(alloc, &mut desk.text, &mut desk.room, number, &read, recode)
}

/// Puts the listing of the line of this number, and gives 1 where the line is refused, else 0.
pub fn put_line(
    alloc: Global,
    desk: &mut Desk,
    number: u64,
    line: &[u8],
    recode: bool,
) -> Result<u64, AllocError>
    ensures { IfOk result (λ count. Wrote (IsListing recode number line.now count) desk.old.text desk.new.text) }
{
    match fill(alloc, &mut desk.frame, line) {
        Ok(count) => {
            let read = read_frame(alloc, &desk.frame.as_slice()[..count])?;
            put_read(alloc, &mut desk.text, &mut desk.room, number, &read, recode)
        }
        Err(DecodeFault::Refused(refusal)) => put_refused(alloc, desk, number, refusal, recode),
        Err(DecodeFault::Memory(e)) => Err(e),
    }
}
