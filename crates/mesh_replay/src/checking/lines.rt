//! The lines whose text is fixed.
ghost use Rattle.std.specs.Prelude.{◌≡◌, ◌++◌, IfOk, OnOk};
ghost use Rattle.mesh_replay.specs.Checking.Texts.{TakesText, front_text, told_text, text_of};
ghost use Rattle.mesh_trace.specs.Reading.Readers.{IsReaderOf};

use mesh_atoms::{Addr4, Bytes, RouterSettings, Scenario};
use mesh_texts::{
    FrameLine, Piece, face_name, put_all, put_frame_line, put_lost_line, put_tick_line,
};
use mesh_trace::Reader;
use std::alloc::AllocError;

/// A line whose text is fixed: of a router's tick, of a frame of given octets that a router hears or sends, of the loss of a frame on an
/// arc, or of given relays, of an interface or for routing.
#[derive(Clone, Copy)]
pub(crate) enum DueLine<'a> {
    Tick {
        moment: u64,
        settings: &'a RouterSettings,
    },
    Frame(FrameLine<'a>),
    Lost {
        moment: u64,
        scenario: &'a Scenario,
        arc: usize,
    },
    Relays {
        settings: &'a RouterSettings,
        iface: Option<usize>,
        relays: &'a [Addr4],
    },
}

/// Puts what stands before the relays in a relay line: of an interface, or for routing.
pub(crate) fn put_front(
    out: &mut Bytes,
    settings: &RouterSettings,
    iface: Option<usize>,
) -> Result<(), AllocError>
    ensures { OnOk result (out.new ≡ out.old ++ front_text settings.now iface) }
{
    let name = settings.name.as_slice();
    match iface {
        Some(iface) => {
            let face = face_name(settings.interfaces.as_slice(), iface);
            put_all(
                out,
                &[
                    Piece::Text(b"relays "),
                    Piece::Text(name),
                    Piece::Text(b" flooding "),
                    Piece::Text(face),
                ],
            )
        }
        None => put_all(
            out,
            &[
                Piece::Text(b"relays "),
                Piece::Text(name),
                Piece::Text(b" routing"),
            ],
        ),
    }
}

// Puts a relay line.
fn put_told(
    out: &mut Bytes,
    settings: &RouterSettings,
    iface: Option<usize>,
    relays: &[Addr4],
) -> Result<(), AllocError>
    ensures { OnOk result (out.new ≡ out.old ++ told_text settings.now iface relays.now) }
{
    put_front(out, settings, iface)?;
    put_all(out, &[Piece::Relays(relays), Piece::Text(b"\n")])
}

// Puts a line.
fn put_due(out: &mut Bytes, line: &DueLine) -> Result<(), AllocError>
    ensures { OnOk result (out.new ≡ out.old ++ text_of line.now) }
{
    match *line {
        DueLine::Tick { moment, settings } => {
            put_tick_line(out, moment, settings.name.as_slice())
        }
        DueLine::Frame(line) => put_frame_line(out, &line),
        DueLine::Lost {
            moment,
            scenario,
            arc,
        } => put_lost_line(out, scenario, moment, arc),
        DueLine::Relays {
            settings,
            iface,
            relays,
        } => put_told(out, settings, iface, relays),
    }
}

/// Takes the next line if it is this one.
pub(crate) fn take_due(
    trace: &[u8],
    line: &DueLine,
    reader: &mut Reader,
) -> Result<bool, AllocError>
    requires { IsReaderOf trace.now reader.old }
    ensures { IfOk result (TakesText trace.now reader.old reader.new (text_of line.now)) }
{
    reader.text.clear();
    put_due(&mut reader.text, line)?;
    Ok(reader.expect(trace))
}
