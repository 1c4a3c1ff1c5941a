//! What stands before the rows of a message, and its rows, which are made of what is kept of its addresses (RFC 6130, section 10, and RFC 7181,
//! section 13.3).
ghost use Rattle.std.specs.Prelude.{◌≡◌, map, IfOk, IfErr, None, Ok};
ghost use Rattle.mesh_packet.specs.Fields.{fields_of_block};
ghost use Rattle.mesh_wire.specs.Answers.{IfBroken};
ghost use Rattle.mesh_wire.specs.Entries.{of_blocks};
ghost use Rattle.mesh_wire.specs.Made.{BreakNone, BreaksFirst, HasKept};
ghost use Rattle.mesh_wire.specs.RowRules.{sooner, first_rule, rule_of};

use crate::collect::{AddressParts, collect};
use crate::fault::WireFault;
use mesh_atoms::{NetAddr, Seq};
use mesh_packet::Message;
use std::alloc::{AllocError, Global};

/// The types of messages whose addresses have rules.
#[derive(Clone, Copy)]
pub(crate) enum TypedKind {
    Hello,
    Tc,
}

/// What a message says before its rows, and how many rows it has.
#[derive(Clone, Copy)]
pub struct MessageSummary<H: Copy> {
    pub header: H,
    pub row_count: usize,
}

/// A row of messages of one type, made of what is kept of an address.
pub(crate) trait Row: Sized + Drop {
    ghost use Rattle.std.specs.Prelude.{◌≡◌};
    ghost use Rattle.mesh_wire.specs.declared.collect.AddressParts.{AddressParts};

    /// The row of what is kept.
    ghost row_of: { AddressParts → Self };

    fn of_told(told: &AddressParts) -> Self
        ensures { result ≡ row_of told.now };
}

// The first rule on the addresses of a message of that type that a row breaks.
fn rule_of(kind: TypedKind, told: &AddressParts) -> Option<u8>
    ensures { result ≡ rule_of kind told.now }
{
    match kind {
        TypedKind::Hello => told.hello_rule(),
        TypedKind::Tc => told.tc_rule(),
    }
}

// What was found, or what a later row breaks, where its rule has a lower number.
fn sooner(found: Option<(u8, NetAddr)>, number: Option<u8>, net: NetAddr) -> Option<(u8, NetAddr)>
    ensures { result ≡ sooner found number net }
{
    let Some(number) = number else {
        return found;
    };
    match found {
        Some((first, at)) => {
            if number < first {
                Some((number, net))
            } else {
                Some((first, at))
            }
        }
        None => Some((number, net)),
    }
}

// The rule of least number that a row breaks, and the first row that breaks it.
fn first_rule(kind: TypedKind, told: &[AddressParts]) -> Option<(u8, NetAddr)>
    ensures { result ≡ first_rule (rule_of kind) None told.now }
{
    let mut found = None;
    for i in 0..told.len() {
        found = sooner(found, rule_of(kind, &told[i]), told[i].net);
    }
    found
}

/// The rows, in the same order.
pub(crate) fn rows_of<R: Row>(alloc: Global, told: &[AddressParts]) -> Result<Seq<R>, AllocError>
    ensures { IfOk result (λ rows. rows ≡ map R.row_of told.now) }
{
    let mut rows = Vec::with_capacity(alloc, told.len())?;
    for kept in told {
        rows.push(R::of_told(kept))?;
    }
    Ok(Seq::from_vec(rows))
}

/// What a message of that type says before its rows, and what is kept of its addresses. Where what stands before the rows breaks a rule, the
/// fault is that rule; where an address does, it is the one of least number, at the least address that breaks it.
pub(crate) fn kept_of<H: Copy>(
    alloc: Global,
    message: &Message,
    header: Result<H, u8>,
    kind: TypedKind,
) -> Result<(H, Vec<AddressParts>), WireFault>
    ensures header { IfOk result (λ x. header ≡ Ok x.0) }
    ensures kept { IfOk result (λ x. BreakNone (rule_of kind) (of_blocks (map fields_of_block message.now.blocks)) x.1.items) }
    ensures broken { IfErr result (IfBroken (BreaksFirst header (rule_of kind) (of_blocks (map fields_of_block message.now.blocks)))) }
{
    let header = match header {
        Ok(header) => header,
        Err(number) => {
            return Err(WireFault::Broken { number, addr: None });
        }
    };
    let told = collect(alloc, message)?;
    if let Some((number, net)) = first_rule(kind, told.as_slice()) {
        return Err(WireFault::Broken {
            number,
            addr: Some(net),
        });
    }
    Ok((header, told))
}

/// What a message of that type says before its rows, and how many rows it has. No row is made. The faults are those of `kept_of`.
pub(crate) fn summary_of<H: Copy>(
    alloc: Global,
    message: &Message,
    header: Result<H, u8>,
    kind: TypedKind,
) -> Result<MessageSummary<H>, WireFault>
    ensures header { IfOk result (λ summary. header ≡ Ok summary.header) }
    ensures kept { IfOk result (λ summary. HasKept (rule_of kind) (of_blocks (map fields_of_block message.now.blocks)) summary.row_count) }
    ensures broken { IfErr result (IfBroken (BreaksFirst header (rule_of kind) (of_blocks (map fields_of_block message.now.blocks)))) }
{
    let (header, told) = kept_of(alloc, message, header, kind)?;
    Ok(MessageSummary {
        header,
        row_count: told.len(),
    })
}
