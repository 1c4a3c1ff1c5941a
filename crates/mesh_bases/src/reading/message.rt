//! What one message of a frame reads as (RFC 6130, section 10, and RFC 7181, section 13).
ghost use Rattle.std.specs.Prelude.{◌≡◌, IfOk};
ghost use Rattle.mesh_bases.specs.Reading.Message.{IsReadAs, IsReadAsBroken};
ghost use Rattle.mesh_packet.specs.Fields.{MessageFields, fields_of_message};
ghost use Rattle.mesh_wire.specs.Answers.{IfBroken};

use crate::reading::heading::{heading_of, heading_of_tc};
use mesh_atoms::{Hello, Tc};
use mesh_flood::Heading;
use mesh_packet::Message;
use mesh_wire::{WireFault, hello_of, tc_of};
use std::alloc::{AllocError, Global};

/// What a message reads as, by its type.
pub enum TypedMessage {
    /// A HELLO that breaks no rule (RFC 6130, section 10).
    Hello(Hello),
    /// A TC that breaks no rule (RFC 7181, section 13), with its heading.
    Tc(Heading, Tc),
    /// A HELLO or a TC that breaks the rule of that number, and none of a lower one.
    Broken(u8),
    /// A message of another type: its heading, where it can be flooded.
    Other(Option<Heading>),
}

// By hand, so that no crate that lets go of one has to know its parts.
impl Drop for TypedMessage {
    fn drop(self) {
        match self {
            TypedMessage::Hello(_) => {}
            TypedMessage::Tc(_, _) => {}
            TypedMessage::Broken(_) => {}
            TypedMessage::Other(_) => {}
        }
    }
}

// A message that breaks a rule reads as that; an allocation failure stays that.
fn broken(fault: WireFault) -> Result<TypedMessage, AllocError>
    ensures { (message : MessageFields) → IfBroken (λ number net. IsReadAsBroken message number) fault → IfOk result (IsReadAs message) }
{
    match fault {
        WireFault::Broken { number, addr: _ } => Ok(TypedMessage::Broken(number)),
        WireFault::Memory(e) => Err(e),
    }
}

// What a HELLO reads as.
fn read_hello(alloc: Global, message: &Message) -> Result<TypedMessage, AllocError>
    requires kind { message.now.kind ≡ 0 }
    ensures { IfOk result (IsReadAs (fields_of_message message.now)) }
{
    match hello_of(alloc, message) {
        Ok(hello) => Ok(TypedMessage::Hello(hello)),
        Err(fault) => broken(fault),
    }
}

// What a TC reads as.
fn read_tc(alloc: Global, message: &Message) -> Result<TypedMessage, AllocError>
    requires kind { message.now.kind ≡ 1 }
    ensures { IfOk result (IsReadAs (fields_of_message message.now)) }
{
    match tc_of(alloc, message) {
        Ok(tc) => Ok(TypedMessage::Tc(heading_of_tc(message, &tc), tc)),
        Err(fault) => broken(fault),
    }
}

/// What a message reads as.
pub(crate) fn typed_message(alloc: Global, message: &Message) -> Result<TypedMessage, AllocError>
    ensures { IfOk result (IsReadAs (fields_of_message message.now)) }
{
    match message.kind {
        0 => read_hello(alloc, message),
        1 => read_tc(alloc, message),
        _ => Ok(TypedMessage::Other(heading_of(message))),
    }
}
