//! A frame with what it reads as (RFC 5444, RFC 6130 and RFC 7181), which is the same for each router that hears it.

mod content;
mod heading;
mod message;
mod typed_frame;

pub(crate) use crate::reading::content::typed_messages;
pub use crate::reading::content::{FrameContent, ReadPacket, read_content};
pub use crate::reading::message::TypedMessage;
pub use crate::reading::typed_frame::TypedFrame;
