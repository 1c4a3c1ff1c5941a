//! The relays that the end of a relay line tells.
ghost use Rattle.std.specs.Prelude.{◌≡◌, ◌∷◌, ◌++◌, ◌<◌, ◌≤◌, ◌^◌, ◌↔◌, List, length, Some, IfOk, IfSome, IsNone, IsTrue};
ghost use Rattle.mesh_atoms.specs.declared.addr.Addr4.{Addr4 as Address};
ghost use Rattle.mesh_texts.specs.Lines.Marks.{dotted, spaced, relays_text};
ghost use Rattle.mesh_replay.specs.Checking.RelayLines.{AreWide};
ghost use Rattle.mesh_replay.specs.Checking.Texts.{ReadsText};

use memchr::memchr;
use mesh_atoms::{Addr4, Bytes, Seq, address_of};
use mesh_texts::{Piece, put_all};
use std::alloc::{AllocError, Global};

// The address that a word tells.
fn address_in(word: &[u8]) -> Option<Addr4>
    ensures { (addr : Address) → addr.0 < 2 ^ 32 → word.now ≡ dotted addr → result ≡ Some addr }
{
    if word == b"0.0.0.0".as_slice() {
        return Some(Addr4(0));
    }
    address_of(word)
}

// The text up to the first blank, and what stands from there on.
fn first_word(text: &[u8]) -> (&[u8], &[u8])
    ensures read { (addr : Address) (more : List Address) → text.now ≡ dotted addr ++ spaced more
        → (result.0.now ≡ dotted addr) × (result.1.now ≡ spaced more) }
    ensures within { length result.1.now ≤ length text.now }
{
    match memchr(b' ', text) {
        Some(end) => text.split_at(end),
        None => (text, b""),
    }
}

// The first address of a text, behind a blank, and what follows it.
fn first_address(text: &[u8]) -> Option<(Addr4, &[u8])>
    ensures none { IsNone result → (addr : Address) (more : List Address) → addr.0 < 2 ^ 32 → text.now ≡ spaced (addr ∷ more) → ⊥ }
    ensures some { IfSome result (λ read. (addr : Address) (more : List Address) → addr.0 < 2 ^ 32 → text.now ≡ spaced (addr ∷ more)
        → (read.0 ≡ addr) × (read.1.now ≡ spaced more)) }
    ensures shorter { IfSome result (λ read. length read.1.now < length text.now) }
{
    let [b' ', text @ ..] = text else {
        return None;
    };
    let (word, rest) = first_word(text);
    Some((address_in(word)?, rest))
}

// The addresses of a text, each behind a blank. Of a text that they don't spell, it may be any.
fn addresses_in(alloc: Global, text: &[u8]) -> Result<Option<Seq<Addr4>>, AllocError>
    ensures { IfOk result (λ read. (addrs : List Address) → AreWide addrs → text.now ≡ spaced addrs → read ≡ Some addrs) }
{
    let mut addrs = Seq::new(alloc);
    let mut left = text;
    while !left.is_empty() {
        let Some((addr, rest)) = first_address(left) else {
            return Ok(None);
        };
        addrs.push(addr)?;
        left = rest;
    }
    Ok(Some(addrs))
}

// Whether a text tells these relays.
fn tells(alloc: Global, text: &[u8], relays: &[Addr4]) -> Result<bool, AllocError>
    ensures { IfOk result (λ b. IsTrue b ↔ (relays_text relays.now ≡ text.now)) }
{
    let mut written = Bytes::new(alloc);
    put_all(&mut written, &[Piece::Relays(relays)])?;
    Ok(written.as_slice() == text)
}

/// The relays that the end of a relay line tells: ` none`, or addresses, each behind a blank; `None` where it tells none.
pub(crate) fn relays_in(alloc: Global, text: &[u8]) -> Result<Option<Seq<Addr4>>, AllocError>
    ensures { IfOk result (ReadsText AreWide relays_text text.now) }
{
    if text == b" none".as_slice() {
        return Ok(Some(Seq::new(alloc)));
    }
    let Some(relays) = addresses_in(alloc, text)? else {
        return Ok(None);
    };
    if tells(alloc, text, relays.as_slice())? {
        Ok(Some(relays))
    } else {
        Ok(None)
    }
}
