//! Writing an address block in the fewest octets.
ghost use Rattle.std.specs.Prelude.{◌≡◌, ◌≤◌, ◌<◌, ◌+◌, ◌++◌, length, OnOk, OnErr};
ghost use Rattle.mesh_addr.specs.Grammar.{prefixes, IsWritable};
ghost use Rattle.mesh_addr.specs.Spelling as spelling;
ghost use Rattle.mesh_addr.specs.Spelling.{tail_len, IsPossible, IsBestOf};
ghost use Rattle.mesh_addr.specs.Least.{Grew, IsFirst, WroteLeast};

use crate::choices::{Choice, PrefixForm, TailForm, best, form_of, limits_of};
use crate::flags::{EACH_PREFIX, FULL_TAIL, HEAD, ONE_PREFIX, ZERO_TAIL};
use crate::records::{AddrBlock, RawAddr};
use mesh_atoms::Bytes;
use std::alloc::AllocError;

/// The flags of a spelling.
fn flags_of(choice: Choice, form: PrefixForm) -> u8
    ensures { result ≡ spelling.flags_of choice form }
{
    let head = if choice.head == 0 { 0 } else { HEAD };
    let tail = match choice.tail {
        TailForm::Absent => 0,
        TailForm::Zeros(_) => ZERO_TAIL,
        TailForm::Full(_) => FULL_TAIL,
    };
    let prefixes = match form {
        PrefixForm::Absent => 0,
        PrefixForm::One => ONE_PREFIX,
        PrefixForm::Each => EACH_PREFIX,
    };
    head + tail + prefixes
}

/// Appends the length of the head and the head, where there is one.
fn write_head(out: &mut Bytes, first: &RawAddr, head: usize) -> Result<(), AllocError>
    requires { head ≤ 16 }
    ensures ok { OnOk result (out.new ≡ out.old ++ spelling.head_text head first.now) }
    ensures err { OnErr result (Grew out.old out.new) }
{
    if head == 0 {
        return Ok(());
    }
    out.push(head as u8)?;
    out.append(&first.octets[..head])
}

/// Appends the length of the tail and the octets of a full one, where there is one.
fn write_tail(
    out: &mut Bytes,
    first: &RawAddr,
    tail: TailForm,
    width: usize,
) -> Result<(), AllocError>
    requires tail { tail_len tail ≤ width }
    requires width { width ≤ 16 }
    ensures ok { OnOk result (out.new ≡ out.old ++ spelling.tail_text tail width first.now) }
    ensures err { OnErr result (Grew out.old out.new) }
{
    match tail {
        TailForm::Absent => Ok(()),
        TailForm::Zeros(len) => out.push(len as u8),
        TailForm::Full(len) => {
            out.push(len as u8)?;
            out.append(&first.octets[width - len..width])
        }
    }
}

/// Appends the octets from `start` to `end` of each address.
fn write_mids(
    out: &mut Bytes,
    addrs: &[RawAddr],
    start: usize,
    end: usize,
) -> Result<(), AllocError>
    requires start { start ≤ end }
    requires end { end ≤ 16 }
    ensures ok { OnOk result (out.new ≡ out.old ++ spelling.mids_text start end addrs.now) }
    ensures err { OnErr result (Grew out.old out.new) }
{
    match addrs {
        [] => Ok(()),
        [a, rest @ ..] => {
            out.append(&a.octets[start..end])?;
            write_mids(out, rest, start, end)
        }
    }
}

/// Appends the prefix length of each address.
fn write_each_prefix(out: &mut Bytes, addrs: &[RawAddr]) -> Result<(), AllocError>
    ensures ok { OnOk result (out.new ≡ out.old ++ prefixes addrs.now) }
    ensures err { OnErr result (Grew out.old out.new) }
{
    match addrs {
        [] => Ok(()),
        [a, rest @ ..] => {
            out.push(a.prefix)?;
            write_each_prefix(out, rest)
        }
    }
}

/// Appends the prefix lengths in that form.
fn write_prefixes(
    out: &mut Bytes,
    form: PrefixForm,
    first: &RawAddr,
    addrs: &[RawAddr],
) -> Result<(), AllocError>
    ensures ok { OnOk result (out.new ≡ out.old ++ spelling.prefixes_text form first.now addrs.now) }
    ensures err { OnErr result (Grew out.old out.new) }
{
    match form {
        PrefixForm::Absent => Ok(()),
        PrefixForm::One => out.push(first.prefix),
        PrefixForm::Each => write_each_prefix(out, addrs),
    }
}

/// Appends the whole block as the choice and the form say.
#[tactic(auto, unfolding(crate::specs::Spelling::text_of))]
fn write_spelling(
    out: &mut Bytes,
    width: usize,
    first: &RawAddr,
    addrs: &[RawAddr],
    choice: Choice,
    form: PrefixForm,
) -> Result<(), AllocError>
    requires count { length addrs.now ≤ 255 }
    requires width { width ≤ 16 }
    requires fits { choice.head + tail_len choice.tail ≤ width }
    ensures ok { OnOk result (out.new ≡ out.old ++ spelling.text_of width first.now addrs.now choice form) }
    ensures err { OnErr result (Grew out.old out.new) }
{
    out.push(addrs.len() as u8)?;
    out.push(flags_of(choice, form))?;
    write_head(out, first, choice.head)?;
    write_tail(out, first, choice.tail, width)?;
    write_mids(out, addrs, choice.head, width - choice.tail.len())?;
    write_prefixes(out, form, first, addrs)
}

/// The best choice for these addresses.
fn best_choice(width: usize, first: &RawAddr, addrs: &[RawAddr]) -> Choice
    requires some { 0 < length addrs.now }
    requires count { length addrs.now ≤ 255 }
    requires width { width ≤ 16 }
    ensures best { IsBestOf width (length addrs.now) (IsPossible width first.now addrs.now) result }
    ensures fits { result.head + tail_len result.tail ≤ width }
{
    best(width, addrs.len(), limits_of(width, first, addrs))
}

/// Appends the block of some addresses, of which one is the first.
fn write_first(
    out: &mut Bytes,
    width: u8,
    first: &RawAddr,
    addrs: &[RawAddr],
) -> Result<(), AllocError>
    requires first { IsFirst first.now addrs.now }
    requires writable { IsWritable width addrs.now }
    ensures least { OnOk result (WroteLeast width addrs.now out.old out.new) }
    ensures err { OnErr result (Grew out.old out.new) }
{
    let choice = best_choice(width as usize, first, addrs);
    let form = form_of(width, first, addrs);
    write_spelling(out, width as usize, first, addrs, choice, form)
}

/// Appends the block in the fewest octets (RFC 5444, section 5.3). Among several spellings of that length it takes the
/// shortest head; then no tail, else one of zeros, else a full one; then the shortest tail; then one prefix length before
/// one for each address. The block has 1 to 255 addresses and a width of 1 to 16 octets; each address has zeros after
/// those, and a prefix of at most 8 times the width. After an allocation failure the old octets are a prefix of `out`.
pub fn write_least(block: &AddrBlock, out: &mut Bytes) -> Result<(), AllocError>
    requires { IsWritable block.now.width block.now.addrs }
    // What is appended is a spelling of the block, and no spelling has fewer octets.
    ensures least { OnOk result (WroteLeast block.now.width block.now.addrs out.old out.new) }
    // After an allocation failure the old octets are a prefix.
    ensures err { OnErr result (Grew out.old out.new) }
{
    let addrs = block.addrs.as_slice();
    match addrs {
        [] => unreachable!(),
        [first, ..] => write_first(out, block.width, first, addrs),
    }
}
