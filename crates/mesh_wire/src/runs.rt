//! Address blocks, whose TLVs cover runs of addresses that have the same kind of part (RFC 5444, sections 5.3 and 5.4).
ghost use Rattle.std.specs.Prelude.{◌≡◌, ◌+◌, ◌++◌, ◌*◌, ◌<◌, ◌≤◌, length, map, drop, slice_range, IfOk, OnOk};
ghost use Rattle.mesh_tlv.specs.Fields.{addr_fields};
ghost use Rattle.mesh_packet.specs.Fields.{fields_of_block};
ghost use Rattle.mesh_wire.specs.Lines.{columns, column_text, columns_text};
ghost use Rattle.mesh_wire.specs.Runs.{host_octets, raw_of, leading, have_pair, run_of, Adds, Lays, LaysAll, IsBlock, AreBlocks};

use crate::lines::{AddressRecord, AddressTlvKind, COLUMNS};
use mesh_addr::{AddrBlock, RawAddr};
use mesh_atoms::{Addr4, Seq, octets_of_address};
use mesh_packet::Block;
use mesh_tlv::AddrTlv;
use std::alloc::{AllocError, Global};

/// The most addresses of a block.
const LONGEST: usize = 255;

/// An address of that prefix as it stands in a block.
pub(crate) fn raw_of(address: Addr4, prefix: u8) -> RawAddr
    ensures { result ≡ record { octets = host_octets address.0; prefix = prefix } }
{
    let [a, b, c, d] = octets_of_address(address);
    RawAddr {
        octets: [a, b, c, d, 0, 0, 0, 0, 0, 0, 0, 0, 0, 0, 0, 0],
        prefix,
    }
}

// The addresses of lines.
fn raw_addresses(alloc: Global, lines: &[AddressRecord]) -> Result<Seq<RawAddr>, AllocError>
    ensures { IfOk result (λ addrs. addrs ≡ map (λ l. raw_of l.net) lines.now) }
{
    let mut addrs = Seq::new(alloc);
    for line in lines {
        addrs.push(raw_of(line.net.addr, line.net.prefix))?;
    }
    Ok(addrs)
}

// How many lines at the front have the part.
fn leading(column: AddressTlvKind, lines: &[AddressRecord]) -> usize
    ensures count { result ≡ leading column lines.now }
    ensures within { result ≤ length lines.now }
{
    match lines {
        [] => 0,
        [line, rest @ ..] => {
            if line.octet_pair(column).is_some() {
                1 + leading(column, rest)
            } else {
                0
            }
        }
    }
}

// Whether all lines have that pair.
fn have_pair(column: AddressTlvKind, pair: Option<(u8, u8)>, lines: &[AddressRecord]) -> bool
    ensures { result ≡ have_pair column pair lines.now }
{
    match lines {
        [] => true,
        [line, rest @ ..] => line.octet_pair(column) == pair && have_pair(column, pair, rest),
    }
}

// How many octets the values of lines take.
fn text_len(column: AddressTlvKind, lines: &[AddressRecord]) -> usize
    ensures { result ≡ length (column_text column lines.now) }
{
    if column.is_wide() {
        2 * lines.len()
    } else {
        lines.len()
    }
}

// The values of the lines from `start` to `end`.
fn text_between<'a>(
    column: AddressTlvKind,
    lines: &[AddressRecord],
    text: &'a [u8],
    start: usize,
    end: usize,
) -> &'a [u8]
    requires start { start ≤ end }
    requires end { end ≤ length lines.now }
    requires text { text.now ≡ column_text column lines.now }
    ensures { result.now ≡ column_text column (slice_range lines.now start end) }
{
    &text[text_len(column, &lines[..start])..text_len(column, &lines[..end])]
}

// The TLV of a run of lines that all have the part, of which the first has that place in its block: with one value where
// all are the same, else with a value for each.
fn run_of<'a>(
    column: AddressTlvKind,
    lines: &[AddressRecord],
    text: &'a [u8],
    first: u8,
) -> AddrTlv<'a>
    requires some { 0 < length lines.now }
    requires room { first + length lines.now ≤ 255 }
    requires text { text.now ≡ column_text column lines.now }
    ensures { addr_fields result ≡ run_of column first lines.now }
{
    let same = have_pair(column, lines[0].octet_pair(column), lines);
    AddrTlv {
        kind: column.kind(),
        ext: 0,
        first,
        last: first + (lines.len() - 1) as u8,
        multi: !same,
        value: Some(if same {
            text_between(column, lines, text, 0, 1)
        } else {
            text
        }),
    }
}

// Appends the TLVs of a column: one for each longest run of lines that have the part.
fn put_runs<'a>(
    column: AddressTlvKind,
    lines: &[AddressRecord],
    text: &'a [u8],
    tlvs: &mut Seq<AddrTlv<'a>>,
) -> Result<(), AllocError>
    requires room { length lines.now ≤ 255 }
    requires text { text.now ≡ column_text column lines.now }
    ensures { OnOk result (Adds (Lays column lines.now) (map addr_fields tlvs.old) (map addr_fields tlvs.new)) }
{
    let mut first = 0;
    while first < lines.len() {
        let end = first + leading(column, &lines[first..]);
        if first < end {
            let part = text_between(column, lines, text, first, end);
            tlvs.push(run_of(column, &lines[first..end], part, first as u8))?;
        }
        first = end + 1;
    }
    Ok(())
}

// Appends the TLVs of several columns over the lines from `start` to `end`. The values are those of all lines.
fn put_columns<'a>(
    columns: &[AddressTlvKind],
    lines: &[AddressRecord],
    start: usize,
    end: usize,
    values: &'a [u8],
    tlvs: &mut Seq<AddrTlv<'a>>,
) -> Result<(), AllocError>
    requires start { start ≤ end }
    requires end { end ≤ length lines.now }
    requires room { end ≤ start + 255 }
    requires values { values.now ≡ columns_text columns.now lines.now }
    ensures { OnOk result (Adds (LaysAll columns.now (slice_range lines.now start end)) (map addr_fields tlvs.old) (map addr_fields tlvs.new)) }
{
    match columns {
        [] => Ok(()),
        [column, rest @ ..] => {
            let (text, others) = first_column(*column, rest, lines, values);
            let part = text_between(*column, lines, text, start, end);
            put_runs(*column, &lines[start..end], part, tlvs)?;
            put_columns(rest, lines, start, end, others, tlvs)
        }
    }
}

// The values of the first column, and those of the others.
fn first_column<'a>(
    column: AddressTlvKind,
    others: &[AddressTlvKind],
    lines: &[AddressRecord],
    values: &'a [u8],
) -> (&'a [u8], &'a [u8])
    requires values { values.now ≡ column_text column lines.now ++ columns_text others.now lines.now }
    ensures first { result.0.now ≡ column_text column lines.now }
    ensures others { result.1.now ≡ columns_text others.now lines.now }
{
    let len = text_len(column, lines);
    (&values[..len], &values[len..])
}

// The block of the lines from `start` to `end`.
fn block_of<'a>(
    alloc: Global,
    lines: &[AddressRecord],
    start: usize,
    end: usize,
    values: &'a [u8],
) -> Result<Block<'a>, AllocError>
    requires start { start ≤ end }
    requires end { end ≤ length lines.now }
    requires room { end ≤ start + 255 }
    requires values { values.now ≡ columns_text columns lines.now }
    ensures { IfOk result (λ block. IsBlock (slice_range lines.now start end) (fields_of_block block)) }
{
    let addrs = raw_addresses(alloc, &lines[start..end])?;
    let mut tlvs = Seq::new(alloc);
    put_columns(&COLUMNS, lines, start, end, values, &mut tlvs)?;
    Ok(Block {
        addrs: AddrBlock { width: 4, addrs },
        tlvs,
    })
}

// Appends the blocks of the lines from `start` on.
fn put_blocks<'a>(
    alloc: Global,
    lines: &[AddressRecord],
    start: usize,
    values: &'a [u8],
    blocks: &mut Seq<Block<'a>>,
) -> Result<(), AllocError>
    requires start { start ≤ length lines.now }
    requires values { values.now ≡ columns_text columns lines.now }
    ensures { OnOk result (Adds (AreBlocks (drop start lines.now)) (map fields_of_block blocks.old) (map fields_of_block blocks.new)) }
{
    if start == lines.len() {
        return Ok(());
    }
    let end = usize::min(lines.len() - start, LONGEST) + start;
    let block = block_of(alloc, lines, start, end, values)?;
    blocks.push(block)?;
    put_blocks(alloc, lines, end, values, blocks)
}

/// The blocks of all lines, in their order. The values are those that `lay` lays.
pub(crate) fn blocks_of<'a>(
    alloc: Global,
    lines: &[AddressRecord],
    values: &'a [u8],
) -> Result<Seq<Block<'a>>, AllocError>
    requires { values.now ≡ columns_text columns lines.now }
    ensures { IfOk result (λ blocks. AreBlocks lines.now (map fields_of_block blocks)) }
{
    let mut blocks = Seq::new(alloc);
    put_blocks(alloc, lines, 0, values, &mut blocks)?;
    Ok(blocks)
}
