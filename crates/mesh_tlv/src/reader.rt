//! Reading items of one kind, which stand one after the other and fill a range of a frame.
ghost use Rattle.std.specs.Prelude.{◌≤◌, ◌-◌, length, IfOk};
ghost use Rattle.mesh_atoms.specs.Reading.{Gives};
ghost use Rattle.mesh_tlv.specs.Items.{items_at, all_by_fields};

use mesh_atoms::{DecodeFault, Seq};
use std::alloc::Global;

/// Reads an item of one kind: a TLV of a message, a TLV of an address block, or an address block with its TLVs.
pub trait ItemReader<'a>: Copy {
    ghost use Rattle.std.specs.Prelude.{◌≤◌, ◌<◌, ℕ, List, length, IfOk};
    ghost use Rattle.mesh_atoms.specs.Reading.{Reading, Gives};
    ghost use Rattle.mesh_tlv.specs.Items.{by_fields};

    /// What is read. TLV values are slices of the frame.
    type Item: Drop;

    /// An item without where its values lie in memory.
    ghost Fields: { Type 0 };

    ghost fields: { Self.Item → Fields };

    /// Whether there are items of such a kind.
    ghost can_read: { Self → Type 0 };

    /// How one is read at a place, field by field.
    ghost item_at: { Self → List ℕ → ℕ → ℕ → Reading Fields };

    /// The item at `at` in a range that goes up to `end`, and the place after it. Places are counted in octets from the
    /// start of the frame. An allocation failure may come in place of any other answer.
    fn read(
        self,
        alloc: Global,
        frame: &'a [u8],
        at: usize,
        end: usize,
    ) -> Result<(Self::Item, usize), DecodeFault>
        requires can { can_read self }
        requires at { at < end }
        requires end { end ≤ length frame.now }
        ensures exact { Gives (by_fields fields) result (item_at self frame.now at end) }
        ensures after { IfOk result (λ x. (at ≤ x.1) × (x.1 ≤ end)) };
}

/// Reads the items that stand from `at` up to `end` of a frame, in order. `Refused` has the first fault. An allocation failure may
/// come in place of any other answer.
pub fn read_items<'a, R: ItemReader<'a>>(
    alloc: Global,
    reader: R,
    frame: &'a [u8],
    at: usize,
    end: usize,
) -> Result<(Seq<R::Item>, usize), DecodeFault>
    requires can { R.can_read reader }
    requires at { at ≤ end }
    requires end { end ≤ length frame.now }

    // How they are read, one after the other.
    ensures exact { Gives (all_by_fields R.fields) result (items_at (R.item_at reader frame.now) (end - at) at end) }

    // The place that is given stands in the range.
    ensures after { IfOk result (λ x. (at ≤ x.1) × (x.1 ≤ end)) }
{
    let mut items = Seq::new(alloc);
    let mut place = at;
    for _ in 0..end - at {
        if place == end {
            break;
        }
        let (item, after) = reader.read(alloc, frame, place, end)?;
        items.push(item)?;
        place = after;
    }
    Ok((items, place))
}
