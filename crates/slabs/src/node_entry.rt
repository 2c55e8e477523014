// Slot words: a live step with its slab, or a free slot with its neighbours in the free chain.
ghost use Rattle.std.specs.Prelude.{◌≡◌, ◌+◌, ◌*◌, ◌≤◌, length};
ghost use Rattle.slabs.specs.NodeEntry.{width, node_entry, set_entry, inlets_of, inlet_ports, outlet_ports, spare_ports};

use crate::rows::{read_row, write_row};

// The words of a slot. A later request adds a fifth.
pub const WIDTH: usize = 4;

// A live slot: its slab starts at `first` and holds `capacity` ports.
#[derive(Clone, Copy, PartialEq, Eq)]
pub struct NodeMeta {
    pub first: u32,
    pub inlets: u32,
    pub outlets: u32,
    pub capacity: u32,
}

// What a slot says. The neighbours of a free slot are chain words, a slot plus 1 and 0 for none, as they stand in the table (`set_entry`). An enum
// of its own, since both sides carry words.
#[derive(Clone, Copy, PartialEq, Eq)]
pub enum NodeEntry {
    Free { previous: u32, next: u32 },
    Node(NodeMeta),
}

// Ports from `start` up to, and not including, `end`. std's `Range` is no `Copy`, and whoever holds this may use it twice.
#[derive(Clone, Copy, PartialEq, Eq)]
pub struct PortRange {
    pub start: usize,
    pub end: usize,
}

// The ports of a live slot, each kind in a row.
impl NodeMeta {
    pub fn inlet_ports(self) -> PortRange
        ensures { result ≡ inlet_ports self }
    {
        let start = self.first as usize;
        PortRange {
            start,
            end: start + self.inlets as usize,
        }
    }

    pub fn outlet_ports(self) -> PortRange
        ensures { result ≡ outlet_ports self }
    {
        let start = self.first as usize + self.inlets as usize;
        PortRange {
            start,
            end: start + self.outlets as usize,
        }
    }

    pub fn spare_ports(self) -> PortRange
        ensures { result ≡ spare_ports self }
    {
        let first = self.first as usize;
        let start = first + self.inlets as usize + self.outlets as usize;
        PortRange {
            start,
            end: first + self.capacity as usize,
        }
    }
}

// Reads slot `slot`.
#[tactic(auto, using(crate::proofs::RowLaws::row_of_four), unfolding(crate::specs::NodeEntry::node_entry))]
pub fn read_slot(slots: &[u32], slot: usize) -> NodeEntry
    requires { width * slot + width ≤ length slots.now }
    ensures { result ≡ node_entry slots.now slot }
{
    let [first, second, third, fourth] = read_row::<WIDTH>(slots, slot);
    match second.checked_sub(1) {
        Some(inlets) => NodeEntry::Node(NodeMeta {
            first,
            inlets,
            outlets: third,
            capacity: fourth,
        }),
        None => NodeEntry::Free {
            previous: first,
            next: third,
        },
    }
}

// Writes an entry to slot `slot`.
#[tactic(auto, using(crate::proofs::RowLaws::set_row_of_four), unfolding(crate::specs::NodeEntry::set_entry))]
pub fn write_slot(slots: &mut [u32], slot: usize, entry: NodeEntry)
    requires { (width * slot + width ≤ length slots.old) × (inlets_of entry ≤ 16384) }
    ensures { slots.new ≡ set_entry slots.old slot entry }
{
    let words = match entry {
        NodeEntry::Free { previous, next } => [previous, 0, next, 0],
        NodeEntry::Node(meta) => [meta.first, meta.inlets + 1, meta.outlets, meta.capacity],
    };
    write_row::<WIDTH>(slots, slot, words);
}
