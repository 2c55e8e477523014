// What stands below the marks: the slots that calls ask of, and the ports. They are made from their parts where the mark is known to lie
// in the tables; a function that made them would ask for it in a clause again.
ghost use Rattle.std.specs.Prelude.{◌≡◌, ◌*◌, ◌≤◌, length};
ghost use Rattle.slabs.specs.NodeEntry.{width};
ghost use Rattle.edits.specs.Store.{node_at, live_node, port_at};

use slabs::node_entry::{NodeEntry, NodeMeta};
use slabs::port_entry::PortMeta;

// The slots below the node mark, which lie in the table.
#[derive(Clone, Copy)]
pub struct Slots<'a> {
    pub words: &'a [u32],
    pub mark: u32,
    pub ghost within: { width * mark ≤ length words.now },
}

impl Slots<'_> {
    // What a slot says where it is below the mark; a slot at or above it is not live.
    #[tactic(auto, unfolding(crate::specs::Store::node_at))]
    pub fn at(self, node: u32) -> NodeEntry
        ensures { result ≡ node_at self.entry.words.now self.entry.mark node }
    {
        if node < self.mark {
            return slabs::node_entry::read_slot(self.words, node as usize);
        }
        NodeEntry::Free {
            previous: 0,
            next: 0,
        }
    }

    // What a slot holds where it is live and below the mark.
    pub fn live(self, node: u32) -> Option<NodeMeta>
        ensures { result ≡ live_node self.entry.words.now self.entry.mark node }
    {
        match self.at(node) {
            NodeEntry::Node(meta) => Some(meta),
            NodeEntry::Free { .. } => None,
        }
    }
}

// What a port's owner word says where it is below the mark; a port at or above it is not live. It takes no `Ports`, which would ask its
// callers for the links too.
#[tactic(auto, unfolding(crate::specs::Store::port_at))]
pub fn port_at(owners: &[u32], mark: u32, port: u32) -> Option<PortMeta>
    requires { mark ≤ length owners.now }
    ensures { result ≡ port_at owners.now mark port }
{
    if port < mark {
        return slabs::port_entry::port_entry(owners[port as usize]);
    }
    None
}

// The ports below the port mark, which have their words in both tables.
#[derive(Clone, Copy)]
pub struct Ports<'a> {
    pub owners: &'a [u32],
    pub links: &'a [u32],
    pub mark: u32,
    pub ghost within: { (mark ≤ length owners.now) × (mark ≤ length links.now) },
}

impl Ports<'_> {
    // What a port's owner word says where it is below the mark.
    pub fn at(self, port: u32) -> Option<PortMeta>
        ensures { result ≡ port_at self.entry.owners.now self.entry.mark port }
    {
        port_at(self.owners, self.mark, port)
    }
}
