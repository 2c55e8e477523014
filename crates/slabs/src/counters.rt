// The six counters. A method takes them as a value, and hands the changed ones back. The free slot head is a chain word (a slot plus 1,
// and 0 for none) as it comes from the caller, who may lend any (`Ran`).
ghost use Rattle.std.specs.Prelude.{◌≡◌, ◌+◌, ◌-◌, ◌<◌};
ghost use Rattle.slabs.specs.Counters.{none_counted, link_counted, links_uncounted, slab_freed, mark_raised, node_mark_raised, free_slot_moved, node_counted, node_uncounted, ports_recounted, nodes_packed, ports_packed};

#[derive(Clone, Copy, Default, PartialEq, Eq)]
pub struct Counters {
    pub nodemark: u32,
    pub portmark: u32,
    pub freeslot: u32,
    pub nodes: u32,
    pub ports: u32,
    pub links: u32,
}

impl Counters {
    // `default`, under the name that the definitions have for it.
    pub fn none_counted() -> Self
        ensures { result ≡ none_counted }
    {
        Self::default()
    }

    pub fn link_counted(mut self) -> Self
        requires { self.links + 1 < 4294967296 }
        ensures { result ≡ link_counted self }
    {
        self.links += 1;
        self
    }

    pub fn links_uncounted(mut self, wires: u32) -> Self
        ensures { result ≡ links_uncounted self wires }
    {
        self.links = self.links.saturating_sub(wires);
        self
    }

    pub fn slab_freed(mut self, live: u32, wires: u32) -> Self
        ensures { result ≡ slab_freed self live wires }
    {
        self.ports = self.ports.saturating_sub(live);
        self.links = self.links.saturating_sub(wires);
        self
    }

    pub fn mark_raised(mut self, size: u32) -> Self
        requires { self.portmark + size < 4294967296 }
        ensures { result ≡ mark_raised self size }
    {
        self.portmark += size;
        self
    }

    pub fn node_mark_raised(mut self) -> Self
        requires { self.nodemark + 1 < 4294967296 }
        ensures { result ≡ node_mark_raised self }
    {
        self.nodemark += 1;
        self
    }

    pub fn free_slot_moved(mut self, head: u32) -> Self
        ensures { result ≡ free_slot_moved self head }
    {
        self.freeslot = head;
        self
    }

    pub fn node_counted(mut self, live: u32) -> Self
        requires { (self.nodes + 1 < 4294967296) × (self.ports + live < 4294967296) }
        ensures { result ≡ node_counted self live }
    {
        self.nodes += 1;
        self.ports += live;
        self
    }

    pub fn node_uncounted(mut self) -> Self
        ensures { result ≡ node_uncounted self }
    {
        self.nodes = self.nodes.saturating_sub(1);
        self
    }

    pub fn ports_recounted(mut self, before: u32, after: u32) -> Self
        requires { self.ports + after < 4294967296 }
        ensures { result ≡ ports_recounted self before after }
    {
        self.ports = self.ports.saturating_sub(before) + after;
        self
    }

    pub fn nodes_packed(mut self) -> Self
        ensures { result ≡ nodes_packed self }
    {
        self.nodemark = self.nodes;
        self.freeslot = 0;
        self
    }

    pub fn ports_packed(mut self) -> Self
        ensures { result ≡ ports_packed self }
    {
        self.portmark = self.ports;
        self
    }
}
