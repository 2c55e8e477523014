// The four lent tables of a store, which go together: to change, and to look at.
ghost use Rattle.std.specs.Prelude.{◌≡◌};
ghost use Rattle.edits.specs.Store.{SameWords};

// The tables, to change. A function that takes them leaves the same slices in them (`SameMemory`). One that changes a part of them takes
// those slices alone: that the others stay is then in its type. The counters stand beside them, a value in and a value out, and `Fit`
// of both is a clause and no field: an edit that is half done breaks it.
#[derive(Drop)]
pub struct Tables<'a> {
    pub slots: &'a mut [u32],
    pub links: &'a mut [u32],
    pub owners: &'a mut [u32],
    pub heads: &'a mut [u32],
}

// The tables, to look at. A type of its own, since whoever may only look could not lend `Tables`.
#[derive(Clone, Copy)]
pub struct View<'a> {
    pub slots: &'a [u32],
    pub links: &'a [u32],
    pub owners: &'a [u32],
    pub heads: &'a [u32],
}

impl Tables<'_> {
    // The tables as they stand.
    pub fn view(&self) -> View<'_>
        ensures { SameWords self.now result }
    {
        View {
            slots: self.slots,
            links: self.links,
            owners: self.owners,
            heads: self.heads,
        }
    }
}
