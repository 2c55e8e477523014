// Resize, call 3: in place, or into a new slab.
ghost use Rattle.std.specs.Prelude.{◌≡◌, ◌+◌, ◌*◌, ◌≤◌, ◌<◌, length};
ghost use Rattle.slabs.specs.NodeEntry.{width};
ghost use Rattle.edits.specs.Store.{store_in, SameMemory};
ghost use Rattle.edits.specs.Fit.{Fit, SlotsFit};
ghost use Rattle.renumber.specs.Records.{later, SameLog};
ghost use Rattle.renumber.specs.Resize.{slab_size, is_idle, is_in_place, inlets_kept, outlets_kept, inlets_removed, outlets_removed, records_needed, log_answer, change_answer, resize_answer, changed_slots, changed_owners};
ghost use Rattle.renumber.specs.Room.{SmallChange, CanChange, CutRemoved, CanCutRemoved, CanShift, Shifted, CanMoveKept, MovedKept, CanFreeOld, FreedOld, CanReallocate, Reallocated, Resized};

use crate::log::Log;
use crate::moves;
use crate::moves::Run;
use edits::answer::{Answer, Refusal};
use edits::below::Slots;
use edits::steps::MOST;
use edits::store::Tables;
use slabs::counters::Counters;
use slabs::node_entry::{NodeEntry, NodeMeta};

// A live step and the counts that it is to have. `is_idle` is promised of any counts, so that they are few (`SmallChange`) is a clause.
#[derive(Clone, Copy)]
pub struct Change {
    pub node: u32,
    pub meta: NodeMeta,
    pub inlets: u32,
    pub outlets: u32,
}

// The least power of two that is n or more, and 1 for 0.
#[tactic(auto, using(crate::proofs::ResizeLaws::next_power))]
pub fn slab_size(n: u32) -> u32
    requires { n ≤ 32768 }
    ensures { result ≡ slab_size n }
{
    n.next_power_of_two()
}

impl Change {
    // Whether the step has these counts already.
    #[tactic(auto, unfolding(crate::specs::Resize::is_idle))]
    pub fn is_idle(self) -> bool
        ensures { result ≡ is_idle self }
    {
        self.meta.inlets == self.inlets && self.meta.outlets == self.outlets
    }

    // Whether the step gets these counts without a new slab.
    #[tactic(auto, unfolding(crate::specs::Resize::is_in_place))]
    fn is_in_place(self) -> bool
        requires { SmallChange self }
        ensures { result ≡ is_in_place self }
    {
        let total = self.inlets + self.outlets;
        total != 0 && total < self.meta.capacity
    }

    // The inlets and the outlets differ in a field alone: one function for both would be `min`, or `saturating_sub`, again.
    fn inlets_kept(self) -> u32
        ensures { result ≡ inlets_kept self }
    {
        self.meta.inlets.min(self.inlets)
    }

    fn outlets_kept(self) -> u32
        ensures { result ≡ outlets_kept self }
    {
        self.meta.outlets.min(self.outlets)
    }

    fn inlets_removed(self) -> u32
        ensures { result ≡ inlets_removed self }
    {
        self.meta.inlets.saturating_sub(self.inlets)
    }

    fn outlets_removed(self) -> u32
        ensures { result ≡ outlets_removed self }
    {
        self.meta.outlets.saturating_sub(self.outlets)
    }

    // How many records the change writes.
    #[tactic(auto, unfolding(crate::specs::Resize::records_needed))]
    fn records(self) -> u32
        requires { SmallChange self }
        ensures { result ≡ records_needed self }
    {
        if self.is_in_place() {
            self.inlets_removed() + self.meta.outlets
        } else {
            self.meta.inlets + self.meta.outlets
        }
    }
}

// 7 where fewer records remain than the change writes.
#[tactic(auto, unfolding(crate::specs::Resize::log_answer))]
fn log_answer(left: usize, change: Change) -> Answer
    requires { SmallChange change }
    ensures { result ≡ log_answer left change }
{
    let records = change.records();
    if left < records as usize {
        return Err(Refusal::LogFull);
    }
    Ok((records, 0, 0))
}

// What call 3 answers for a live step, where `left` records remain in the log. `room` is the length of the port tables.
#[tactic(auto, using(crate::proofs::ResizeLaws::slab_size_some), unfolding(crate::specs::Resize::change_answer))]
fn change_answer(room: usize, heads: &[u32], mark: u32, left: usize, change: Change) -> Answer
    requires { SmallChange change }
    ensures { result ≡ change_answer room heads.now mark left change }
{
    if change.is_idle() {
        return Ok((0, 0, 0));
    }
    if change.is_in_place() {
        return log_answer(left, change);
    }
    let size = slab_size(change.inlets + change.outlets);
    if heads.len() < size as usize {
        return Err(Refusal::SlabTooLarge);
    }
    if !slabs::slab::at_hand(heads, mark, room, size) {
        return Err(Refusal::NoSlab);
    }
    log_answer(left, change)
}

// What call 3 answers. It takes the counters, which have the mark: in a `Slots` beside them it would stand twice.
#[tactic(auto, using(crate::proofs::AnswerLaws::node_at_live), unfolding(crate::specs::Resize::resize_answer))]
pub fn resize_answer(
    slots: &[u32],
    room: usize,
    heads: &[u32],
    counters: Counters,
    left: usize,
    node: u32,
    inlets: u32,
    outlets: u32,
) -> Answer
    requires { (width * counters.nodemark ≤ length slots.now) × SlotsFit slots.now counters.nodemark 32768 1048576 }
    ensures { result ≡ resize_answer slots.now room heads.now counters left node inlets outlets }
{
    if MOST < inlets || MOST < outlets {
        return Err(Refusal::TooManyPorts);
    }
    let below = Slots {
        words: slots,
        mark: counters.nodemark,
    };
    let meta = below.live(node).ok_or(Refusal::NoNode(node))?;
    let change = Change {
        node,
        meta,
        inlets,
        outlets,
    };
    change_answer(room, heads, counters.portmark, left, change)
}

// Cuts the removed inlets, then the removed outlets, with their records. Says how many wires went.
#[tactic(auto, using(slabs::proofs::Shapes::cut_laws, crate::proofs::RecordLaws::log_laws, crate::proofs::RecordLaws::later_again))]
fn cut_removed(links: &mut [u32], log: &mut Log<'_>, change: Change) -> u32
    requires { CanCutRemoved links.old log.old.words.now log.old.to change }
    ensures memory { SameLog log.old log.new }
    ensures words { CutRemoved links.old log.old.words.now log.old.to change links.new log.new.words.now result }
    ensures next { log.new.to ≡ later log.old.to (inlets_removed change + outlets_removed change) }
{
    let first = change.meta.first + change.inlets_kept();
    let wires = moves::remove_ports(links, log, first, change.inlets_removed());
    let start = change.meta.first + change.meta.inlets + change.outlets_kept();
    wires + moves::remove_ports(links, log, start, change.outlets_removed())
}

// Writes the owner words of the changed step from `first` on. Here and below, a function has the tables that it changes and no other, so
// that the others stay is in its type.
fn own_ports(owners: &mut [u32], change: Change, first: u32)
    requires { (change.node < 65536) × (first + change.inlets + change.outlets ≤ length owners.old) }
    ensures { owners.new ≡ changed_owners owners.old change first }
{
    slabs::slab::write_owners(
        owners,
        change.node,
        first as usize,
        change.inlets as usize,
        change.outlets as usize,
    );
}

// Writes the slot of the changed step.
#[tactic(auto, unfolding(crate::specs::Resize::changed_slots))]
fn write_change(slots: &mut [u32], change: Change, first: u32, capacity: u32)
    requires { (width * change.node + width ≤ length slots.old) × (change.inlets ≤ 16384) }
    ensures { slots.new ≡ changed_slots slots.old change first capacity }
{
    let meta = NodeMeta {
        first,
        inlets: change.inlets,
        outlets: change.outlets,
        capacity,
    };
    slabs::node_entry::write_slot(slots, change.node as usize, NodeEntry::Node(meta));
}

// In place: the kept outlets move, from the low end up where inlets fall, else from the high end down. The ports of the old
// counts that are left over are nobody's.
#[tactic(auto, using(slabs::proofs::FillLaws::written_length), unfolding(crate::specs::Resize::in_place_owners))]
fn shift(links: &mut [u32], owners: &mut [u32], log: &mut Log<'_>, change: Change)
    requires { CanShift links.old owners.old log.old.words.now log.old.to change }
    ensures memory { SameLog log.old log.new }
    ensures words { Shifted links.old owners.old log.old.words.now log.old.to change links.new owners.new log.new.words.now }
    ensures next { log.new.to ≡ later log.old.to (outlets_kept change) }
{
    let first = change.meta.first;
    let run = Run {
        from: first + change.meta.inlets,
        to: first + change.inlets,
        n: change.outlets_kept(),
        rising: change.inlets < change.meta.inlets,
    };
    moves::move_ports(links, run);
    moves::record_moves(log, run);
    own_ports(owners, change, first);
    let total = change.inlets + change.outlets;
    let rest = (change.meta.inlets + change.meta.outlets).saturating_sub(total);
    slabs::slab::fill(owners, (first + total) as usize, rest as usize, 0);
}

// Carries the kept inlets, then the kept outlets, to a new slab that starts at `first`, with their records.
#[tactic(auto, using(crate::proofs::MoveLaws::run_laws, crate::proofs::RecordLaws::log_laws, crate::proofs::RecordLaws::later_again))]
fn move_kept(links: &mut [u32], log: &mut Log<'_>, change: Change, first: u32)
    requires { CanMoveKept links.old log.old.words.now log.old.to change first }
    ensures memory { SameLog log.old log.new }
    ensures words { MovedKept links.old log.old.words.now log.old.to change first links.new log.new.words.now }
    ensures next { log.new.to ≡ later log.old.to (inlets_kept change + outlets_kept change) }
{
    let ins = Run {
        from: change.meta.first,
        to: first,
        n: change.inlets_kept(),
        rising: true,
    };
    let outs = Run {
        from: change.meta.first + change.meta.inlets,
        to: first + change.inlets,
        n: change.outlets_kept(),
        rising: true,
    };
    moves::move_ports(links, ins);
    moves::record_moves(log, ins);
    moves::move_ports(links, outs);
    moves::record_moves(log, outs);
}

// Frees the old slab, where there is one.
#[tactic(auto, unfolding(edits::specs::Steps::removed_links, edits::specs::Steps::removed_owners, edits::specs::Steps::removed_heads))]
fn free_old(links: &mut [u32], owners: &mut [u32], heads: &mut [u32], meta: NodeMeta)
    requires { CanFreeOld links.old owners.old heads.old meta }
    ensures { FreedOld links.old owners.old heads.old meta links.new owners.new heads.new }
{
    if meta.capacity != 0 {
        slabs::slab::free_slab(links, owners, heads, meta.first, meta.capacity);
    }
}

// Into a new slab, which is taken before the old one is freed.
fn reallocate(
    tables: &mut Tables<'_>,
    log: &mut Log<'_>,
    counters: Counters,
    change: Change,
) -> Counters
    requires { CanReallocate tables.old.slots.now tables.old.links.now tables.old.owners.now tables.old.heads.now log.old.words.now counters log.old.to change }
    ensures memory { SameMemory tables.old tables.new × SameLog log.old log.new }
    ensures words { Reallocated tables.old.slots.now tables.old.links.now tables.old.owners.now tables.old.heads.now log.old.words.now counters log.old.to change tables.new.slots.now tables.new.links.now tables.new.owners.now tables.new.heads.now log.new.words.now result }
    ensures next { log.new.to ≡ later log.old.to (inlets_kept change + outlets_kept change) }
{
    let size = slab_size(change.inlets + change.outlets);
    let (first, after) = slabs::slab::take_slab(tables.links, tables.heads, counters, size);
    own_ports(tables.owners, change, first);
    move_kept(tables.links, log, change, first);
    write_change(tables.slots, change, first, size);
    free_old(tables.links, tables.owners, tables.heads, change.meta);
    after
}

// Resizes a live step whose counts change. What it needs is known to be there.
#[tactic(auto, using(crate::proofs::ResizeParts::can_cut, crate::proofs::RecordLaws::later_again, crate::proofs::ResizeLaws::records_in_place, crate::proofs::ResizeLaws::records_into))]
pub fn resize(
    tables: &mut Tables<'_>,
    log: &mut Log<'_>,
    counters: Counters,
    change: Change,
) -> Counters
    requires { Fit (store_in tables.old counters) × CanChange (store_in tables.old counters) log.old.words.now log.old.to change }
    ensures memory { SameMemory tables.old tables.new × SameLog log.old log.new }
    ensures words { Resized (store_in tables.old counters) log.old.words.now log.old.to change tables.new.slots.now tables.new.links.now tables.new.owners.now tables.new.heads.now log.new.words.now result }
    ensures next { log.new.to ≡ later log.old.to (records_needed change) }
{
    let wires = cut_removed(tables.links, log, change);
    let before = change.meta.inlets + change.meta.outlets;
    let after = change.inlets + change.outlets;
    let cut = counters
        .links_uncounted(wires)
        .ports_recounted(before, after);
    if change.is_in_place() {
        shift(tables.links, tables.owners, log, change);
        write_change(
            tables.slots,
            change,
            change.meta.first,
            change.meta.capacity,
        );
        return cut;
    }
    reallocate(tables, log, cut, change)
}
