// Clear, call 0: nothing but zeros in the tables and in the counters.
ghost use Rattle.edits.specs.Store.{store_in, SameMemory};
ghost use Rattle.edits.specs.Clear.{cleared};
ghost use Rattle.edits.specs.Fit.{StoreIn};

use crate::store::Tables;
use slabs::counters::Counters;

#[tactic(auto, using(slabs::proofs::FillLaws::fill_whole), unfolding(crate::specs::Clear::cleared))]
pub fn clear(tables: &mut Tables<'_>, counters: Counters) -> Counters
    ensures memory { SameMemory tables.old tables.new }
    ensures store { StoreIn (cleared (store_in tables.old counters)) tables.new result }
{
    tables.slots.fill(0);
    tables.links.fill(0);
    tables.owners.fill(0);
    tables.heads.fill(0);
    Counters::none_counted()
}
