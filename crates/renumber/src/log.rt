// Records: the place of their call in the run, kind, old, new; four words each.
ghost use Rattle.std.specs.Prelude.{◌≡◌, ◌+◌, ◌*◌, ◌≤◌, length};
ghost use Rattle.renumber.specs.Records.{record_width, rec, set_record, later, kind_word, SameLog};

use slabs::rows::write_row;

// The words of a record.
pub const RECORD: usize = 4;

// The kinds of a record: a port that goes, without a wire or with one, and a port or a slot that stays.
#[derive(Clone, Copy, PartialEq, Eq)]
pub enum Kind {
    Removed,
    Unwired,
    PortMoved,
    NodeMoved,
}

impl From<Kind> for u32 {
    ghost from_gives = { λ kind word. word ≡ kind_word kind };

    // The kind as a word of a record.
    fn from(kind: Kind) -> u32 {
        match kind {
            Kind::Removed => 1,
            Kind::Unwired => 2,
            Kind::PortMoved => 3,
            Kind::NodeMoved => 4,
        }
    }
}

// Where the next record goes, counted in records, and at which place of its run the call stands.
#[derive(Clone, Copy, PartialEq, Eq)]
pub struct LogPlace {
    pub at: usize,
    pub place: u32,
}

// Writes one record. The kind is a word here, for the promise is of any word
// (`set_record`), and a `Kind` would take that away; it has no `Log`, whose place would move.
#[tactic(auto, using(slabs::proofs::RowLaws::set_row_of_four))]
pub fn write_record(log: &mut [u32], to: LogPlace, kind: u32, old: u32, new: u32)
    requires { record_width * to.at + record_width ≤ length log.old }
    ensures { log.new ≡ set_record log.old to.at to.place (rec kind old new) }
{
    write_row::<RECORD>(log, to.at, [to.place, kind, old, new]);
}

// A log that is written to, and where its next record goes. How much room is left is a clause of those who write more than one: a
// single record asks for its own place alone.
#[derive(Drop)]
pub struct Log<'a> {
    pub words: &'a mut [u32],
    pub to: LogPlace,
}

impl Log<'_> {
    // Writes the next record.
    pub fn write(&mut self, kind: Kind, old: u32, new: u32)
        requires { record_width * self.old.to.at + record_width ≤ length self.old.words.now }
        ensures memory { SameLog self.old self.new }
        ensures words { self.new.words.now ≡ set_record self.old.words.now self.old.to.at self.old.to.place (rec (kind_word kind) old new) }
        ensures next { self.new.to ≡ later self.old.to 1 }
    {
        write_record(self.words, self.to, u32::from(kind), old, new);
        self.to.at += 1;
    }
}
