// Owner words: who a port belongs to, and which way it faces.
ghost use Rattle.std.specs.Prelude.{◌≡◌, ◌<◌, MatchResult};
ghost use Rattle.slabs.specs.PortEntry.{direction_word, owner_word, port_entry};

// Which way a port faces: an inlet is incoming, an outlet outgoing.
#[derive(Clone, Copy, PartialEq, Eq)]
pub enum Direction {
    Incoming,
    Outgoing,
}

impl From<Direction> for u32 {
    ghost from_gives = { λ direction word. word ≡ direction_word direction };

    // The direction as a word: 0 in, 1 out.
    fn from(direction: Direction) -> u32 {
        match direction {
            Direction::Incoming => 0,
            Direction::Outgoing => 1,
        }
    }
}

// A word that is no direction: only 0 and 1 are.
#[derive(Clone, Copy, PartialEq, Eq)]
pub struct NoSuchDirection;

impl TryFrom<u32> for Direction {
    type Error = NoSuchDirection;

    ghost try_from_gives = { λ word r. MatchResult r (λ direction. direction_word direction ≡ word) (λ _. 1 < word) };

    fn try_from(word: u32) -> Result<Direction, NoSuchDirection> {
        match word {
            0 => Ok(Direction::Incoming),
            1 => Ok(Direction::Outgoing),
            _ => Err(NoSuchDirection),
        }
    }
}

// What the owner word of a port in use says.
#[derive(Clone, Copy, PartialEq, Eq)]
pub struct PortMeta {
    pub node: u32,
    pub direction: Direction,
}

// What an outlet's owner word has more than an inlet's.
const OUTLET: u32 = 0x8000_0000;

// Reads an owner word. Every word has a reading, so that no word can trap a reader; 0 is nobody's.
#[tactic(auto, unfolding(crate::specs::PortEntry::port_entry, crate::specs::PortEntry::node_of, crate::specs::PortEntry::facing))]
pub fn port_entry(word: u32) -> Option<PortMeta>
    ensures { result ≡ port_entry word }
{
    if word == 0 {
        return None;
    }
    if word <= OUTLET {
        return Some(PortMeta {
            node: word - 1,
            direction: Direction::Incoming,
        });
    }
    Some(PortMeta {
        node: word - OUTLET - 1,
        direction: Direction::Outgoing,
    })
}

// The owner word of a port of this node in this direction. A node's number comes as a word of a call or of a table, here and above; that
// it is below 65,536 is a clause, for a type of such numbers would be made and taken apart at each.
pub fn owner_word(node: u32, direction: Direction) -> u32
    requires { node < 65536 }
    ensures { result ≡ owner_word node (direction_word direction) }
{
    node + 1 + OUTLET * u32::from(direction)
}
