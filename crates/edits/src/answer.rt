// The answer of a call, and the four words that say it.
ghost use Rattle.std.specs.Prelude.{◌≡◌};
ghost use Rattle.edits.specs.Answer.{says, refusal_words, answer_words};
ghost use Rattle.edits.specs.declared.answer.Refusal.TheVariants.{NoSuchCall};

use slabs::port_entry::NoSuchDirection;

// Why a call is refused, with the values of that answer. They are words, the direction too, and any word has its answer
// (`answer_words`).
#[derive(Clone, Copy, PartialEq, Eq)]
pub enum Refusal {
    NoNode(u32),
    NoPort(u32),
    TooManyPorts,
    SlabTooLarge,
    NoSlot,
    NoSlab,
    LogFull,
    SameDirection(u32, u32, u32),
    AlreadyLinked(u32),
    NoSuchCall,
    OwnerNotLive,
    NotLinked(u32),
}

// Done, with three values, or refused.
pub type Answer = Result<(u32, u32, u32), Refusal>;

// A direction that is none is answered as a call that is none.
impl From<NoSuchDirection> for Refusal {
    ghost from_gives = { λ _ refusal. refusal ≡ NoSuchCall };

    fn from(_: NoSuchDirection) -> Refusal {
        Refusal::NoSuchCall
    }
}

// The words of an answer: its number and three values. The number is the word that is written; what it means is in `Refusal`.
#[derive(Clone, Copy, PartialEq, Eq)]
pub struct AnswerWords {
    pub code: u32,
    pub first: u32,
    pub second: u32,
    pub third: u32,
}

fn words(code: u32, first: u32, second: u32, third: u32) -> AnswerWords
    ensures { result ≡ says code first second third }
{
    AnswerWords {
        code,
        first,
        second,
        third,
    }
}

impl From<Refusal> for AnswerWords {
    ghost from_gives = { λ refusal words. words ≡ refusal_words refusal };

    fn from(refusal: Refusal) -> AnswerWords {
        match refusal {
            Refusal::NoNode(node) => words(1, node, 0, 0),
            Refusal::NoPort(port) => words(2, port, 0, 0),
            Refusal::TooManyPorts => words(3, 0, 0, 0),
            Refusal::SlabTooLarge => words(4, 0, 0, 0),
            Refusal::NoSlot => words(5, 0, 0, 0),
            Refusal::NoSlab => words(6, 0, 0, 0),
            Refusal::LogFull => words(7, 0, 0, 0),
            Refusal::SameDirection(a, b, direction) => words(8, a, b, direction),
            Refusal::AlreadyLinked(port) => words(9, port, 0, 0),
            Refusal::NoSuchCall => words(10, 0, 0, 0),
            Refusal::OwnerNotLive => words(11, 0, 0, 0),
            Refusal::NotLinked(port) => words(12, port, 0, 0),
        }
    }
}

impl From<Answer> for AnswerWords {
    ghost from_gives = { λ answer words. words ≡ answer_words answer };

    fn from(answer: Answer) -> AnswerWords {
        match answer {
            Ok((first, second, third)) => words(0, first, second, third),
            Err(refusal) => AnswerWords::from(refusal),
        }
    }
}
