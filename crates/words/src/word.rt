// What became of a turn: the rules in their order, or the refusals 14 and 20.
ghost use Rattle.std.specs.Prelude.{◌≡◌, Some};
ghost use Rattle.theory.specs.Word.{byte_of, refusal};
ghost use Rattle.words.specs.Words.{word_of, shown};

use std::fmt;

#[derive(Clone, Copy, PartialEq, Eq)]
pub enum Word {
    Idle,
    Back,
    Step,
    End,
    Final,
    Wait,
    BadTicket,
    Stuck,
}

impl Word {
    // The byte of a turn that was refused.
    pub const NONE: u8 = 6;

    // 0 to 5 in the order of the rules, and NONE.
    #[tactic(auto, unfolding(theory::specs::Word::byte_of, crate::specs::Words::word_of))]
    pub fn byte(self) -> u8
        ensures { result ≡ byte_of (word_of self) }
    {
        match self {
            Word::Idle => 0,
            Word::Back => 1,
            Word::Step => 2,
            Word::End => 3,
            Word::Final => 4,
            Word::Wait => 5,
            Word::BadTicket | Word::Stuck => Word::NONE,
        }
    }

    // Document 01's number of a refusal; 0 where the turn was taken.
    #[tactic(auto, unfolding(theory::specs::Word::refusal, crate::specs::Words::word_of))]
    pub fn refusal(self) -> u8
        ensures { result ≡ refusal (word_of self) }
    {
        match self {
            Word::Idle | Word::Back | Word::Step | Word::End | Word::Final | Word::Wait => 0,
            Word::BadTicket => 14,
            Word::Stuck => 20,
        }
    }
}

// A refusal shows its number.
impl fmt::Display for Word {
    ghost output = { λ w. Some (shown w) };

    #[tactic(auto, unfolding(theory::specs::Word::refusal, theory::specs::Word::word_text, crate::specs::Words::word_of))]
    fn fmt<W: fmt::Write>(&self, f: &mut fmt::Formatter<W>) -> fmt::Result {
        match self {
            Word::Idle => write!(f, "idle"),
            Word::Back => write!(f, "back"),
            Word::Step => write!(f, "step"),
            Word::End => write!(f, "end"),
            Word::Final => write!(f, "final"),
            Word::Wait => write!(f, "wait"),
            Word::BadTicket | Word::Stuck => write!(f, "{}", self.refusal()),
        }
    }
}
