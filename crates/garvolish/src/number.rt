// The engine's answers as numbers, still by value.
ghost use Rattle.std.specs.Prelude.{◌≡◌};
ghost use Rattle.machine.specs.View.{number};
ghost use Rattle.turns.specs.Many.{taking_of};
ghost use Rattle.turns.specs.Open.{opening_of};
ghost use Rattle.rules.specs.Turn.{word_of};
ghost use Rattle.garvolish.specs.Numbers.{word_number, packed, SettlesTo, ServesTo};

use machine::paper::Refusal;
use rules::block::Block;
use turns::many::WrongLength;
use turns::open::OpenRefusal;
use turns::serial::run_serially;
use turns::settled::{SettleRefusal, settled_table};
use words::word::Word;

// A refusal's number, and any other word's byte.
#[tactic(auto, unfolding(crate::specs::Numbers::word_number, theory::specs::Word::refusal, words::specs::Words::word_of))]
pub(crate) fn number_of_word(word: Word) -> u32
    ensures { result ≡ word_number (word_of word) }
{
    match word {
        Word::BadTicket | Word::Stuck => u32::from(word.refusal()),
        _ => u32::from(word.byte()),
    }
}

// A paper's refusal: its number, field and place in one number, a byte for each.
fn pack(refusal: Refusal) -> u32
    ensures { result ≡ packed (number refusal.fault, refusal.field.0, refusal.place.0) }
{
    let Refusal {
        fault,
        field,
        place,
    } = refusal;
    u32::from_le_bytes([fault.number(), field.0, place.0, 0])
}

// An opening's refusal; 0 for none.
#[tactic(auto, unfolding(turns::specs::Open::opening_of))]
pub fn number_of_opening(answer: Result<(), OpenRefusal>) -> u32
    ensures { result ≡ packed (opening_of answer) }
{
    match answer {
        Ok(()) => 0,
        Err(OpenRefusal::WrongTable) => 12,
        Err(OpenRefusal::Paper(refusal)) => pack(refusal),
    }
}

// 15 where there is not a byte for each ticket; 0 where the turns were taken.
#[tactic(auto, unfolding(turns::specs::Many::taking_of))]
pub(crate) fn number_of_taking(answer: Result<(), WrongLength>) -> u32
    ensures { result ≡ taking_of answer }
{
    match answer {
        Ok(()) => 0,
        Err(WrongLength) => 15,
    }
}

// The refusal's number, or f in the next byte.
#[tactic(auto, unfolding(turns::specs::Settled::refusal_of, turns::specs::Settled::f_of))]
pub(crate) fn settled_number(b: Block, table: &mut [u64]) -> u32
    ensures { SettlesTo b table.old result table.new }
{
    match settled_table(b, table) {
        Ok(f) => u32::from_le_bytes([0, f, 0, 0]),
        Err(SettleRefusal::WrongTable) => 12,
        Err(SettleRefusal::Misfit) => 20,
    }
}

pub(crate) fn serial_number(start: &[u64], output: &mut [u64], paper: &[u8]) -> u32
    ensures { ServesTo start.now output.old paper.now result output.new }
{
    number_of_opening(run_serially(start, output, paper))
}
