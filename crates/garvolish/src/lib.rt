// The engine in the caller's own block or table: each function answers a number, as the exports of garvolish_c do for callers in C.
#![tactic(auto)]

pub mod number;

ghost use Rattle.std.specs.Prelude.{◌≡◌};
ghost use Rattle.garvolish.specs.Numbers.{TurnsTo, TakesTo, OpensTo, SettlesTo, ServesTo};
ghost use Rattle.garvolish.specs.Version.{VERSION, SIZE};

use crate::number::{
    number_of_opening, number_of_taking, number_of_word, serial_number, settled_number,
};
use machine::counts::Ticket;
use rules::block::Block;
use turns::many::take_turns;
use turns::open::open;
use turns::turn::change_of;

const MAJOR: u8 = 0;

const MINOR: u8 = 13;

const PATCH: u8 = 0;

// The block becomes a paper's, every job fresh; or a refusal, and then a block with no jobs and an all-zero table.
pub fn garvolish_open(block: &mut Block, start: &[u64], paper: &[u8]) -> u32
    ensures { OpensTo start.now paper.now result block.new }
{
    let opened = open(start, paper);
    *block = opened.block;
    number_of_opening(opened.answer)
}

// One turn of a ticket, in the caller's own block: what the turn changes is stored where it stands.
pub fn garvolish_turn(block: &mut Block, ticket: u8) -> u32
    ensures { TurnsTo block.old ticket result block.new }
{
    let c = change_of(block, Ticket(ticket));
    block.states[c.index] = c.state;
    block.status[c.index] = c.status;
    block.journals[c.index] = c.journal;
    block.versions[c.index] = c.versions;
    let reads = c.reads;
    block.reads = reads;
    block.checkpoints[c.slot] = c.saved;
    number_of_word(c.word)
}

// The turns of a list of tickets, in the caller's own block, and a byte for each; the sizes are tested once.
pub fn garvolish_take_turns(block: &mut Block, tickets: &[u8], words: &mut [u8]) -> u32
    ensures { TakesTo block.old tickets.now words.old result block.new words.new }
{
    let taken = take_turns(*block, tickets, words);
    *block = taken.block;
    number_of_taking(taken.answer)
}

// The settled table, written whole to the lent table, and f; or a refusal, and the table untouched.
pub fn garvolish_settled(block: &Block, table: &mut [u64]) -> u32
    ensures { SettlesTo block.now table.old result table.new }
{
    settled_number(*block, table)
}

// All jobs of a paper run one after another, and the output written whole; or a refusal, and the output untouched.
pub fn garvolish_run_serially(start: &[u64], output: &mut [u64], paper: &[u8]) -> u32
    ensures { ServesTo start.now output.old paper.now result output.new }
{
    serial_number(start, output, paper)
}

// The library's version in one number, a byte each for minor and patch.
pub fn garvolish_version() -> u32
    ensures { result ≡ VERSION }
{
    u32::from_le_bytes([PATCH, MINOR, MAJOR, 0])
}

// The bytes of a block.
const BLOCK: u32 = 38696;

// Answers them. The name has the number of the block's layout, so that a program compiled for another does not link.
pub fn garvolish_layout_1() -> u32
    ensures { result ≡ SIZE }
{
    BLOCK
}
