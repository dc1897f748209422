// The engine for callers in C: garvolish's functions, each exported under its name.
#![tactic(auto)]

ghost use Rattle.std.specs.Prelude.{◌≡◌};
ghost use Rattle.garvolish.specs.Numbers.{TurnsTo, TakesTo, OpensTo, SettlesTo, ServesTo};
ghost use Rattle.garvolish.specs.Version.{VERSION, SIZE};

use rules::block::Block;

// The block becomes a paper's, every job fresh; or a refusal, and then a block with no jobs and an all-zero table.
#[unsafe(no_mangle)]
pub extern "C" fn garvolish_open(block: &mut Block, start: &[u64], paper: &[u8]) -> u32
    ensures { OpensTo start.now paper.now result block.new }
{
    garvolish::garvolish_open(block, start, paper)
}

// One turn of a ticket, in the caller's own block.
#[unsafe(no_mangle)]
pub extern "C" fn garvolish_turn(block: &mut Block, ticket: u8) -> u32
    ensures { TurnsTo block.old ticket result block.new }
{
    garvolish::garvolish_turn(block, ticket)
}

// The turns of a list of tickets, in the caller's own block, and a byte for each.
#[unsafe(no_mangle)]
pub extern "C" fn garvolish_take_turns(block: &mut Block, tickets: &[u8], words: &mut [u8]) -> u32
    ensures { TakesTo block.old tickets.now words.old result block.new words.new }
{
    garvolish::garvolish_take_turns(block, tickets, words)
}

// The settled table, written whole to the lent table, and f; or a refusal, and the table untouched.
#[unsafe(no_mangle)]
pub extern "C" fn garvolish_settled(block: &Block, table: &mut [u64]) -> u32
    ensures { SettlesTo block.now table.old result table.new }
{
    garvolish::garvolish_settled(block, table)
}

// All jobs of a paper run one after another, and the output written whole; or a refusal, and the output untouched.
#[unsafe(no_mangle)]
pub extern "C" fn garvolish_run_serially(start: &[u64], output: &mut [u64], paper: &[u8]) -> u32
    ensures { ServesTo start.now output.old paper.now result output.new }
{
    garvolish::garvolish_run_serially(start, output, paper)
}

// The library's version in one number, a byte each for minor and patch.
#[unsafe(no_mangle)]
pub extern "C" fn garvolish_version() -> u32
    ensures { result ≡ VERSION }
{
    garvolish::garvolish_version()
}

// The bytes of a block. The name has the number of the block's layout, so that a program compiled for another does not link.
#[unsafe(no_mangle)]
pub extern "C" fn garvolish_layout_1() -> u32
    ensures { result ≡ SIZE }
{
    garvolish::garvolish_layout_1()
}
