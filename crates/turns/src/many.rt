// A list of tickets, each given its turn: one byte says what became of it.
ghost use Rattle.std.specs.Prelude.{◌≡◌, length};
ghost use Rattle.theory.specs.Engine.{block_fits};
ghost use Rattle.rules.specs.Box.{limits, box};
ghost use Rattle.rules.specs.Block.{block_of};
ghost use Rattle.rules.specs.Own.{Long};
ghost use Rattle.turns.specs.Many.{TakesAll, Takes};

use crate::sizes::block_fits;
use crate::turn::take_turn;
use machine::counts::Ticket;
use rules::block::Block;

// 15: the bytes lent are not as many as the tickets.
#[derive(Clone, Copy, PartialEq, Eq)]
pub struct WrongLength;

// A refusal leaves the bytes and the block as they were.
#[derive(Clone, Copy)]
pub struct Taken {
    pub block: Block,
    pub answer: Result<(), WrongLength>,
}

// The tickets take their turns in order, in the block where it stands.
fn take_all(b: &mut Block, fits: bool, tickets: &[u8], words: &mut [u8])
    requires { (fits ≡ block_fits limits box (block_of b.old)) × (length words.old ≡ length tickets.now) × Long b.old }
    ensures { TakesAll b.old tickets.now b.new words.new }
{
    for (k, &ticket) in tickets.iter().enumerate() {
        words[k] = take_turn(b, fits, Ticket(ticket)).byte();
    }
}

// There must be a byte for each ticket; the sizes are tested once, since a turn keeps them.
pub fn take_turns(mut b: Block, tickets: &[u8], words: &mut [u8]) -> Taken
    ensures { Takes b tickets.now words.old result words.new }
{
    if words.len() != tickets.len() {
        return Taken {
            block: b,
            answer: Err(WrongLength),
        };
    }
    let fits = block_fits(&b);
    take_all(&mut b, fits, tickets, words);
    Taken {
        block: b,
        answer: Ok(()),
    }
}
