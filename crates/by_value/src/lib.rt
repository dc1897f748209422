// The by-value turn in a loop, for the benchmark: every turn hands the whole block over and gets it back.
#![tactic(auto)]

ghost use Rattle.by_value.specs.Hands.{HandsOver};

use garvolish::number::number_of_opening;
use machine::counts::Ticket;
use turns::open::open;
use turns::turn::turn;

// The answer where there is not a byte for each ticket.
const WRONG_LENGTH: u32 = 15;

// Opens a paper and takes the turns of a list of tickets, a byte for each. An opening that is refused answers as garvolish_open
// does; then 15 if there is not a byte for each. The bytes are then as they were.
#[unsafe(no_mangle)]
#[tactic(auto, using(turns::specs::Going::all_written, crate::proofs::Refused::opened_unless), unfolding(crate::specs::Hands::if_opened, turns::specs::Many::if_long))]
pub extern "C" fn garvolish_by_value(
    start: &[u64],
    paper: &[u8],
    tickets: &[u8],
    words: &mut [u8],
) -> u32
    ensures { HandsOver start.now paper.now tickets.now words.old result words.new }
{
    let opened = open(start, paper);
    if opened.answer.is_err() {
        return number_of_opening(opened.answer);
    }
    if words.len() != tickets.len() {
        return WRONG_LENGTH;
    }
    let mut block = opened.block;
    for (k, ticket) in tickets.iter().enumerate() {
        let turned = turn(block, Ticket(*ticket));
        words[k] = turned.word.byte();
        block = turned.block;
    }
    0
}
