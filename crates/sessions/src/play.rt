// A whole session: its bytes to the text that document 01 gives it.
ghost use Rattle.std.specs.Prelude.{◌≡◌, true};
ghost use Rattle.theory.specs.Engine.{block_fits, settled};
ghost use Rattle.rules.specs.Box.{box, limits};
ghost use Rattle.rules.specs.Block.{block_of};
ghost use Rattle.turns.specs.Open.{opening_of};
ghost use Rattle.sessions.specs.Text.{cell_lines, Written};
ghost use Rattle.sessions.specs.Session.{played, unless_refused, session_text, Fresh, Plays};

use crate::fields::{Parts, session_parts};
use crate::text::Text;
use machine::counts::{Cell, Place};
use machine::paper::Field;
use rules::block::Block;
use turns::many::take_turns;
use turns::open::{OpenRefusal, open};
use turns::settled::settled_table;

// Document 01's numbers of a malformed session and of a table that has not 256 cells.
const MALFORMED: u8 = 13;

const WRONG_TABLE: u8 = 12;

// The settled cells of a block.
fn put_settled(text: &mut Text<'_>, b: Block)
    requires { block_fits limits box (block_of b) ≡ true }
    ensures { Written text.old (cell_lines 0 (settled limits box (block_of b))) text.new }
{
    let mut table = [0; Cell::COUNT as usize];
    let _ = settled_table(b, &mut table);
    text.put_cells(&table);
}

// The turns of a block, then its settled cells.
fn put_played(text: &mut Text<'_>, b: Block, tickets: &[u8])
    requires { Fresh (block_of b) tickets.now }
    ensures { Written text.old (played (block_of b) tickets.now) text.new }
{
    let mut room = [0; Parts::TURNS];
    let words = &mut room[..tickets.len()];
    let taken = take_turns(b, tickets, words);
    text.put_turns(tickets, words);
    put_settled(text, taken.block);
}

// What became of an opening: its refusal, or its turns.
#[tactic(auto, using(crate::proofs::Laws::Play::refused_lines), unfolding(turns::specs::Open::opening_of, crate::specs::Session::unless_refused))]
fn put_opened(text: &mut Text<'_>, answer: Result<(), OpenRefusal>, b: Block, tickets: &[u8])
    requires { Fresh (block_of b) tickets.now }
    ensures { Written text.old (unless_refused (opening_of answer) (played (block_of b) tickets.now)) text.new }
{
    match answer {
        Ok(()) => put_played(text, b, tickets),
        Err(OpenRefusal::WrongTable) => text.put_refusal(WRONG_TABLE, Field(0), Place(0)),
        Err(OpenRefusal::Paper(refusal)) => {
            text.put_refusal(refusal.fault.number(), refusal.field, refusal.place)
        }
    }
}

// What the program prints of a session.
fn put_session(text: &mut Text<'_>, input: &[u8])
    ensures { Written text.old (session_text input.now) text.new }
{
    match session_parts(input) {
        None => text.put_refusal(MALFORMED, Field(0), Place(0)),
        Some(parts) => {
            let opened = open(&parts.table, parts.paper);
            put_opened(text, opened.answer, opened.block, parts.tickets);
        }
    }
}

// The text goes to the output, as far as that has room; the answer is how many bytes of it stand there.
pub fn play(input: &[u8], output: &mut [u8]) -> usize
    ensures { Plays input.now output.old output.new result }
{
    let mut text = Text::new(output);
    put_session(&mut text, input);
    text.size()
}
