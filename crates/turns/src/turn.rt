// One turn of a block in work.
ghost use Rattle.std.specs.Prelude.{◌≡◌, false, true, ◌-◌, ◌≤◌, ◌<◌, set};
ghost use Rattle.rules.specs.Turn.{foreign, Turns};
ghost use Rattle.theory.specs.Engine.{block_fits};
ghost use Rattle.rules.specs.Box.{limits, box};
ghost use Rattle.rules.specs.Block.{block_of};
ghost use Rattle.rules.specs.Own.{shows_of, marked_by, MayMark, Long};
ghost use Rattle.turns.specs.Change.{refusing, index_if, MayMove, MovesBy, MovesIf, change_by, Changes, TurnsIn};

use crate::sizes::block_fits;
use machine::counts::Ticket;
use machine::job::{Job, State};
use rules::block::{Block, Checkpoint, Journal, Reads, Turned, Versions};
use rules::marks::Changed;
use rules::own::{Move, Own, Turning, cell_read, slot_of};
use words::word::Word;

// What a turn changes of a block: the parts of the job at an index, the checkpoint in a slot, and the lists of reads, among
// which it may mark.
#[derive(Clone, Copy)]
pub struct Change {
    pub reads: [Reads; Job::MOST as usize],
    pub state: State,
    pub journal: Journal,
    pub saved: Checkpoint,
    pub versions: Versions,
    pub status: u8,
    pub index: usize,
    pub slot: usize,
    pub word: Word,
}

// Whether a ticket is none of the block's.
fn is_foreign(t: Ticket, count: u8) -> bool
    ensures { result ≡ foreign count t.0 }
{
    t.0 == 0 || count < t.0
}

// The word of a turn that is refused: 14 before 20.
pub(crate) fn refusal(t: Ticket, count: u8, fits: bool) -> Option<Word>
    ensures { result ≡ refusing count t.0 fits }
{
    if is_foreign(t, count) {
        return Some(Word::BadTicket);
    }
    if !fits {
        return Some(Word::Stuck);
    }
    None
}

// The index of the job with a ticket of the block.
pub(crate) fn index_of(t: Ticket) -> usize
    requires { (0 < t.0) × (t.0 ≤ 16) }
    ensures { (result ≡ t.0 - 1) × (result < 16) }
{
    usize::from(t.0 - 1)
}

// The index of a ticket's job; the first for a refused one.
fn index_in(t: Ticket, refused: Option<Word>) -> usize
    requires { refused ≡ None → (0 < t.0) × (t.0 ≤ 16) }
    ensures { (result ≡ index_if refused t.0) × (result < 16) }
{
    match refused {
        Some(_) => 0,
        None => index_of(t),
    }
}

// What the rules make of the parts of the job at an index, whose ticket is t.
fn move_of(b: &Block, t: Ticket, i: usize, own: &Own) -> Move
    requires { (i < 16) × MayMove b.now t.0 i own.now }
    ensures { MovesBy b.now t.0 own.now result }
{
    let back = b.checkpoints[slot_of(i, b.reads[i].mark)];
    let step = b.jobs[i].step(own.state);
    let taking = Turning {
        own,
        block: b,
        first: b.start[cell_read(step)],
        ticket: t,
    };
    taking.take(step, back)
}

// The same, or the word of a refused turn.
fn move_or_refuse(refused: Option<Word>, b: &Block, t: Ticket, i: usize, own: &Own) -> Move
    requires { (i < 16) × (refused ≡ None → MayMove b.now t.0 i own.now) }
    ensures { MovesIf refused b.now t.0 own.now result }
{
    match refused {
        Some(word) => own.stay(word),
        None => move_of(b, t, i, own),
    }
}

// The lists of reads after a move of the job at an index: its own, and the higher jobs' marked where the move may have changed what is
// public.
fn list_reads(
    done: &Move,
    own: &Own,
    lists: &mut [Reads; Job::MOST as usize],
    count: u8,
    t: Ticket,
    i: usize,
)
    requires { (i < 16) × MayMark done.now own.now lists.old count i }
    ensures { lists.new ≡ marked_by done.now.marks (set lists.old i done.now.own.list) count (shows_of own.now) (shows_of done.now.own) t.0 }
{
    lists[i] = done.own.list;
    if done.marks {
        let changed = Changed {
            old: own.shows(),
            new: done.own.shows(),
            ticket: t,
        };
        *lists = changed.mark_above(*lists, count);
    }
}

// What a move changes, with the higher jobs marked where it may have changed what is public.
fn change_by(
    done: Move,
    own: Own,
    lists: [Reads; Job::MOST as usize],
    count: u8,
    t: Ticket,
    i: usize,
    slot: usize,
) -> Change
    requires { (i < 16) × MayMark done own lists count i }
    ensures { result ≡ change_by i slot done (marked_by done.marks (set lists i done.own.list) count (shows_of own) (shows_of done.own) t.0) }
{
    let after = done.own;
    let mut reads = lists;
    list_reads(&done, &own, &mut reads, count, t, i);
    Change {
        reads,
        state: after.state,
        journal: after.journal,
        saved: after.slot,
        versions: after.versions,
        status: after.status,
        index: i,
        slot,
        word: done.word,
    }
}

// What ticket t's turn changes: nothing for a ticket that is none of the block's (14) or a block that does not fit (20), whose
// parts are given as they were, and else what the rules say.
pub fn change_of(b: &Block, t: Ticket) -> Change
    ensures { Changes b.now t.0 result }
{
    let refused = refusal(t, b.count, block_fits(b));
    let i = index_in(t, refused);
    let slot = slot_of(i, b.reads[i].size);
    let own = Own::of(b, i, slot);
    let done = move_or_refuse(refused, b, t, i, &own);
    change_by(done, own, b.reads, b.count, t, i, slot)
}

// A turn that neither 14 nor 20 refuses, in the block where it stands.
fn take_own_turn(b: &mut Block, t: Ticket) -> Word
    requires { (foreign b.old.count t.0 ≡ false) × (block_fits limits box (block_of b.old) ≡ true) }
    ensures { TurnsIn b.old true t.0 (record { block = b.new; word = result }) }
{
    let i = index_of(t);
    let slot = slot_of(i, b.reads[i].size);
    let own = Own::of(b, i, slot);
    let done = move_of(b, t, i, &own);
    let after = done.own;
    b.states[i] = after.state;
    b.status[i] = after.status;
    b.journals[i] = after.journal;
    b.versions[i] = after.versions;
    b.checkpoints[slot] = after.slot;
    list_reads(&done, &own, &mut b.reads, b.count, t, i);
    done.word
}

// Ticket t takes one turn in the block where it stands: 14 for a ticket that is none of the block's, 20 for a block that does not
// fit, and else the rules, in a function of their own, since a function pays at entry for all that it holds.
pub(crate) fn take_turn(b: &mut Block, fits: bool, t: Ticket) -> Word
    requires { (fits ≡ block_fits limits box (block_of b.old)) × Long b.old }
    ensures { TurnsIn b.old fits t.0 (record { block = b.new; word = result }) }
{
    match refusal(t, b.count, fits) {
        Some(word) => word,
        None => take_own_turn(b, t),
    }
}

// Ticket t takes one turn.
pub fn turn(mut b: Block, t: Ticket) -> Turned
    ensures { Turns b t.0 result }
{
    let fits = block_fits(&b);
    let word = take_turn(&mut b, fits, t);
    Turned { block: b, word }
}
