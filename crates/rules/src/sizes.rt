// Refusal 20's sizes: whether the parts of a job in work, which a caller may have altered, fit them.
ghost use Rattle.std.specs.Prelude.{◌≡◌, cond, suc, ◌-◌, ◌<◌, leb};
ghost use Rattle.theory.specs.Lists.{tab};
ghost use Rattle.machine.specs.Limits.{JOBS};
ghost use Rattle.rules.specs.Sizes.{by_code, keeps_at, bytes_within, stands_in, journal_within, versions_within, read_within, reads_within, mark_within, job_within, listed};

use crate::block::{Block, Checkpoint, Journal, Program, Read, Reads, Versions};
use machine::counts::Cell;
use machine::instruction::Instruction;
use machine::job::{Job, State};

// What the jumps have, what DUP and SWAP have, and what all others have.
fn by_code(code: u8, jump: u8, count: u8, other: u8) -> u8
    ensures { result ≡ by_code code jump count other }
{
    match code {
        Instruction::JUMP.. => jump,
        Instruction::DUP..=Instruction::SWAP => count,
        _ => other,
    }
}

// An instruction keeps to 5 and 6. Every test is made, and none by a branch, so that the compiler makes many at a time.
fn keeps(code: u8, argument: u8, next: u8, size: u8) -> bool
    requires { 0 < next }
    ensures { result ≡ keeps_at size (next - 1) code argument }
{
    let above = by_code(code, next, 1, 0) <= argument;
    let below = argument < by_code(code, size, Job::ROOM, 1);
    (code <= Instruction::JUMPZERO) & ((code == Instruction::PUSH) | (above & below))
}

// The place after each: a count would be compared eight bytes wide.
fn next_places() -> [u8; Job::LONGEST as usize]
    ensures { result ≡ tab 64 suc }
{
    let mut all = [0; Job::LONGEST as usize];
    for k in 0..Job::LONGEST {
        all[usize::from(k)] = k + 1;
    }
    all
}

// A job's instructions are few, and each keeps to 5 and 6.
fn code_fits(job: &Program) -> bool
    ensures { result ≡ bytes_within job.now.codes job.now.arguments job.now.size }
{
    if Job::LONGEST < job.size {
        return false;
    }
    let nexts = next_places();
    let mut fits = true;
    for p in 0..usize::from(job.size) {
        fits &= keeps(job.codes[p], job.arguments[p], nexts[p], job.size);
    }
    fits
}

// The place is in a job of so many instructions, and the stack within its room.
fn stands_in(s: &State, size: u8) -> bool
    ensures { result ≡ stands_in size s.now.place.0 s.now.stack.height }
{
    s.place.0 < size && s.stack.height <= Job::ROOM
}

fn journal_fits(j: &Journal) -> bool
    ensures { result ≡ journal_within j.now }
{
    let Some(entries) = j.entries.get(..usize::from(j.size)) else {
        return false;
    };
    entries.iter().all(|e| e.cell.0 < Cell::COUNT)
}

// Each version names an entry of a journal of so many; past the array's end a version names nothing.
fn versions_fit(v: &Versions, entries: u8) -> bool
    ensures { result ≡ versions_within entries v.now }
{
    let Some(numbers) = v.numbers.get(..usize::from(v.size)) else {
        return false;
    };
    numbers.iter().all(|number| *number < entries)
}

// The i-th read of a job of so many instructions, after a checkpoint with so many entries.
fn read_fits(r: &Read, c: &Checkpoint, i: u8, before: u8, size: u8) -> bool
    ensures { result ≡ read_within size before i r.now c.now }
{
    r.cell.0 < Cell::COUNT && stands_in(&c.state, size) && c.listed <= i && before <= c.writes
}

// The reads are few; no checkpoint has fewer entries than the one before it, and none more than the journal.
fn reads_fit(rs: &Reads, cs: &[Checkpoint; Block::SLOTS], size: u8, entries: u8) -> bool
    ensures { result ≡ reads_within size entries rs.now (listed cs.now) }
{
    if Job::FEW < rs.size {
        return false;
    }
    let mut before = 0;
    for i in 0..rs.size {
        let at = usize::from(i);
        let c = &cs[at];
        if !read_fits(&rs.reads[at], c, i, before, size) {
            return false;
        }
        before = c.writes;
    }
    before <= entries
}

// The mark is none, or one of so many reads.
fn mark_fits(rs: &Reads) -> bool
    ensures { result ≡ mark_within rs.now.mark rs.now.size }
{
    rs.mark == Reads::UNMARKED || rs.mark < rs.size
}

// A job in its run, with the checkpoints of its reads.
pub fn job_fits(
    job: &Program,
    state: &State,
    journal: &Journal,
    versions: &Versions,
    reads: &Reads,
    checkpoints: &[Checkpoint; Block::SLOTS],
) -> bool
    ensures { result ≡ job_within job.now state.now journal.now versions.now reads.now (listed checkpoints.now) }
{
    code_fits(job)
        && stands_in(state, job.size)
        && journal_fits(journal)
        && versions_fit(versions, journal.size)
        && reads_fit(reads, checkpoints, job.size, journal.size)
        && mark_fits(reads)
}
