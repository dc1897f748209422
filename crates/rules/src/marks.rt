// From where a job shows each cell, and marking the higher jobs where that changed.
ghost use Rattle.std.specs.Prelude.{◌≡◌, ◌-◌, ◌≤◌};
ghost use Rattle.theory.specs.Engine.{value_at, struck};
ghost use Rattle.rules.specs.View.{journal_of};
ghost use Rattle.rules.specs.Marks.{Shown, shown_in, struck_by, mark_by, mark_reads, sweep, ListsFit};

use crate::block::{Journal, Read, Reads, Versions};
use machine::counts::{Cell, Ticket};
use machine::job::Job;

// A job's journal and public versions: from where it shows each cell.
#[derive(Clone, Copy)]
pub struct Shows {
    pub journal: Journal,
    pub versions: Versions,
}

impl Shows {
    // The entry from which a cell is shown.
    fn entry_for(&self, c: Cell) -> Option<u8>
        requires { Shown self.now }
        ensures { result ≡ shown_in self.now c.0 }
    {
        for k in 0..self.versions.size {
            let number = self.versions.numbers[usize::from(k)];
            if self.journal.entry_at(number).cell == c {
                return Some(number);
            }
        }
        None
    }

    // The value of a cell's public version, where there is one.
    pub(crate) fn value_for(&self, c: Cell) -> Option<u64>
        requires { Shown self.now }
        ensures { result ≡ value_at (journal_of self.now.journal) (shown_in self.now c.0) }
    {
        let number = self.entry_for(c)?;
        Some(self.journal.entry_at(number).value)
    }
}

// Whether a read with this source is to be marked, where ticket t showed its cell from one place and shows it from another.
fn is_struck(before: Option<u8>, after: Option<u8>, t: Ticket, source: Ticket) -> bool
    ensures { result ≡ struck before after t.0 source.0 }
{
    match (before, after) {
        (None, None) => false,
        (None, Some(_)) => source <= t,
        (Some(_), None) => source == t,
        (Some(a), Some(b)) => a != b && source <= t,
    }
}

// What the job with a ticket showed before its move, and what it shows after it.
#[derive(Clone, Copy)]
pub struct Changed {
    pub old: Shows,
    pub new: Shows,
    pub ticket: Ticket,
    ghost shown_before: { Shown old },
    ghost shown_after: { Shown new },
}

impl Changed {
    // Whether a higher job's listed read is to be marked.
    fn strikes(&self, r: Read) -> bool
        ensures { result ≡ struck_by self.now.old self.now.new self.now.ticket.0 r }
    {
        let before = self.old.entry_for(r.cell);
        let after = self.new.entry_for(r.cell);
        is_struck(before, after, self.ticket, r.source)
    }

    // The mark of a higher job after that: of two marks the earlier.
    fn mark_after(&self, reads: &Reads) -> u8
        requires { reads.now.size ≤ 8 }
        ensures { result ≡ mark_by self.now.old self.now.new self.now.ticket.0 reads.now }
    {
        for k in 0..reads.size {
            if self.strikes(reads.reads[usize::from(k)]) {
                return k.min(reads.mark);
            }
        }
        reads.mark
    }

    fn marked(&self, reads: Reads) -> Reads
        requires { reads.size ≤ 8 }
        ensures { result ≡ mark_reads self.now.old self.now.new self.now.ticket.0 reads }
    {
        Reads {
            mark: self.mark_after(&reads),
            ..reads
        }
    }

    // Marks each job above the ticket.
    pub fn mark_above(
        &self,
        mut lists: [Reads; Job::MOST as usize],
        count: u8,
    ) -> [Reads; Job::MOST as usize]
        requires { (count ≤ 16) × ListsFit lists count }
        ensures { result ≡ sweep (mark_reads self.now.old self.now.new self.now.ticket.0) self.now.ticket.0 (count - self.now.ticket.0) lists }
    {
        for k in self.ticket.0..count {
            lists[usize::from(k)] = self.marked(lists[usize::from(k)]);
        }
        lists
    }
}
