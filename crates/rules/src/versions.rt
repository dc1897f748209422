// The public versions of a job, and the search for the version that a reader finds.
ghost use Rattle.std.specs.Prelude.{◌≡◌, ◌++◌, ◌∷◌, [], ◌≤◌, ◌<◌};
ghost use Rattle.theory.specs.Engine.{published, withdrawn};
ghost use Rattle.rules.specs.View.{empty_versions, journal_of, versions_of, version_of, found_in, last_one, kept_one, ShowingBelow};

use crate::block::{Journal, Versions, pushed};
use crate::journal::writes;
use crate::marks::Shows;
use crate::own::Around;
use machine::counts::{Cell, Ticket};
use machine::job::Job;

// A version that a reader finds: its source ticket, 0 for the start table, and its value.
#[derive(Clone, Copy)]
pub struct Version {
    pub source: Ticket,
    pub value: u64,
}

impl Versions {
    pub fn empty() -> Versions
        ensures { (result ≡ empty_versions) × (versions_of result ≡ []) }
    {
        Versions {
            numbers: [0; Job::FEW as usize],
            size: 0,
        }
    }

    fn with_version(self, number: u8) -> Versions
        requires { self.size < 8 }
        ensures { versions_of result ≡ versions_of self ++ (number ∷ []) }
    {
        Versions {
            numbers: pushed(self.numbers, self.size, number),
            size: self.size + 1,
        }
    }

    // One version more if the k-th entry is the last of its cell.
    fn with_last(self, j: Journal, k: u8) -> Versions
        requires { (j.size ≤ 8) × (k < j.size) × (self.size ≤ k) }
        ensures { versions_of result ≡ versions_of self ++ last_one (journal_of j) k }
    {
        if writes(&j.held()[usize::from(k) + 1..], j.entry_at(k).cell) {
            self
        } else {
            self.with_version(k)
        }
    }

    // One version more if its entry stays, that is, stands before the n-th.
    fn with_kept(self, number: u8, n: u8) -> Versions
        requires { self.size < 8 }
        ensures { versions_of result ≡ versions_of self ++ kept_one n number }
    {
        if number < n {
            self.with_version(number)
        } else {
            self
        }
    }

    // Going back withdraws the versions that came from the n-th entry on.
    pub fn withdraw(self, n: u8) -> Versions
        requires { self.size ≤ 8 }
        ensures { versions_of result ≡ withdrawn n (versions_of self) }
    {
        let mut kept = Versions::empty();
        for k in 0..self.size {
            kept = kept.with_kept(self.numbers[usize::from(k)], n);
        }
        kept
    }
}

impl Journal {
    // STOP makes public, for each cell in the journal, the last entry.
    pub fn publish(self) -> Versions
        requires { self.size ≤ 8 }
        ensures { versions_of result ≡ published (journal_of self) }
    {
        let mut v = Versions::empty();
        for k in 0..self.size {
            v = v.with_last(self, k);
        }
        v
    }
}

impl Around {
    // What a reader finds for a cell whose start value is given, with the jobs of the tickets 1 to t below it:
    // by recursion on the ticket, which falls to 0, the start table.
    pub fn find_version(&self, start: u64, c: Cell, t: Ticket) -> Version
        requires { (t.0 ≤ 16) × ShowingBelow self.now.journals self.now.versions t.0 }
        ensures { version_of result ≡ found_in self.now.journals self.now.versions start c.0 t.0 }
    {
        if t.0 == 0 {
            return Version {
                source: t,
                value: start,
            };
        }
        let lower = t.0 - 1;
        let shows = Shows {
            journal: self.journals[usize::from(lower)],
            versions: self.versions[usize::from(lower)],
        };
        let Some(value) = shows.value_for(c) else {
            return self.find_version(start, c, Ticket(lower));
        };
        Version { source: t, value }
    }
}
