// The journal of a job: the last entry for a cell, and one entry more.
ghost use Rattle.std.specs.Prelude.{◌≡◌, ◌++◌, ◌∷◌, [], ◌≤◌, ◌<◌, get_or, take, nat_eq};
ghost use Rattle.std.specs.List.{list_any};
ghost use Rattle.theory.specs.Engine.{no_entry, last_at, last_value};
ghost use Rattle.rules.specs.View.{empty_journal, entry_of, journal_of};

use crate::block::{Entry, Journal, pushed};
use machine::counts::Cell;
use machine::job::Job;

// Whether one of these entries writes the cell.
pub(crate) fn writes(entries: &[Entry], c: Cell) -> bool
    ensures { result ≡ list_any (λ e. nat_eq e.cell.0 c.0) entries.now }
{
    entries.iter().any(|e| e.cell == c)
}

impl Journal {
    pub fn empty() -> Journal
        ensures { (result ≡ empty_journal) × (journal_of result ≡ []) }
    {
        let none = Entry {
            cell: Cell(0),
            value: 0,
        };
        Journal {
            entries: [none; Job::FEW as usize],
            size: 0,
        }
    }

    pub fn entry_at(self, number: u8) -> Entry
        requires { (self.size ≤ 8) × (number < self.size) }
        ensures { entry_of result ≡ get_or (journal_of self) number no_entry }
    {
        self.entries[usize::from(number)]
    }

    // The number of the last entry for a cell.
    pub fn last_entry(self, c: Cell) -> Option<u8>
        requires { self.size ≤ 8 }
        ensures { result ≡ last_at (journal_of self) c.0 }
    {
        for k in (0..self.size).rev() {
            if self.entries[usize::from(k)].cell == c {
                return Some(k);
            }
        }
        None
    }

    // The value of the last entry for a cell.
    pub fn last_value(self, c: Cell) -> Option<u64>
        requires { self.size ≤ 8 }
        ensures { result ≡ last_value (journal_of self) c.0 }
    {
        let number = self.last_entry(c)?;
        Some(self.entry_at(number).value)
    }

    // The entries that it holds.
    pub(crate) fn held(&self) -> &[Entry]
        requires { self.now.size ≤ 8 }
        ensures { result.now ≡ take self.now.size self.now.entries }
    {
        &self.entries[..usize::from(self.size)]
    }

    // One entry more.
    pub fn with_entry(self, e: Entry) -> Journal
        requires { self.size < 8 }
        ensures { journal_of result ≡ journal_of self ++ (entry_of e ∷ []) }
    {
        Journal {
            entries: pushed(self.entries, self.size, e),
            size: self.size + 1,
        }
    }
}
