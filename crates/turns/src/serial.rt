// The serial run: the jobs of a paper one after another, each alone on the table that those before it left.
ghost use Rattle.std.specs.Prelude.{◌≡◌, ◌≤◌, ◌<◌, length};
ghost use Rattle.theory.specs.Lists.{tab};
ghost use Rattle.theory.specs.Serial.{over, alone, serial};
ghost use Rattle.machine.specs.Limits.{LONGEST, FEW, CELLS};
ghost use Rattle.machine.specs.Machine.{starting};
ghost use Rattle.machine.specs.View.{code_of};
ghost use Rattle.rules.specs.Box.{box};
ghost use Rattle.rules.specs.View.{journal_of};
ghost use Rattle.turns.specs.SerialRun.{cells_of, Serves};
ghost use Rattle.rules.specs.Steps.{StepsIn, Passes, AllPass};
ghost use Rattle.turns.specs.Alone.{Writes, Leaves, Runs, GoesOn, Begins, starts};

use crate::open::{OpenRefusal, Table};
use machine::counts::Cell;
use machine::job::{Job, State};
use machine::paper::check_paper;
use machine::step::{Act, Stepped, instruct};
use rules::block::{Entry, Journal};
use std::ops::ControlFlow;

// A job alone that has not ended.
#[derive(Clone, Copy)]
struct Alone {
    state: State,
    journal: Journal,
}

// A job alone reads its own last write of a cell, else the table.
fn read_alone(j: Journal, c: Cell, table: &Table) -> u64
    requires { (j.size ≤ FEW) × (c.0 < CELLS) }
    ensures { result ≡ over (journal_of j) (cells_of table.now) c.0 }
{
    match j.last_value(c) {
        Some(value) => value,
        None => table[usize::from(c.0)],
    }
}

// The instruction at which a job stands.
fn instruct_at(job: &Job, s: State) -> Stepped
    requires { (s.place.0 < job.now.size) × (job.now.size ≤ LONGEST) }
    ensures { StepsIn (code_of job.now) s result }
{
    instruct(job.code[s.place.0 as usize], job.size, s)
}

fn begin_alone() -> Alone
    ensures { Begins result }
{
    Alone {
        state: Job::fresh(),
        journal: Journal::empty(),
    }
}

// One instruction of a job alone, or its end: STOP applies its writes, ABANDON none. A job that passed is never stuck.
fn step_alone(job: &Job, a: Alone, table: &Table) -> ControlFlow<Journal, Alone>
    requires { Runs (code_of job.now) (cells_of table.now) a }
    ensures { GoesOn (code_of job.now) (cells_of table.now) a result }
{
    let Stepped { act, state } = instruct_at(job, a.state);
    match act {
        Act::Nothing => ControlFlow::Continue(Alone { state, ..a }),
        Act::Read(c) => ControlFlow::Continue(Alone {
            state: state.given(read_alone(a.journal, c, table)),
            ..a
        }),
        Act::Write(cell, value) => ControlFlow::Continue(Alone {
            state,
            journal: a.journal.with_entry(Entry { cell, value }),
        }),
        Act::Stop => ControlFlow::Break(a.journal),
        Act::Abandon | Act::Stuck => ControlFlow::Break(Journal::empty()),
    }
}

// A job alone: the writes that it applies.
fn run_alone(job: &Job, table: &Table) -> Journal
    requires { Passes job.now }
    ensures { Leaves (code_of job.now) (cells_of table.now) result }
{
    let mut a = begin_alone();
    'steps: loop {
        match step_alone(job, a, table) {
            ControlFlow::Continue(next) => a = next,
            ControlFlow::Break(journal) => return journal,
        }
    }
}

// Applies writes in order.
fn apply_writes(j: Journal, table: &mut Table)
    requires { Writes j }
    ensures { cells_of table.new ≡ over (journal_of j) (cells_of table.old) }
{
    for e in &j.entries[..j.size as usize] {
        table[e.cell.0 as usize] = e.value;
    }
}

fn run_job(job: &Job, table: &mut Table)
    requires { Passes job.now }
    ensures { cells_of table.new ≡ alone box (cells_of table.old) (starting (code_of job.now)) }
{
    let j = run_alone(job, table);
    apply_writes(j, table);
}

// One after another.
fn run_jobs(jobs: &[Job], table: &mut Table)
    requires { AllPass jobs.now (length jobs.now) }
    ensures { table.new ≡ tab CELLS (serial box (cells_of table.old) (starts jobs.now) (length jobs.now)) }
{
    for job in jobs {
        run_job(job, table);
    }
}

// Both tables are tested for 12, then the paper is checked, as at an opening; every refusal leaves the output untouched.
// Else all jobs run.
pub fn run_serially(start: &[u64], output: &mut [u64], paper: &[u8]) -> Result<(), OpenRefusal>
    ensures { Serves start.now output.old paper.now result output.new }
{
    let Ok(start) = <&Table>::try_from(start) else {
        return Err(OpenRefusal::WrongTable);
    };
    if output.len() != Cell::COUNT as usize {
        return Err(OpenRefusal::WrongTable);
    }
    let all = check_paper(paper)?;
    let output = output.first_chunk_mut().unwrap();
    *output = *start;
    run_jobs(&all.jobs[..all.count as usize], output);
    Ok(())
}
