// A job's instructions in the bytes of a block: packed at the opening, and read at a step.
ghost use Rattle.std.specs.Prelude.{◌≡◌, ◌≤◌, ◌<◌, length, map};
ghost use Rattle.machine.specs.Limits.{LONGEST, JOBS};
ghost use Rattle.machine.specs.View.{code_of};
ghost use Rattle.rules.specs.Program.{packed, instruction_in, program_of, stops_of, all_packed};
ghost use Rattle.rules.specs.Steps.{StepsIn, Passes, AllPass};

use crate::block::Program;
use machine::instruction::Instruction;
use machine::job::{Job, State};
use machine::step::{Stepped, instruct};

impl Program {
    // So many instructions, each STOP.
    pub fn stops(size: u8) -> Program
        ensures { result ≡ stops_of size }
    {
        Program {
            codes: [0; Job::LONGEST as usize],
            arguments: [0; Job::LONGEST as usize],
            pushed: [0; Job::LONGEST as usize],
            size,
        }
    }

    // A job that passed, in bytes: but for PUSH, its operands are small.
    fn packed(job: &Job) -> Program
        requires { Passes job.now }
        ensures { result ≡ packed (code_of job.now) }
    {
        let mut p = Program::stops(job.size);
        for k in 0..usize::from(job.size) {
            let Instruction { code, operand } = job.code[k];
            let (argument, pushed) = if code == Instruction::PUSH {
                (0, operand)
            } else {
                (u8::try_from(operand).unwrap_or(0), 0)
            };
            p.codes[k] = code;
            p.arguments[k] = argument;
            p.pushed[k] = pushed;
        }
        p
    }

    fn instruction_at(&self, at: usize) -> Instruction
        requires { at < LONGEST }
        ensures { result ≡ instruction_in self.now at }
    {
        let code = self.codes[at];
        let operand = if code == Instruction::PUSH {
            self.pushed[at]
        } else {
            u64::from(self.arguments[at])
        };
        Instruction { code, operand }
    }

    // The instruction at which a job of a block stands.
    pub fn step(&self, s: State) -> Stepped
        requires { (s.place.0 < self.now.size) × (self.now.size ≤ LONGEST) }
        ensures { StepsIn (program_of self.now) s result }
    {
        let i = self.instruction_at(usize::from(s.place.0));
        instruct(i, self.size, s)
    }
}

// Jobs that passed in bytes, each at its place.
pub fn programs_of(jobs: &[Job]) -> [Program; Job::MOST as usize]
    requires { (length jobs.now ≤ JOBS) × AllPass jobs.now (length jobs.now) }
    ensures { result ≡ all_packed (map code_of jobs.now) }
{
    let mut all = [Program::stops(0); Job::MOST as usize];
    for (k, job) in jobs.iter().enumerate() {
        all[k] = Program::packed(job);
    }
    all
}
