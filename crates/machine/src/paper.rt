// The checker of a whole paper: any bytes, to the jobs or the refusal.
ghost use Rattle.std.specs.Prelude.{◌≡◌, ◌+◌, ◌-◌, ◌/◌, ◌≤◌, length};
ghost use Rattle.machine.specs.Limits.{JOBS};
ghost use Rattle.machine.specs.Paper.{size, instruction, instructions, later, frame_of, paper_answer};
ghost use Rattle.machine.specs.View.{code_of, finding_of, Takes, Answers};

use crate::bytes;
use crate::counts::Place;
use crate::instruction::Instruction;
use crate::job::Job;
use crate::verdict::{Check, Fault, Flaw, check_job};

// Fields count from 1.
#[derive(Clone, Copy, PartialEq, Eq, PartialOrd, Ord)]
pub struct Field(pub u8);

impl Field {
    // The tag of a job's field.
    pub const TAG: u8 = 0x10;

    // Bytes before the contents: the tag and the length.
    pub const HEAD: usize = 3;

    // Bytes of the longest job.
    pub const LONGEST: usize = Instruction::BYTES * (Job::LONGEST as usize);
}

// The jobs of an accepted paper.
#[derive(Clone, Copy, PartialEq, Eq)]
pub struct Jobs {
    pub jobs: [Job; Job::MOST as usize],
    pub count: u8,
}

// A refused paper: the fault, its field, and the place in the field's job.
#[derive(Clone, Copy, PartialEq, Eq)]
pub struct Refusal {
    pub fault: Fault,
    pub field: Field,
    pub place: Place,
}

impl Flaw {
    fn in_field(self, field: u8) -> Refusal
        ensures { (result.fault ≡ self.fault) × (result.field.0 ≡ field) × (result.place ≡ self.place) }
    {
        Refusal {
            fault: self.fault,
            field: Field(field),
            place: self.place,
        }
    }
}

// The length of the contents of the field that starts here.
#[tactic(auto, unfolding(crate::specs::Paper::size))]
pub fn size_of_field(rest: &[u8]) -> usize
    requires { 3 ≤ length rest.now }
    ensures { result ≡ size rest.now }
{
    bytes::little_of(&rest[1..Field::HEAD]) as usize
}

// What follows the field that starts here.
#[tactic(auto, using(std::proofs::lemmas::List::take_rest), unfolding(crate::specs::Paper::later))]
pub fn after_field(rest: &[u8]) -> &[u8]
    requires { 3 + size rest.now ≤ length rest.now }
    ensures { result.now ≡ later rest.now }
{
    &rest[Field::HEAD + size_of_field(rest)..]
}

// The instruction that starts here.
#[tactic(auto, unfolding(crate::specs::Paper::instruction))]
fn instruction_of(rest: &[u8]) -> Instruction
    requires { 9 ≤ length rest.now }
    ensures { result ≡ instruction rest.now }
{
    Instruction {
        code: rest[0],
        operand: bytes::little_of(&rest[1..Instruction::BYTES]),
    }
}

// The job of a field's contents.
fn job_of(contents: &[u8]) -> Job
    requires { length contents.now ≤ 576 }
    ensures { code_of result ≡ instructions (length contents.now / 9) contents.now }
{
    let mut job = empty_job();
    let size = contents.len() / Instruction::BYTES;
    for k in 0..size {
        job.code[k] = instruction_of(&contents[Instruction::BYTES * k..]);
    }
    job.size = size as u8;
    job
}

// 1 to 4 of the field that starts here, after so many jobs.
#[tactic(auto, unfolding(crate::specs::Paper::frame_of, crate::specs::View::finding_of))]
fn check_frame(rest: &[u8], count: u8) -> Check
    requires { count ≤ JOBS }
    ensures { finding_of result ≡ frame_of (JOBS - count) rest.now }
{
    let place = Place(0);
    if rest.len() < Field::HEAD {
        return Err(Fault::Head.at(place));
    }
    let size = size_of_field(rest);
    let fault = if rest.len() - Field::HEAD < size {
        Fault::Head
    } else if rest[0] != Field::TAG {
        Fault::Tag
    } else if count == Job::MOST {
        Fault::Jobs
    } else if size == 0 || Field::LONGEST < size || size % Instruction::BYTES != 0 {
        Fault::Length
    } else {
        return Ok(());
    };
    Err(fault.at(place))
}

fn empty_job() -> Job {
    let stop = Instruction {
        code: Instruction::STOP,
        operand: 0,
    };
    Job {
        code: [stop; Job::LONGEST as usize],
        size: 0,
    }
}

// 1 to 4 of the field that starts here, and its job's verdict.
#[tactic(auto, using(crate::specs::Framed::framed), unfolding(crate::specs::Paper::field_of, crate::specs::View::finding_of))]
fn take_field(rest: &[u8], count: u8) -> Result<Job, Flaw>
    requires { count ≤ JOBS }
    ensures { Takes (JOBS - count) rest.now result }
{
    check_frame(rest, count)?;
    let job = job_of(&rest[Field::HEAD..Field::HEAD + size_of_field(rest)]);
    check_job(job)?;
    Ok(job)
}

// The jobs of a paper, or the first fault found.
pub fn check_paper(paper: &[u8]) -> Result<Jobs, Refusal>
    ensures { Answers result (paper_answer paper.now) }
{
    let mut jobs = [empty_job(); Job::MOST as usize];
    let mut count: u8 = 0;
    let mut rest = paper;
    while !rest.is_empty() {
        let job = match take_field(rest, count) {
            Ok(job) => job,
            Err(flaw) => return Err(flaw.in_field(count + 1)),
        };
        jobs[count as usize] = job;
        count += 1;
        rest = after_field(rest);
    }
    Ok(Jobs { jobs, count })
}
