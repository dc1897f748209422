// A job: its limits, its instructions, and the state in which it runs.
ghost use Rattle.std.specs.Prelude.{◌≡◌};
ghost use Rattle.machine.specs.Machine.{start};
ghost use Rattle.machine.specs.View.{fresh_state, state_of};

use crate::counts::Place;
use crate::instruction::Instruction;

// The top stands at the height's end.
#[repr(C)]
#[derive(Clone, Copy, PartialEq, Eq)]
pub struct Stack {
    pub entries: [u64; Job::ROOM as usize],
    pub height: u8,
}

#[repr(C)]
#[derive(Clone, Copy, PartialEq, Eq)]
pub struct State {
    pub place: Place,
    pub stack: Stack,
}

#[repr(C)]
#[derive(Clone, Copy, PartialEq, Eq)]
pub struct Job {
    pub code: [Instruction; Job::LONGEST as usize],
    pub size: u8,
}

impl Job {
    // Instructions in a job.
    pub const LONGEST: u8 = 64;

    // Entries on its stack.
    pub const ROOM: u8 = 16;

    // READ, and WRITE, in a job.
    pub const FEW: u8 = 8;

    // Jobs in a block.
    pub const MOST: u8 = 16;

    // The state in which every job starts.
    pub fn fresh() -> State
        ensures { (result ≡ fresh_state) × (state_of result ≡ start) }
    {
        State {
            place: Place(0),
            stack: Stack {
                entries: [0; Job::ROOM as usize],
                height: 0,
            },
        }
    }
}
