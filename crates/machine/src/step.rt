// One instruction on a state: what it asks of its surroundings, and the state after it.
ghost use Rattle.std.specs.Prelude.{◌≡◌, ◌-◌, ◌<◌, ◌≤◌, true, false, ◌∷◌, drop, slice_index, slice_set, MatchOption};
ghost use Rattle.machine.specs.Limits.{ROOM};
ghost use Rattle.machine.specs.Machine.{stack_after, place_after, moved, placed, suffices, ready, asked, given};
ghost use Rattle.machine.specs.Able.{Able};
ghost use Rattle.machine.specs.View.{stack_of, state_of, act_of, Steps};

use crate::counts::{Cell, Place};
use crate::instruction::Instruction;
use crate::job::{Job, Stack, State};

#[derive(Clone, Copy)]
pub enum Act {
    Nothing,
    Read(Cell),
    Write(Cell, u64),
    Stop,
    Abandon,
    Stuck,
}

// The state is the one after the instruction, before a READ is given its value.
#[derive(Clone, Copy)]
pub struct Stepped {
    pub act: Act,
    pub state: State,
}

impl Stack {
    // The entry k below the top.
    fn entry(self, k: u8) -> u64
        requires { (k < self.height) × (self.height ≤ ROOM) }
        ensures { result ≡ slice_index (stack_of self) k }
    {
        self.entries[usize::from(self.height - 1 - k)]
    }

    fn put(self, k: u8, v: u64) -> Stack
        requires { (k < self.height) × (self.height ≤ ROOM) }
        ensures { stack_of result ≡ slice_set (stack_of self) k v }
    {
        let mut stack = self;
        stack.entries[usize::from(self.height - 1 - k)] = v;
        stack
    }

    fn dropped(self, n: u8) -> Stack
        requires { n ≤ self.height }
        ensures { stack_of result ≡ drop n (stack_of self) }
    {
        Stack {
            height: self.height - n,
            ..self
        }
    }

    // One entry in place of the first n.
    fn replaced(self, n: u8, v: u64) -> Stack
        requires { (n ≤ self.height) × (self.height - n < ROOM) }
        ensures { stack_of result ≡ v ∷ drop n (stack_of self) }
    {
        let mut stack = self;
        stack.height -= n;
        stack.entries[usize::from(stack.height)] = v;
        stack.height += 1;
        stack
    }

    // The top exchanged with the k-th below it.
    fn swapped(self, k: u8) -> Stack
        requires { (1 ≤ k) × (k < self.height) × (self.height ≤ ROOM) }
        ensures { stack_of result ≡ slice_index (stack_of self) k ∷ slice_set (drop 1 (stack_of self)) (k - 1) (slice_index (stack_of self) 0) }
    {
        self.put(k, self.entry(0)).put(0, self.entry(k))
    }
}

// An instruction that finds what it needs in a state.
#[derive(Clone, Copy)]
struct Ready {
    instruction: Instruction,
    state: State,
    ghost able: { Able instruction (state_of state) },
}

impl Ready {
    // Nothing where it is not ready.
    fn of(instruction: Instruction, size: u8, state: State) -> Option<Ready>
        ensures { MatchOption result (ready ROOM size instruction (state_of state) ≡ false) (λ r. (r.instruction ≡ instruction) × (r.state ≡ state) × (ready ROOM size instruction (state_of state) ≡ true)) }
    {
        if is_placed(instruction, size, state.place) && is_enough(instruction, state.stack.height) {
            Some(Ready { instruction, state })
        } else {
            None
        }
    }

    // The stack after it; a READ's value is still 0.
    #[tactic(auto, using(crate::specs::View::length_tops), unfolding(crate::specs::Machine::stack_after, crate::specs::Machine::stays, crate::specs::Instruction::need, crate::specs::Instruction::after))]
    fn stack_after(self) -> Stack
        ensures { stack_of result ≡ stack_after self.instruction 0 (stack_of self.state.stack) }
    {
        let stack = self.state.stack;
        let operand = self.instruction.operand;
        match self.instruction.code {
            Instruction::PUSH => stack.replaced(0, operand),
            Instruction::POP | Instruction::JUMPZERO => stack.dropped(1),
            Instruction::DUP => stack.replaced(0, stack.entry((operand - 1) as u8)),
            Instruction::SWAP => stack.swapped(operand as u8),
            Instruction::ADD => stack.replaced(2, stack.entry(0).wrapping_add(stack.entry(1))),
            Instruction::SUB => stack.replaced(2, stack.entry(0).wrapping_sub(stack.entry(1))),
            Instruction::LESS => stack.replaced(2, u64::from(stack.entry(0) < stack.entry(1))),
            Instruction::EQUAL => stack.replaced(2, u64::from(stack.entry(0) == stack.entry(1))),
            Instruction::READ => stack.replaced(1, 0),
            Instruction::WRITE => stack.dropped(2),
            _ => stack,
        }
    }

    // The place after it.
    #[tactic(auto, using(crate::specs::View::length_tops), unfolding(crate::specs::Machine::place_after, crate::specs::Instruction::need))]
    fn place_after(self) -> Place
        ensures { result.0 ≡ place_after self.instruction (state_of self.state) }
    {
        let here = self.state.place;
        let operand = self.instruction.operand;
        match self.instruction.code {
            Instruction::STOP | Instruction::ABANDON => here,
            Instruction::JUMP => Place(operand as u8),
            Instruction::JUMPZERO if self.state.stack.entry(0) == 0 => Place(operand as u8),
            _ => Place(here.0 + 1),
        }
    }

    // What it asks.
    #[tactic(auto, using(crate::specs::View::length_tops), unfolding(crate::specs::Machine::asked, crate::specs::Instruction::need))]
    fn asks(self) -> Act
        ensures { act_of result (moved self.instruction 0 (state_of self.state)) ≡ asked self.instruction (state_of self.state) }
    {
        let stack = self.state.stack;
        match self.instruction.code {
            Instruction::STOP => Act::Stop,
            Instruction::ABANDON => Act::Abandon,
            Instruction::READ => Act::Read(Cell::named(stack.entry(0))),
            Instruction::WRITE => Act::Write(Cell::named(stack.entry(0)), stack.entry(1)),
            _ => Act::Nothing,
        }
    }
}

// Whether it stands at a place of a job of so many, keeps to 5 and 6, and has a next place if it leads on.
#[tactic(auto, unfolding(crate::specs::Machine::placed))]
fn is_placed(i: Instruction, size: u8, place: Place) -> bool
    ensures { result ≡ placed size i place.0 }
{
    place.0 < size && i.known() && i.fits(place, size) && (!i.leads_on() || place.0 + 1 < size)
}

// Whether a stack of this height is within its room, has the entries needed, and room for what is left.
#[tactic(auto, unfolding(crate::specs::Machine::suffices))]
fn is_enough(i: Instruction, height: u8) -> bool
    ensures { result ≡ suffices ROOM i height }
{
    height <= Job::ROOM && i.suits(height)
}

// One instruction of a job of so many: nothing changes where it is stuck.
pub fn instruct(i: Instruction, size: u8, s: State) -> Stepped
    ensures { Steps ROOM size i (state_of s) result.act (state_of result.state) }
{
    let Some(ready) = Ready::of(i, size, s) else {
        return Stepped {
            act: Act::Stuck,
            state: s,
        };
    };
    Stepped {
        act: ready.asks(),
        state: State {
            place: ready.place_after(),
            stack: ready.stack_after(),
        },
    }
}

impl State {
    // The value that a READ is given takes the place of the cell number.
    #[tactic(auto, using(crate::specs::View::length_tops), unfolding(crate::specs::Machine::given))]
    pub fn given(self, value: u64) -> State
        ensures { state_of result ≡ given ROOM value (state_of self) }
    {
        if Job::ROOM < self.stack.height || self.stack.height == 0 {
            return self;
        }
        State {
            stack: self.stack.put(0, value),
            ..self
        }
    }
}
