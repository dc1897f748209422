// The checker's verdict of one job.
ghost use Rattle.std.specs.Prelude.{◌≡◌, ◌<◌, ◌≤◌, true, length};
ghost use Rattle.machine.specs.Limits.{LONGEST, ROOM, FEW};
ghost use Rattle.machine.specs.Instruction.{after};
ghost use Rattle.machine.specs.Verdict.{sound, scan, form_of, form_at, end_of, meet, bring, lead, led_of, meeting_of, found_of, height_of, entries_of, entries_at, flow_of, job_verdict};
ghost use Rattle.machine.specs.View.{code_of, number, finding_of};
ghost use Rattle.machine.specs.Fitting.{Fitting};

use crate::counts::Place;
use crate::instruction::Instruction;
use crate::job::Job;

// The refusals 1 to 11, in document 01's order.
#[derive(Clone, Copy, PartialEq, Eq)]
pub enum Fault {
    Head = 1,
    Tag = 2,
    Jobs = 3,
    Length = 4,
    Code = 5,
    Operand = 6,
    LeadsOn = 7,
    NotLed = 8,
    Entries = 9,
    Heights = 10,
    TooMany = 11,
}

impl Fault {
    // Document 01's number.
    pub fn number(self) -> u8
        ensures { result ≡ number self }
    {
        self as u8
    }

    // Found at this place.
    pub(crate) fn at(self, place: Place) -> Flaw
        ensures { result ≡ record { fault = self; place = place } }
    {
        Flaw { fault: self, place }
    }
}

// A fault, and the place where it was found.
#[derive(Clone, Copy, PartialEq, Eq)]
pub struct Flaw {
    pub fault: Fault,
    pub place: Place,
}

// Nothing found, or the first flaw.
pub type Check = Result<(), Flaw>;

// What earlier places bring to a place: nobody leads there, one height, or two, of which the first is kept.
#[derive(Clone, Copy, PartialEq, Eq)]
pub enum Met {
    Nobody,
    Height(u8),
    Clash(u8),
}

impl Met {
    // What is known once a height is brought.
    fn with(self, h: u8) -> Met
        ensures { result ≡ meet self h }
    {
        match self {
            Met::Nobody => Met::Height(h),
            Met::Height(g) if g == h => Met::Height(g),
            Met::Height(g) | Met::Clash(g) => Met::Clash(g),
        }
    }
}

// 5, 6, 11 at one place of a job of so many, after so many READ and WRITE.
#[tactic(auto, unfolding(crate::specs::Verdict::form_of, crate::specs::View::finding_of))]
fn check_form(i: Instruction, place: Place, size: u8, reads: u8, writes: u8) -> Check
    ensures { finding_of result ≡ form_of FEW size place.0 i reads writes }
{
    if !i.known() {
        return Err(Fault::Code.at(place));
    }
    if !i.fits(place, size) {
        return Err(Fault::Operand.at(place));
    }
    if i.code == Instruction::READ && Job::FEW <= reads
        || i.code == Instruction::WRITE && Job::FEW <= writes
    {
        return Err(Fault::TooMany.at(place));
    }
    Ok(())
}

// 8
#[tactic(auto, unfolding(crate::specs::View::finding_of))]
fn check_led(place: Place, m: Met) -> Check
    ensures { finding_of result ≡ led_of place.0 m }
{
    match m {
        Met::Nobody => Err(Fault::NotLed.at(place)),
        Met::Height(_) | Met::Clash(_) => Ok(()),
    }
}

// 10
#[tactic(auto, unfolding(crate::specs::View::finding_of))]
fn check_meeting(place: Place, m: Met) -> Check
    ensures { finding_of result ≡ meeting_of place.0 m }
{
    match m {
        Met::Nobody | Met::Height(_) => Ok(()),
        Met::Clash(_) => Err(Fault::Heights.at(place)),
    }
}

// 9 at a height.
#[tactic(auto, unfolding(crate::specs::View::finding_of))]
fn check_found(i: Instruction, place: Place, h: u8) -> Check
    ensures { finding_of result ≡ found_of ROOM i place.0 h }
{
    if i.suits(h) {
        Ok(())
    } else {
        Err(Fault::Entries.at(place))
    }
}

// 9 at the height first brought, whether or not others clash with it.
#[tactic(auto, unfolding(crate::specs::View::finding_of))]
fn check_height(i: Instruction, place: Place, m: Met) -> Check
    ensures { finding_of result ≡ height_of ROOM i place.0 m }
{
    match m {
        Met::Nobody => Ok(()),
        Met::Height(h) | Met::Clash(h) => check_found(i, place, h),
    }
}

// 8, 10, 9 at one place.
#[tactic(auto, unfolding(crate::specs::View::finding_of))]
fn check_entries(i: Instruction, place: Place, m: Met) -> Check
    ensures { finding_of result ≡ entries_of ROOM i place.0 m }
{
    let led = check_led(place, m);
    let Ok(()) = led else {
        return led;
    };
    let meeting = check_meeting(place, m);
    let Ok(()) = meeting else {
        return meeting;
    };
    check_height(i, place, m)
}

// What a height brought to a place makes of what is known.
fn bring(known: &mut [Met; Job::LONGEST as usize], t: u64, h: u8)
    requires { t < LONGEST }
    ensures { known.new ≡ bring true t h known.old }
{
    known[t as usize] = known[t as usize].with(h);
}

// What an instruction that passed at its place brings to the places that it leads to.
fn lead_from(i: Instruction, place: Place, m: Met, known: &mut [Met; Job::LONGEST as usize])
    requires { (Fitting place.0 i) × (entries_of ROOM i place.0 m ≡ sound) }
    ensures { known.new ≡ lead i place.0 m known.old }
{
    if let Met::Height(h) = m {
        let after = i.leaves(h) as u8;
        if i.leads_on() {
            bring(known, u64::from(place.0) + 1, after);
        }
        if i.jumps() {
            bring(known, i.operand, after);
        }
    }
}

// The instructions of a job, no more than a job may have.
#[derive(Clone, Copy)]
struct Code<'a> {
    list: &'a [Instruction],
    ghost few: { length list.now ≤ LONGEST },
}

impl Code<'_> {
    // Place by place 5, 6, 11.
    fn check_forms(self) -> Check
        ensures { finding_of result ≡ scan (form_at FEW self.entry.list.now) 0 (length self.entry.list.now) }
    {
        let size = self.list.len() as u8;
        let mut reads = 0;
        let mut writes = 0;
        for (p, i) in self.list.iter().enumerate() {
            let check = check_form(*i, Place(p as u8), size, reads, writes);
            let Ok(()) = check else {
                return check;
            };
            reads += u8::from(i.code == Instruction::READ);
            writes += u8::from(i.code == Instruction::WRITE);
        }
        Ok(())
    }

    // 7
    #[tactic(auto, unfolding(crate::specs::Verdict::end_of, crate::specs::Instruction::leads_on, crate::specs::View::finding_of))]
    fn check_end(self) -> Check
        ensures { finding_of result ≡ end_of self.entry.list.now }
    {
        match self.list.last() {
            Some(i) if i.leads_on() => Err(Fault::LeadsOn.at(Place((self.list.len() - 1) as u8))),
            _ => Ok(()),
        }
    }

    // Place by place 8, 10, 9.
    fn check_heights(self) -> Check
        requires { (scan (form_at FEW self.list.now) 0 (length self.list.now) ≡ sound) × (end_of self.list.now ≡ sound) }
        ensures { finding_of result ≡ scan (entries_at ROOM LONGEST self.entry.list.now) 0 (length self.entry.list.now) }
    {
        let mut known = [Met::Nobody; Job::LONGEST as usize];
        known[0] = Met::Height(0);
        for (p, i) in self.list.iter().enumerate() {
            let place = Place(p as u8);
            let met = known[p];
            let check = check_entries(*i, place, met);
            let Ok(()) = check else {
                return check;
            };
            lead_from(*i, place, met, &mut known);
        }
        Ok(())
    }

    // 7; then place by place 8, 10, 9.
    #[tactic(auto, unfolding(crate::specs::Verdict::flow_of, crate::specs::View::finding_of))]
    fn check_flow(self) -> Check
        requires { scan (form_at FEW self.list.now) 0 (length self.list.now) ≡ sound }
        ensures { finding_of result ≡ flow_of LONGEST ROOM self.entry.list.now }
    {
        let end = self.check_end();
        let Ok(()) = end else {
            return end;
        };
        self.check_heights()
    }
}

// The first fault found in a job; 4 where it has no instruction, or too many.
#[tactic(auto, using(theory::specs::Lists::firsts_take, theory::specs::Lists::length_firsts), unfolding(crate::specs::Verdict::verdict_of, crate::specs::Verdict::size_of, crate::specs::View::finding_of))]
pub fn check_job(j: Job) -> Check
    ensures { finding_of result ≡ job_verdict (code_of j) }
{
    if j.size == 0 || Job::LONGEST < j.size {
        return Err(Fault::Length.at(Place(0)));
    }
    let code = Code {
        list: &j.code[..usize::from(j.size)],
    };
    let forms = code.check_forms();
    let Ok(()) = forms else {
        return forms;
    };
    code.check_flow()
}
