// The vectors of waits: the calls of a chain, and the steps to the first model, between two models and to the end compared with the trails
// of these.
ghost use Rattle.std.specs.Prelude.{◌+◌, ◌-◌, ◌<◌, ◌≤◌, ◌^◌, ◌&&◌, [], map, ◌≡◌, eqb, length, IfOk};
ghost use Rattle.limits.specs.Limits.{max_variables};
ghost use Rattle.walk.specs.Checkpoints.{byte_number, byte_literal};
ghost use Rattle.walk.specs.Gaps.{same_literal};
ghost use Rattle.enumeration.specs.Values.{checkpoint_values, call_values};
ghost use Rattle.vectors.specs.Corpus.{parts_of};
ghost use Rattle.cases.specs.Waiting.{shared_bytes, checkpoint_trail, last_trail, due, may_end, most, tallied_in, tallied, NoneYet, AfterCall, calls_of, waits_agree};

use crate::walking::call;
use enumeration::{Answer, Checkpoint, Walked};
use formula::Refusal;
use limits::MAX_VARIABLES;
use std::io;
use vectors::corpus::{Vector, four_bytes};
use vectors::report;

// The number in a checkpoint's byte.
fn number_of(b: u8) -> u8
    ensures { result ≡ byte_number b }
{
    if 128 <= b { b - 128 } else { b }
}

// The variable of a checkpoint's byte, from 0; a byte without a number has that of number 1.
fn variable_of(b: u8) -> u8
    ensures { result ≡ byte_number b - 1 }
{
    number_of(b).saturating_sub(1)
}

// Whether two bytes have the same variable with the same value.
fn same_literal(a: u8, b: u8) -> bool
    ensures { result ≡ same_literal (byte_literal a) (byte_literal b) }
{
    variable_of(a) == variable_of(b) && (128 <= a) == (128 <= b)
}

// The bytes of the trail in a checkpoint.
fn trail_of(c: &Checkpoint) -> &[u8]
    ensures trail { map byte_literal result.now ≡ checkpoint_trail c.now }
    ensures few { length result.now ≤ max_variables }
{
    &c.bytes[..usize::from(c.length).min(MAX_VARIABLES)]
}

// The length of the longest beginning that two trails share.
fn shared_of(x: &[u8], y: &[u8]) -> usize
    ensures { result ≡ shared_bytes x.now y.now }
{
    x.iter()
        .zip(y)
        .take_while(|(a, b)| same_literal(**a, **b))
        .count()
}

// What is known after some calls of a chain: the checkpoint that came back with the last model, if one came, the steps since, how many
// waits are over, whether each was right, whether the end came, and the checkpoint that the last call returned.
#[derive(Clone, Copy)]
pub struct Waits {
    pub last: Option<Checkpoint>,
    pub steps: u64,
    pub closed: u64,
    pub right: bool,
    pub ended: bool,
    pub reached: Checkpoint,
}

impl Waits {
    // Before the first call.
    fn none() -> Self
        ensures { NoneYet result }
    {
        Waits {
            last: None,
            steps: 0,
            closed: 0,
            right: true,
            ended: false,
            reached: enumeration::start_checkpoint(),
        }
    }

    // The steps that are due to a model with the checkpoint c: from the model before, or from the start.
    fn due_to(&self, c: &Checkpoint) -> u64
        ensures { result ≡ due (last_trail self.now.last) (checkpoint_trail c.now) }
    {
        let trail = trail_of(c);
        let steps = match &self.last {
            Some(last) => 2 * (trail.len() - shared_of(trail_of(last), trail)),
            None => trail.len(),
        };
        steps as u64
    }

    // Whether the end may come after so many steps: as many as the trail of the last model has literals, and not before a model.
    fn may_end(&self, steps: u64) -> bool
        ensures { result ≡ may_end (last_trail self.now.last) steps }
    {
        match &self.last {
            Some(last) => steps == trail_of(last).len() as u64,
            None => false,
        }
    }

    // What is known after one call more. A refused one changes nothing.
    fn after_call(self, walked: Result<Walked, Refusal>) -> Self
        requires { (self.steps + (call_values (checkpoint_values self.reached) walked).steps < 2 ^ 64) × (self.closed + 1 < 2 ^ 64) }
        ensures { AfterCall self (call_values (checkpoint_values self.reached) walked) result }
    {
        let Ok(q) = walked else {
            return self;
        };
        let steps = self.steps + q.steps;
        let next = Waits {
            steps,
            reached: q.checkpoint,
            ..self
        };
        if self.ended {
            return next;
        }
        match q.answer {
            Answer::Model(_) => Waits {
                last: Some(q.checkpoint),
                steps: 0,
                closed: self.closed + 1,
                right: self.right && steps == self.due_to(&q.checkpoint),
                ..next
            },
            Answer::Ended => Waits {
                closed: self.closed + 1,
                right: self.right && self.may_end(steps),
                ended: true,
                ..next
            },
            Answer::Spent => next,
        }
    }

    // The most steps of a wait that is still open: twice as many as the trail of the last model has literals, or, before any, as many as
    // there may be variables.
    fn most(&self) -> u64
        ensures { result ≡ most (last_trail self.now.last) }
    {
        match &self.last {
            Some(last) => 2 * trail_of(last).len() as u64,
            None => MAX_VARIABLES as u64,
        }
    }

    // Whether every wait was right.
    fn all_right(&self) -> bool
        ensures { result ≡ (tallied self.now []).right }
    {
        self.right && (self.ended || self.steps <= self.most())
    }

    // And as many waits are over as must be.
    fn agree(&self, wanted: u64) -> bool
        ensures { result ≡ (tallied self.now []).right && eqb self.now.closed wanted }
    {
        self.all_right() && self.closed == wanted
    }
}

// What is known after all of the vector's calls. It has at most 65,536 bytes of budgets, so that the sums of steps fit.
fn waits_of(v: &Vector<'_>) -> Waits
    requires { length v.now.expected.now ≤ 65536 }
    ensures { tallied result [] ≡ tallied_in (calls_of (parts_of v.now)) }
{
    let mut w = Waits::none();
    for i in 0..v.expected.len() / 4 {
        let budget = four_bytes(v.expected, 4 * i);
        w = w.after_call(call(v, w.reached, budget));
    }
    w
}

// Whether the waits of the vector's calls are right, and as many are over as it says; a difference is printed.
pub fn wait_vector(rt: &impl Print, v: &Vector<'_>) -> io::Result<bool>
    requires fields { 4 ≤ length v.now.fields.now }
    requires calls { length v.now.expected.now ≤ 65536 }
    ensures { IfOk result (λ agrees. agrees ≡ waits_agree (parts_of v.now)) }
{
    let wanted = u64::from(four_bytes(v.fields, 0));
    let w = waits_of(v);
    if w.agree(wanted) {
        return Ok(true);
    }
    report::other_waits(rt, v.number)?;
    report::numbers(rt, b"waits over", wanted, w.closed)?;
    Ok(false)
}
