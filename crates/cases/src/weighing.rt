// The vectors of weigh: each answer compared with the expected one.
ghost use Rattle.std.specs.Prelude.{◌≤◌, ◌≡◌, length, IfOk};
ghost use Rattle.matched.specs.Weigh.{weighed_values, weighed};
ghost use Rattle.vectors.specs.Corpus.{parts_of};
ghost use Rattle.cases.specs.Assuming.{assumptions_of};
ghost use Rattle.cases.specs.Weighing.{weigh_written, weigh_agrees};

use crate::assuming::{assumed, just_two};
use formula::Refusal;
use limits::MAX_CLAUSES;
use matched::Weight;
use std::io;
use vectors::answers::{Answer, Says};
use vectors::comparing::compare_answer;
use vectors::corpus::Vector;

fn answer_of(weighed: Result<Weight, Refusal>) -> Answer
    ensures { result ≡ weigh_written (weighed_values weighed) }
{
    match weighed {
        Ok(weight) => Answer {
            variables: u64::from(weight.variables),
            clauses: weight.clauses as u64,
            ..Answer::bare(Says::Counted)
        },
        Err(refusal) => Answer::refused(refusal),
    }
}

// Weighs the marks of a buffer, for the vector's input under its assumptions.
fn weigh(v: &Vector<'_>, buffer: &[u8]) -> Result<Weight, Refusal>
    ensures { weighed_values result ≡ weighed v.now.input.now (assumptions_of (parts_of v.now)) buffer.now }
{
    match just_two(v) {
        Some(list) => matched::weigh_marks(v.input, &list, buffer),
        None => matched::weigh_marks_under(v.input, assumed(v), buffer),
    }
}

// Whether weigh gives the expected answer; a difference is printed. The buffer is lent of an array that has the vector's marks, and the fill
// behind them.
pub fn weigh_vector(rt: &impl Print, v: &Vector<'_>) -> io::Result<bool>
    requires { 104 ≤ length v.now.fields.now }
    ensures { IfOk result (λ agrees. agrees ≡ weigh_agrees (parts_of v.now)) }
{
    let size = usize::from(v.fields[6]);
    let mut array = [v.fields[7]; 256];
    array[..MAX_CLAUSES].copy_from_slice(&v.fields[8..8 + MAX_CLAUSES]);
    compare_answer(rt, v, answer_of(weigh(v, &array[..size])))
}
