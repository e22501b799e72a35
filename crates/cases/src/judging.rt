// The vectors of judge: each answer and the lent buffer compared with the expected ones.
ghost use Rattle.std.specs.Prelude.{◌≤◌, ◌≡◌, length, IfOk};
ghost use Rattle.matched.specs.Judge.{judgement_values, judge};
ghost use Rattle.vectors.specs.Corpus.{parts_of};
ghost use Rattle.cases.specs.Assuming.{assumptions_of};
ghost use Rattle.cases.specs.Judging.{judge_written, judge_agrees};

use crate::assuming::{assumed, just_two};
use formula::Refusal;
use limits::MAX_CLAUSES;
use matched::Sizes;
use std::io;
use vectors::answers::{Answer, Says};
use vectors::comparing::{compare_bytes, wanted_byte};
use vectors::corpus::Vector;

fn answer_of(judgement: Result<Sizes, Refusal>) -> Answer
    ensures { result ≡ judge_written (judgement_values judgement) }
{
    match judgement {
        Ok(sizes) => Answer {
            variables: sizes.variables as u64,
            clauses: sizes.clauses as u64,
            ..Answer::bare(Says::Accepted)
        },
        Err(refusal) => Answer::refused(refusal),
    }
}

// Judges the vector's input under its assumptions.
fn judge(v: &Vector<'_>, buffer: &mut [u8]) -> Result<Sizes, Refusal>
    ensures { (judgement_values result ≡ (judge v.now.input.now (assumptions_of (parts_of v.now)) buffer.old).answer)
        × (buffer.new ≡ (judge v.now.input.now (assumptions_of (parts_of v.now)) buffer.old).buffer) }
{
    match just_two(v) {
        Some(list) => matched::find_matching(v.input, &list, buffer),
        None => matched::find_matching_under(v.input, assumed(v), buffer),
    }
}

// Whether judge gives the expected answer and leaves the expected bytes; a difference is printed.
pub fn judge_vector(rt: &impl Print, v: &Vector<'_>) -> io::Result<bool>
    requires { 104 ≤ length v.now.fields.now }
    ensures { IfOk result (λ agrees. agrees ≡ judge_agrees (parts_of v.now)) }
{
    let size = usize::from(v.fields[6]);
    let fill = v.fields[7];
    let left = &v.fields[8..8 + MAX_CLAUSES];
    let mut array = [fill; 256];
    let got = answer_of(judge(v, &mut array[..size]));
    compare_bytes(rt, v, got, &array, |i| wanted_byte(left, fill, i))
}
