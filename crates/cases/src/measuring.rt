// The vectors of deficiency: each answer compared with the expected one.
ghost use Rattle.std.specs.Prelude.{◌≤◌, ◌≡◌, length, IfOk};
ghost use Rattle.matched.specs.Deficiency.{measured_values};
ghost use Rattle.vectors.specs.Corpus.{parts_of};
ghost use Rattle.cases.specs.Measuring.{deficiency_written, deficiency_agrees};

use formula::Refusal;
use std::io;
use vectors::answers::{Answer, Says};
use vectors::comparing::compare_answer;
use vectors::corpus::Vector;

// The clauses that are left over are counted.
fn answer_of(measured: Result<usize, Refusal>) -> Answer
    ensures { result ≡ deficiency_written (measured_values measured) }
{
    match measured {
        Ok(deficiency) => Answer {
            clauses: deficiency as u64,
            ..Answer::bare(Says::Counted)
        },
        Err(refusal) => Answer::refused(refusal),
    }
}

// Whether deficiency gives the expected answer; a difference is printed.
#[tactic(auto, unfolding(crate::specs::Measuring::deficiency_agrees))]
pub fn deficiency_vector(rt: &impl Print, v: &Vector<'_>) -> io::Result<bool>
    requires { 6 ≤ length v.now.fields.now }
    ensures { IfOk result (λ agrees. agrees ≡ deficiency_agrees (parts_of v.now)) }
{
    compare_answer(rt, v, answer_of(matched::deficiency(v.input)))
}
