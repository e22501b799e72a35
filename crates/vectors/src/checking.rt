// The vectors of check: each answer compared with the expected one.
ghost use Rattle.std.specs.Prelude.{◌≤◌, ◌≡◌, length, IfOk};
ghost use Rattle.formula.specs.Check.{verdict_values};
ghost use Rattle.vectors.specs.Checking.{check_written, check_agrees};
ghost use Rattle.vectors.specs.Corpus.{parts_of};

use crate::answers::{Answer, Says};
use crate::comparing::compare_answer;
use crate::corpus::{Vector, eight_bytes};
use formula::Refusal;
use std::io;

fn answer_of(verdict: Result<bool, Refusal>) -> Answer
    ensures { result ≡ check_written (verdict_values verdict) }
{
    match verdict {
        Ok(true) => Answer::bare(Says::Yes),
        Ok(false) => Answer::bare(Says::No),
        Err(refusal) => Answer::refused(refusal),
    }
}

// Whether check gives the expected answer; a difference is printed.
#[tactic(auto, unfolding(crate::specs::Checking::check_agrees))]
pub fn check_vector(rt: &impl Print, v: &Vector<'_>) -> io::Result<bool>
    requires { 14 ≤ length v.now.fields.now }
    ensures { IfOk result (λ agrees. agrees ≡ check_agrees (parts_of v.now)) }
{
    let verdict = formula::check(v.input, eight_bytes(v.fields, 6));
    compare_answer(rt, v, answer_of(verdict))
}
