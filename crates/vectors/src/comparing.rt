// What a call gives, compared with what the corpus has.
ghost use Rattle.std.specs.Prelude.{ℕ, ◌≤◌, ◌≡◌, length, get_or, IfOk};
ghost use Rattle.vectors.specs.Answers.{expected, same_answer};
ghost use Rattle.vectors.specs.Comparing.{Gives, first_wrong, alike};

use crate::answers::Answer;
use crate::corpus::Vector;
use crate::report;
use std::io;

// The byte that must stand at i: the expected ones stand first, and the fill behind them.
pub fn wanted_byte(expected: &[u8], fill: u8, i: usize) -> u8
    ensures { result ≡ get_or expected.now i fill }
{
    expected.get(i).copied().unwrap_or(fill)
}

// Where values that a call gave first are others than they must be; how many they are, if nowhere.
pub fn first_wrong<T: Copy + PartialEq, F: Fn(usize) -> T>(got: &[T], wanted: F) -> usize
    requires { F.IsAlwaysCallable wanted }
    ensures within { result ≤ length got.now }
    ensures place { (w : ℕ → T) → Gives (F.post wanted) w (length got.now) → result ≡ first_wrong T.eq w got.now }
{
    for (i, x) in got.iter().enumerate() {
        if *x != wanted(i) {
            return i;
        }
    }
    got.len()
}

// Whether a call gives the vector's expected answer; a difference is printed.
pub fn compare_answer(rt: &impl Print, v: &Vector<'_>, got: Answer) -> io::Result<bool>
    requires { 6 ≤ length v.now.fields.now }
    ensures { IfOk result (λ agrees. agrees ≡ same_answer (expected v.now.fields.now) got) }
{
    let wanted = Answer::expected(v.fields);
    if wanted == got {
        return Ok(true);
    }
    report::difference(rt, v.number, wanted, got)?;
    Ok(false)
}

// Whether a call gives the vector's expected answer, and leaves the bytes that it must; a difference is printed.
pub fn compare_bytes<F: Fn(usize) -> u8>(
    rt: &impl Print,
    v: &Vector<'_>,
    got: Answer,
    bytes: &[u8],
    wanted: F,
) -> io::Result<bool>
    requires fields { 6 ≤ length v.now.fields.now }
    requires callable { F.IsAlwaysCallable wanted }
    ensures { (w : ℕ → ℕ) → Gives (F.post wanted) w (length bytes.now) → IfOk result (λ agrees. agrees ≡ alike (expected v.now.fields.now) got w bytes.now) }
{
    let expected = Answer::expected(v.fields);
    let wrong = first_wrong(bytes, &wanted);
    if expected == got && wrong == bytes.len() {
        return Ok(true);
    }
    report::difference(rt, v.number, expected, got)?;
    if let Some(byte) = bytes.get(wrong) {
        report::wrong_byte(rt, wrong, wanted(wrong), *byte)?;
    }
    Ok(false)
}
