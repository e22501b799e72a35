// Lists of assumptions, each read into a partial assignment or refused at its first bad one (S17.1).
//
// A list is lent as structs (`read_assumptions`) or as bytes, two for each (`read_pairs`); both are read by `take`.
#![tactic(auto)]

ghost use Rattle.std.specs.Prelude.{◌≡◌, ◌+◌, ◌*◌, ◌<◌, ◌≤◌, length};
ghost use Rattle.limits.specs.Limits.{max_variables};
ghost use Rattle.assumptions.specs.Assumed.{assumed};
ghost use Rattle.assumptions.specs.InnerAssumed.{bad_in, taken, masks_of, stated_in, pair_at};
ghost use Rattle.assumptions.specs.Bytes.{of_bytes};

use formula::{Assignment, Refusal};
use limits::MAX_VARIABLES;

// S17.1: an assumption (request: fixing): a variable, from 1, that is taken as given, and its value.
#[derive(Clone, Copy)]
pub struct Assumption {
    pub variable: u8,
    pub value: bool,
}

// The number of variables that the input states in its byte 1, at most 48; 0 where it has no such byte.
#[tactic(auto, unfolding(crate::specs::InnerAssumed::stated_in))]
pub fn stated(input: &[u8]) -> usize
    ensures { result ≡ stated_in input.now }
{
    input
        .get(1)
        .map_or(0, |n| usize::from(*n).min(MAX_VARIABLES))
}

// The variable s, from 1, can't be assumed: it is 0, above n, or assumed before, with whichever value.
fn bad_in(a: Assignment, n: usize, s: usize) -> bool
    requires { n ≤ max_variables }
    ensures { result ≡ bad_in n a s }
{
    s == 0 || n < s || masks::member(a.variables(), s - 1)
}

// One assumption more, which has the index i.
fn take(a: Assignment, n: usize, i: usize, u: Assumption) -> Result<Assignment, Refusal>
    requires { n ≤ max_variables }
    ensures { result ≡ taken n i u a }
{
    let s = usize::from(u.variable);
    if bad_in(a, n, s) {
        return Err(Refusal::BadAssumption(i));
    }
    Ok(a.with(s - 1, u.value))
}

// The whole list: what it assumes, or the refusal of its first bad assumption.
pub fn read_assumptions(list: &[Assumption], n: usize) -> Result<Assignment, Refusal>
    requires { n ≤ max_variables }
    ensures { result ≡ masks_of (assumed n list.now) }
{
    let mut a = Assignment::none();
    for (i, u) in list.iter().enumerate() {
        a = take(a, n, i, *u)?;
    }
    Ok(a)
}

// ---- a list as bytes

// The assumption with the index i: its variable, and then 0 for false or another byte for true.
fn pair(bytes: &[u8], i: usize) -> Assumption
    requires { i * 2 + 1 < length bytes.now }
    ensures { result ≡ pair_at bytes.now i }
{
    Assumption {
        variable: bytes[i * 2],
        value: bytes[i * 2 + 1] != 0,
    }
}

// The whole list, two bytes an assumption. A lone last byte is not read.
pub fn read_pairs(bytes: &[u8], n: usize) -> Result<Assignment, Refusal>
    requires { n ≤ max_variables }
    ensures { result ≡ masks_of (assumed n (of_bytes bytes.now)) }
{
    let mut a = Assignment::none();
    for i in 0..bytes.len() / 2 {
        a = take(a, n, i, pair(bytes, i))?;
    }
    Ok(a)
}
