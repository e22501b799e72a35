// The assumptions of a vector.
ghost use Rattle.std.specs.Prelude.{◌≡◌, ◌≢◌, length, MatchOption};
ghost use Rattle.assumptions.specs.InnerAssumed.{MasksOf};
ghost use Rattle.vectors.specs.Corpus.{parts_of};
ghost use Rattle.cases.specs.Assuming.{assumptions_of};

use assumptions::Assumption;
use formula::{Assignment, Refusal};
use vectors::corpus::Vector;

// What they read to, for the number of variables that the vector's input states.
pub fn assumed(v: &Vector<'_>) -> Result<Assignment, Refusal>
    ensures { MasksOf v.now.input.now (assumptions_of (parts_of v.now)) result }
{
    assumptions::read_pairs(v.assumptions, assumptions::stated(v.input))
}

// All of them, if they are just two: these are lent as structs, and other lists read from their bytes.
pub fn just_two(v: &Vector<'_>) -> Option<[Assumption; 2]>
    ensures { MatchOption result (length v.now.assumptions.now ≢ 4) (λ list. list ≡ assumptions_of (parts_of v.now)) }
{
    let [first, first_value, second, second_value] = v.assumptions else {
        return None;
    };
    Some([
        Assumption {
            variable: *first,
            value: *first_value != 0,
        },
        Assumption {
            variable: *second,
            value: *second_value != 0,
        },
    ])
}
