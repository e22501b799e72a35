// The vectors of the conversions: each answer and the lent buffer compared with the expected ones.
ghost use Rattle.std.specs.Prelude.{ℕ, List, ◌≤◌, ◌≡◌, length, IfOk};
ghost use Rattle.dimacs.specs.Convert.{converted_values, Conversion};
ghost use Rattle.vectors.specs.Corpus.{parts_of};
ghost use Rattle.cases.specs.Converting.{convert_written, Converts, convert_agrees};

use formula::Refusal;
use std::io;
use vectors::answers::{Answer, Says};
use vectors::comparing::{compare_bytes, wanted_byte};
use vectors::corpus::{Vector, two_bytes};

// The number of bytes that were written stands as the place.
fn answer_of(converted: Result<usize, Refusal>) -> Answer
    ensures { result ≡ convert_written (converted_values converted) }
{
    match converted {
        Ok(count) => Answer {
            place: count as u64,
            ..Answer::bare(Says::Written)
        },
        Err(refusal) => Answer::refused(refusal),
    }
}

// Whether a conversion of the vector's input gives the expected answer and leaves, in a filled buffer, the expected bytes before the fill; a
// difference is printed.
pub fn convert_vector<F: Fn(&[u8], &mut [u8]) -> Result<usize, Refusal>>(
    rt: &impl Print,
    v: &Vector<'_>,
    convert: F,
) -> io::Result<bool>
    requires fields { 9 ≤ length v.now.fields.now }
    requires callable { F.IsAlwaysCallable convert }
    ensures { (conversion : List ℕ → List ℕ → Conversion) → Converts (F.post convert) conversion
        → IfOk result (λ agrees. agrees ≡ convert_agrees conversion (parts_of v.now)) }
{
    let size = usize::from(two_bytes(v.fields, 6));
    let fill = v.fields[8];
    let mut array = [fill; 65536];
    let buffer = &mut array[..size];
    let got = answer_of(convert(v.input, buffer));
    compare_bytes(rt, v, got, buffer, |i| wanted_byte(v.expected, fill, i))
}
