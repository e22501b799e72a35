// The vectors of a file, each by its act.
ghost use Rattle.std.specs.Prelude.{◌≤◌, ◌≡◌, length, IfOk};
ghost use Rattle.enumeration.specs.Values.{checkpoint_values};
ghost use Rattle.vectors.specs.Corpus.{parts_of};
ghost use Rattle.vectors.specs.Totals.{RoomFor};
ghost use Rattle.cases.specs.Runs.{size_of, act_agrees, leaves, Ran};
ghost use Rattle.cases.specs.Walking.{Leaves};

use crate::converting::convert_vector;
use crate::judging::judge_vector;
use crate::listing::{list_vector, listing_vector};
use crate::measuring::deficiency_vector;
use crate::paging::page_vector;
use crate::prints::print_vector;
use crate::trying::compare_vector;
use crate::waiting::wait_vector;
use crate::walking::{CHECKPOINT_SIZE, start_vector, walk_vector};
use crate::weighing::weigh_vector;
use enumeration::Checkpoint;
use std::io;
use vectors::checking::check_vector;
use vectors::corpus::{Vector, frame};
use vectors::totals::Totals;

#[derive(Clone, Copy)]
pub enum Act {
    Check,
    Judge,
    Weigh,
    Deficiency,
    ReadText,
    WriteText,
    Start,
    Walk,
    Wait,
    Listing,
    Models,
    Page,
    Compare,
    Print,
}

impl Act {
    // The size of the fields of an act's vector: the expected answer, and the act's own.
    fn fields(self) -> usize
        ensures { result ≡ size_of self }
    {
        match self {
            Act::Check => 14,
            Act::Judge | Act::Weigh => 104,
            Act::Deficiency | Act::Compare => 6,
            Act::ReadText | Act::WriteText => 9,
            Act::Start => CHECKPOINT_SIZE,
            Act::Walk => 127,
            Act::Wait => 4,
            Act::Listing => 23,
            Act::Models => 125,
            Act::Page => 114,
            Act::Print => 0,
        }
    }
}

// Where a run over a file stopped: at the file's end, or at a vector that runs past it.
#[derive(Clone, Copy)]
pub struct Run {
    pub at: usize,
    pub totals: Totals,
}

// Whether the act gives what the vector expects; a difference is printed. The last checkpoint is the one that the last walk call returned.
fn run_vector(rt: &impl Print, v: &Vector<'_>, act: Act, last: &mut Checkpoint) -> io::Result<bool>
    requires fields { size_of act ≤ length v.now.fields.now }
    requires calls { length v.now.expected.now ≤ 65536 }
    ensures { IfOk result (Leaves (act_agrees act (parts_of v.now) (checkpoint_values last.old)) (leaves act (parts_of v.now) (checkpoint_values last.old)) last.new) }
{
    match act {
        Act::Check => check_vector(rt, v),
        Act::Judge => judge_vector(rt, v),
        Act::Weigh => weigh_vector(rt, v),
        Act::Deficiency => deficiency_vector(rt, v),
        Act::ReadText => convert_vector(rt, v, |text, buffer| dimacs::read(text, buffer)),
        Act::WriteText => convert_vector(rt, v, |input, buffer| dimacs::write(input, buffer)),
        Act::Start => start_vector(rt, v),
        Act::Walk => walk_vector(rt, v, last),
        Act::Wait => wait_vector(rt, v),
        Act::Listing => listing_vector(rt, v, last),
        Act::Models => list_vector(rt, v, last),
        Act::Page => page_vector(rt, v, last),
        Act::Compare => compare_vector(rt, v),
        Act::Print => print_vector(rt, v),
    }
}

// All vectors of a file, up to one that runs past its end, counted on from the totals so far.
pub fn run_all(rt: &impl Print, bytes: &[u8], act: Act, t: Totals) -> io::Result<Run>
    requires room { RoomFor (length bytes.now) t }
    requires size { length bytes.now ≤ 65536 }
    ensures { IfOk result (Ran act bytes.now t) }
{
    let mut left = bytes;
    let mut totals = t;
    let mut last = enumeration::start_checkpoint();
    while let Some((v, behind)) = frame(left, act.fields()) {
        totals = totals.count(run_vector(rt, &v, act, &mut last)?);
        left = behind;
    }
    Ok(Run {
        at: bytes.len() - left.len(),
        totals,
    })
}
