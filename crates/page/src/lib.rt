// The act page: the next models of a walk as 50 lines of 60 bytes in a lent page (S19).
#![tactic(auto)]

ghost use Rattle.std.specs.Prelude.{List, ◌≡◌};
ghost use Rattle.assumptions.specs.declared.Assumption.{Assumption};
ghost use Rattle.assumptions.specs.InnerAssumed.{MasksOf};
ghost use Rattle.enumeration.specs.Values.{checkpoint_values};
ghost use Rattle.page.specs.Pages.{page_call, page_told};

mod filling;
mod lines;

use crate::filling::fill_page;
use assumptions::Assumption;
use enumeration::{Checkpoint, Task};
use formula::{Assignment, Refusal};
pub use lines::{LINE_SIZE, PAGE_LINES, PAGE_SIZE};

// The highest first serial.
pub const MAX_SERIAL: u32 = 999950;

// What the act gives: how many lines are filled, and the checkpoint for the next page.
#[derive(Clone, Copy)]
pub struct Paged {
    pub lines: usize,
    pub checkpoint: Checkpoint,
}

// S19.2: the page of the next models from the checkpoint, over what the assumptions read to. Nothing is written before all refusals are
// past.
pub fn write_page_under(
    input: &[u8],
    u: Result<Assignment, Refusal>,
    checkpoint: Checkpoint,
    serial: u32,
    page: &mut [u8],
) -> Result<Paged, Refusal>
    requires { (us : List Assumption) × MasksOf input.now us u }
    ensures { (us : List Assumption) → MasksOf input.now us u
        → page_call input.now us (checkpoint_values checkpoint) serial page.old ≡ page_told (checkpoint_values checkpoint) result page.new }
{
    if page.len() < PAGE_SIZE {
        return Err(Refusal::ShortPage(0));
    }
    if serial == 0 || MAX_SERIAL < serial {
        return Err(Refusal::BadSerial(0));
    }
    let a = matched::accept(input, u)?;
    let task = Task::new(a.formula, a.assignment);
    let state = task.enter(checkpoint)?;
    Ok(fill_page(&task, state, u64::from(serial), page))
}

// S19.2: the act page, under a lent list of assumptions.
pub fn write_page(
    input: &[u8],
    list: &[Assumption],
    checkpoint: Checkpoint,
    serial: u32,
    page: &mut [u8],
) -> Result<Paged, Refusal>
    ensures { page_call input.now list.now (checkpoint_values checkpoint) serial page.old ≡ page_told (checkpoint_values checkpoint) result page.new }
{
    let u = assumptions::read_assumptions(list, assumptions::stated(input));
    write_page_under(input, u, checkpoint, serial, page)
}
