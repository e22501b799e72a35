// The vectors of whole listings, call by call, and those of lists of models.
ghost use Rattle.std.specs.Prelude.{◌/◌, ◌≤◌, ◌≡◌, length, IfOk};
ghost use Rattle.walk.specs.Checkpoints as checkpoints;
ghost use Rattle.enumeration.specs.Lists.{next_models, Delivered};
ghost use Rattle.enumeration.specs.Values.{checkpoint_values, call_values, list_values, list_count};
ghost use Rattle.vectors.specs.Corpus.{parts_of};
ghost use Rattle.cases.specs.Assuming.{assumptions_of};
ghost use Rattle.cases.specs.Listing.{listing_agrees, listing_leaves, wanted_model, list_alike, list_agrees, list_leaves};
ghost use Rattle.cases.specs.Walking.{Leaves};

use crate::assuming::{assumed, just_two};
use crate::walking::{
    CHECKPOINT_SIZE, Called, Told, call, checkpoint_wrong, origin, report_call, report_checkpoint,
};
use enumeration::{Checkpoint, Listed, Walked};
use formula::Refusal;
use std::io;
use vectors::comparing::first_wrong;
use vectors::corpus::{Vector, eight_bytes};
use vectors::report;

// Whether a call of a listing, of an ample budget, gives what it must; a difference is printed. The call goes on from the start checkpoint or
// from the last one, which becomes the one that it returned: the vector does not tell that.
#[tactic(auto, unfolding(crate::specs::Listing::listing_call, crate::specs::Listing::listing_agrees, crate::specs::Listing::listing_leaves))]
pub fn listing_vector(rt: &impl Print, v: &Vector<'_>, last: &mut Checkpoint) -> io::Result<bool>
    requires { 23 ≤ length v.now.fields.now }
    ensures { IfOk result (Leaves (listing_agrees (parts_of v.now) (checkpoint_values last.old)) (listing_leaves (parts_of v.now) (checkpoint_values last.old)) last.new) }
{
    let expected = Told::expected(v.fields);
    let from = if v.fields[22] == 1 {
        enumeration::start_checkpoint()
    } else {
        *last
    };
    let got = Called::new(from, call(v, from, enumeration::AMPLE_BUDGET));
    *last = got.checkpoint;
    if expected == got.told {
        return Ok(true);
    }
    report_call(rt, v.number, expected, got.told)?;
    Ok(false)
}

// Lists the models of the vector's input under its assumptions.
fn list(v: &Vector<'_>, from: Checkpoint, models: &mut [u64]) -> Result<Listed, Refusal>
    ensures { Delivered (next_models v.now.input.now (assumptions_of (parts_of v.now)) (checkpoint_values from) (length models.old)) (checkpoint_values from) models.old models.new result }
{
    match just_two(v) {
        Some(list) => enumeration::list(v.input, &list, from, models),
        None => enumeration::list_under(v.input, assumed(v), from, models),
    }
}

// The last call of a list, which counts no steps.
fn last_call(listed: Result<Listed, Refusal>) -> Result<Walked, Refusal>
    ensures { (c : checkpoints.Checkpoint) → call_values c result ≡ list_values c listed }
{
    let listed = listed?;
    Ok(Walked {
        answer: listed.answer,
        checkpoint: listed.checkpoint,
        steps: 0,
        expansions: 0,
    })
}

// How many models a list has; none beside a refusal.
fn count_of(listed: Result<Listed, Refusal>) -> usize
    ensures { result ≡ list_count listed }
{
    listed.map_or(0, |listed| listed.count)
}

// The model that must stand at i: the expected ones stand first, and the fill behind them.
fn wanted_model(expected: &[u8], fill: u64, i: usize) -> u64
    ensures { result ≡ wanted_model expected.now fill i }
{
    if i < expected.len() / 8 {
        eight_bytes(expected, i * 8)
    } else {
        fill
    }
}

// As many models as must be, none of them wrong, and the last answer is the same.
fn agree(told: bool, count: usize, models: usize, other: usize) -> bool
    ensures { result ≡ list_alike told count models other }
{
    count == models && other == 256 && told
}

// Whether the vector's list gives what it must; a difference is printed. The last checkpoint becomes the one that the list returned.
pub fn list_vector(rt: &impl Print, v: &Vector<'_>, last: &mut Checkpoint) -> io::Result<bool>
    requires { 125 ≤ length v.now.fields.now }
    ensures { IfOk result (Leaves (list_agrees (parts_of v.now) (checkpoint_values last.old)) (list_leaves (parts_of v.now) (checkpoint_values last.old)) last.new) }
{
    let expected = Told::expected(v.fields);
    let models = v.expected.len() / 8;
    let stored = &v.fields[22..22 + CHECKPOINT_SIZE];
    let from = origin(&v.fields[72..], *last);
    let room = usize::from(v.fields[123]);
    let fill = u64::from(v.fields[124]);
    let mut array = [fill; 256];
    let listed = list(v, from, &mut array[..room]);
    let count = count_of(listed);
    let got = Called::new(from, last_call(listed));
    *last = got.checkpoint;
    let wrong = checkpoint_wrong(stored, got.checkpoint);
    let other = first_wrong(&array, |i| wanted_model(v.expected, fill, i));
    if agree(expected.agrees(got.told, wrong), count, models, other) {
        return Ok(true);
    }
    report_call(rt, v.number, expected, got.told)?;
    report::numbers(rt, b"models", models as u64, count as u64)?;
    report::numbers(rt, b"first other model", 256, other as u64)?;
    report_checkpoint(rt, stored, got.checkpoint, wrong)?;
    Ok(false)
}
