// The vectors of start and walk: each answer and checkpoint compared with the expected ones.
ghost use Rattle.std.specs.Prelude.{◌+◌, ◌≤◌, ◌≡◌, length, IfOk};
ghost use Rattle.enumeration.specs.Values.{checkpoint_values, call_values};
ghost use Rattle.walk.specs.WalkCall.{walk_call};
ghost use Rattle.vectors.specs.Corpus.{parts_of};
ghost use Rattle.cases.specs.Assuming.{assumptions_of};
ghost use Rattle.cases.specs.Walking.{expected_call, stored_checkpoint_size, checkpoint_in, checkpoint_bytes, origin, Tells, checkpoint_wrong, walk_alike, start_agrees, walk_agrees, walk_leaves, Leaves};

use crate::assuming::{assumed, just_two};
use enumeration::{Checkpoint, Walked};
use formula::Refusal;
use limits::MAX_VARIABLES;
use std::io;
use vectors::answers::{Answer, Says};
use vectors::comparing::{first_wrong, wanted_byte};
use vectors::corpus::{Vector, eight_bytes, four_bytes};
use vectors::report;

// The bytes of a checkpoint: its mode, its length and its trail.
pub const CHECKPOINT_SIZE: usize = 2 + MAX_VARIABLES;

// What a call gives beside its checkpoint: the answer, the model or 0, and the steps and expansions made.
#[derive(Clone, Copy, PartialEq, Eq)]
pub struct Told {
    pub answer: Answer,
    pub model: u64,
    pub steps: u64,
    pub expansions: u64,
}

impl Told {
    // What a call must give, with which a vector's fields begin.
    pub fn expected(fields: &[u8]) -> Self
        requires { 22 ≤ length fields.now }
        ensures { result ≡ expected_call fields.now }
    {
        Told {
            answer: Answer::expected(fields),
            model: eight_bytes(fields, 6),
            steps: u64::from(four_bytes(fields, 14)),
            expansions: u64::from(four_bytes(fields, 18)),
        }
    }

    // The same is told, and the checkpoint is wrong nowhere.
    pub fn agrees(self, got: Told, wrong: usize) -> bool
        ensures { result ≡ walk_alike self got wrong }
    {
        wrong == CHECKPOINT_SIZE && self == got
    }
}

// What a call gives, and the checkpoint that it returns.
#[derive(Clone, Copy)]
pub struct Called {
    pub told: Told,
    pub checkpoint: Checkpoint,
}

impl Called {
    // Of a call from a checkpoint, which a refusal gives back.
    pub fn new(from: Checkpoint, walked: Result<Walked, Refusal>) -> Self
        ensures { Tells (call_values (checkpoint_values from) walked) result }
    {
        match walked {
            Ok(walked) => {
                let (says, model) = match walked.answer {
                    enumeration::Answer::Model(model) => (Says::Model, model),
                    enumeration::Answer::Spent => (Says::Spent, 0),
                    enumeration::Answer::Ended => (Says::Ended, 0),
                };
                Called {
                    told: Told {
                        answer: Answer::bare(says),
                        model,
                        steps: walked.steps,
                        expansions: walked.expansions,
                    },
                    checkpoint: walked.checkpoint,
                }
            }
            Err(refusal) => Called {
                told: Told {
                    answer: Answer::refused(refusal),
                    model: 0,
                    steps: 0,
                    expansions: 0,
                },
                checkpoint: from,
            },
        }
    }
}

// The checkpoint that some bytes begin with.
fn checkpoint_in(bytes: &[u8]) -> Checkpoint
    requires { stored_checkpoint_size ≤ length bytes.now }
    ensures { checkpoint_values result ≡ checkpoint_in bytes.now }
{
    let mut trail = [0u8; MAX_VARIABLES];
    trail.copy_from_slice(&bytes[2..CHECKPOINT_SIZE]);
    Checkpoint {
        mode: bytes[0],
        length: bytes[1],
        bytes: trail,
    }
}

// The checkpoint that a call gets, by a byte: 0 the one that follows it, 1 the start checkpoint, else the last.
pub fn origin(bytes: &[u8], last: Checkpoint) -> Checkpoint
    requires { 1 + stored_checkpoint_size ≤ length bytes.now }
    ensures { checkpoint_values result ≡ origin bytes.now (checkpoint_values last) }
{
    match bytes[0] {
        0 => checkpoint_in(&bytes[1..]),
        1 => enumeration::start_checkpoint(),
        _ => last,
    }
}

// A call on the vector's input under its assumptions.
pub fn call(v: &Vector<'_>, from: Checkpoint, budget: u32) -> Result<Walked, Refusal>
    ensures { call_values (checkpoint_values from) result
        ≡ walk_call v.now.input.now (assumptions_of (parts_of v.now)) (checkpoint_values from) budget }
{
    match just_two(v) {
        Some(list) => enumeration::walk(v.input, &list, from, budget),
        None => enumeration::walk_under(v.input, assumed(v), from, budget),
    }
}

// A checkpoint as it stands in the file.
fn checkpoint_bytes(c: Checkpoint) -> [u8; CHECKPOINT_SIZE]
    ensures { result ≡ checkpoint_bytes (checkpoint_values c) }
{
    let mut bytes = [0u8; CHECKPOINT_SIZE];
    bytes[0] = c.mode;
    bytes[1] = c.length;
    bytes[2..].copy_from_slice(&c.bytes);
    bytes
}

// Where a checkpoint first has another byte than is expected; its size if nowhere.
#[tactic(auto, unfolding(crate::specs::Walking::checkpoint_wrong))]
pub fn checkpoint_wrong(expected: &[u8], c: Checkpoint) -> usize
    ensures { result ≡ checkpoint_wrong expected.now (checkpoint_values c) }
{
    first_wrong(&checkpoint_bytes(c), |i| wanted_byte(expected, 0, i))
}

// The byte at the first wrong place, if one is wrong.
pub fn report_byte<F: Fn(usize) -> u8>(
    rt: &impl Print,
    got: &[u8],
    at: usize,
    wanted: F,
) -> io::Result<()>
    requires { F.IsAlwaysCallable wanted }
{
    if let Some(byte) = got.get(at) {
        report::wrong_byte(rt, at, wanted(at), *byte)?;
    }
    Ok(())
}

// The first wrong byte of a checkpoint, if one is wrong.
pub fn report_checkpoint(
    rt: &impl Print,
    expected: &[u8],
    c: Checkpoint,
    wrong: usize,
) -> io::Result<()> {
    report_byte(
        rt,
        &checkpoint_bytes(c),
        wrong,
        |i| wanted_byte(expected, 0, i),
    )
}

pub fn report_call(rt: &impl Print, vector: u64, wanted: Told, got: Told) -> io::Result<()> {
    report::difference(rt, vector, wanted.answer, got.answer)?;
    report::numbers(rt, b"model", wanted.model, got.model)?;
    report::numbers(rt, b"steps", wanted.steps, got.steps)?;
    report::numbers(rt, b"expansions", wanted.expansions, got.expansions)
}

// Whether the start checkpoint is the expected one; a difference is printed.
#[tactic(auto, unfolding(crate::specs::Walking::start_agrees))]
pub fn start_vector(rt: &impl Print, v: &Vector<'_>) -> io::Result<bool>
    ensures { IfOk result (λ agrees. agrees ≡ start_agrees (parts_of v.now)) }
{
    let c = enumeration::start_checkpoint();
    let wrong = checkpoint_wrong(v.fields, c);
    if wrong == CHECKPOINT_SIZE {
        return Ok(true);
    }
    report::other_checkpoint(rt, v.number)?;
    report_checkpoint(rt, v.fields, c, wrong)?;
    Ok(false)
}

// Whether the vector's call gives what it must; a difference is printed. The last checkpoint becomes the one that the call returned.
pub fn walk_vector(rt: &impl Print, v: &Vector<'_>, last: &mut Checkpoint) -> io::Result<bool>
    requires { 127 ≤ length v.now.fields.now }
    ensures { IfOk result (Leaves (walk_agrees (parts_of v.now) (checkpoint_values last.old)) (walk_leaves (parts_of v.now) (checkpoint_values last.old)) last.new) }
{
    let expected = Told::expected(v.fields);
    let stored = &v.fields[22..22 + CHECKPOINT_SIZE];
    let from = origin(&v.fields[72..], *last);
    let got = Called::new(from, call(v, from, four_bytes(v.fields, 123)));
    *last = got.checkpoint;
    let wrong = checkpoint_wrong(stored, got.checkpoint);
    if expected.agrees(got.told, wrong) {
        return Ok(true);
    }
    report_call(rt, v.number, expected, got.told)?;
    report_checkpoint(rt, stored, got.checkpoint, wrong)?;
    Ok(false)
}
