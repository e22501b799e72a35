// The vectors of pages: each answer, checkpoint and lent page compared with the expected ones.
ghost use Rattle.std.specs.Prelude.{◌≤◌, ◌≡◌, length, IfOk};
ghost use Rattle.enumeration.specs.Values.{checkpoint_values};
ghost use Rattle.page.specs.Pages.{page_values, page_checkpoint, page_call, page_told};
ghost use Rattle.vectors.specs.Corpus.{parts_of};
ghost use Rattle.cases.specs.Assuming.{assumptions_of};
ghost use Rattle.cases.specs.Paging.{page_written, written_size, page_byte, page_alike, page_agrees, page_leaves};
ghost use Rattle.cases.specs.Walking.{Leaves};

use crate::assuming::{assumed, just_two};
use crate::walking::{CHECKPOINT_SIZE, checkpoint_wrong, origin, report_byte, report_checkpoint};
use enumeration::Checkpoint;
use formula::Refusal;
use page::{LINE_SIZE, PAGE_SIZE, Paged};
use std::io;
use vectors::answers::{Answer, Says};
use vectors::comparing::{first_wrong, wanted_byte};
use vectors::corpus::{Vector, four_bytes, two_bytes};
use vectors::report;

// The number of lines that are filled stands as the place.
fn answer_of(paged: Result<Paged, Refusal>) -> Answer
    ensures { result ≡ page_written (page_values paged) }
{
    match paged {
        Ok(paged) => Answer {
            place: paged.lines as u64,
            ..Answer::bare(Says::Filled)
        },
        Err(refusal) => Answer::refused(refusal),
    }
}

// The checkpoint that a page from another one returns; a refusal gives that back.
fn checkpoint_of(from: Checkpoint, paged: Result<Paged, Refusal>) -> Checkpoint
    ensures { checkpoint_values result ≡ page_checkpoint (checkpoint_values from) paged }
{
    paged.map_or(from, |paged| paged.checkpoint)
}

// So many bytes are written, by what an answer says.
fn written_size(says: Says) -> usize
    ensures { result ≡ written_size says }
{
    if says == Says::Filled { PAGE_SIZE } else { 0 }
}

// The byte that must stand at i: the filled lines stand first, behind them blank lines up to the size that is written, and then the fill.
fn page_byte(expected: &[u8], size: usize, fill: u8, i: usize) -> u8
    ensures { result ≡ page_byte expected.now size fill i }
{
    let behind = if size <= i {
        fill
    } else if i % LINE_SIZE == LINE_SIZE - 1 {
        b'\n'
    } else {
        b' '
    };
    wanted_byte(expected, behind, i)
}

// The checkpoint is wrong nowhere, and neither is the answer or, of so many bytes, the page.
fn agree(wanted: Answer, got: Answer, other: usize, wrong: usize, size: usize) -> bool
    ensures { result ≡ page_alike wanted got other wrong size }
{
    other == CHECKPOINT_SIZE && wanted == got && wrong == size
}

// A page of the vector's input under its assumptions.
fn write_page(
    v: &Vector<'_>,
    from: Checkpoint,
    serial: u32,
    page: &mut [u8],
) -> Result<Paged, Refusal>
    ensures { page_call v.now.input.now (assumptions_of (parts_of v.now)) (checkpoint_values from) serial page.old
        ≡ page_told (checkpoint_values from) result page.new }
{
    match just_two(v) {
        Some(list) => page::write_page(v.input, &list, from, serial, page),
        None => page::write_page_under(v.input, assumed(v), from, serial, page),
    }
}

// Whether the vector's page, in a slice with the fill everywhere, gives what it must; a difference is printed. The last checkpoint becomes
// the one that the page returned.
pub fn page_vector(rt: &impl Print, v: &Vector<'_>, last: &mut Checkpoint) -> io::Result<bool>
    requires { 114 ≤ length v.now.fields.now }
    ensures { IfOk result (Leaves (page_agrees (parts_of v.now) (checkpoint_values last.old)) (page_leaves (parts_of v.now) (checkpoint_values last.old)) last.new) }
{
    let expected = Answer::expected(v.fields);
    let written = written_size(expected.says);
    let stored = &v.fields[6..6 + CHECKPOINT_SIZE];
    let from = origin(&v.fields[56..], *last);
    let serial = four_bytes(v.fields, 107);
    let size = usize::from(two_bytes(v.fields, 111));
    let fill = v.fields[113];
    let mut array = [fill; 65536];
    let page = &mut array[..size];
    let paged = write_page(v, from, serial, page);
    let got = answer_of(paged);
    let returned = checkpoint_of(from, paged);
    *last = returned;
    let other = checkpoint_wrong(stored, returned);
    let wanted = |i: usize| page_byte(v.expected, written, fill, i);
    let wrong = first_wrong(page, wanted);
    if agree(expected, got, other, wrong, page.len()) {
        return Ok(true);
    }
    report::difference(rt, v.number, expected, got)?;
    report_checkpoint(rt, stored, returned, other)?;
    report_byte(rt, page, wrong, wanted)?;
    Ok(false)
}
