// Program: runs the corpus in data/ against the library, and counts what differs.
//
// For each act it prints how many vectors there are and how many differ from what they expect, after lines for each difference and
// each file that breaks off. An act has as many files as its vectors need: one that is not there adds no vector, which the counts show.
//
// A file holds vectors of one act, at most 65,536 bytes of them. Numbers are little-endian. A vector is its number (2 bytes), the lengths
// of its input, of its assumptions and of the bytes that it expects (2 bytes each), these three, the expected answer and the act's own
// fields. An assumption is two bytes: the variable, and 1 for true or 0 for false. Where there are just two, the act is called on a lent list
// of them, else on the masks that are read from the bytes. An answer is what it says (1 byte: 0 no, 1 yes, 2 refused, 3 accepted, 4 model,
// 5 spent, 6 ended, 7 not compared, 8 models, 9 other models, 10 written, 11 filled, 12 counted), the refusal's number (1 byte) and its
// place (2 bytes), and the numbers of variables and of clauses (1 byte each): those of an accepted formula, or those that are counted. The
// own fields:
// - check: the assignment (8 bytes).
// - judge: the length of the lent buffer (1 byte), the fill (1 byte) and the first 96 bytes after the call. The buffer is the first
//   bytes of an array of 256, which has the fill everywhere before the call and from byte 96 on after it.
// - weigh: the length of the lent buffer (1 byte), the fill (1 byte) and the first 96 bytes. The buffer is the first bytes of an array of
//   256, which has these bytes and then the fill.
// - deficiency: none. An answer that says counted has 0 variables, and the deficiency as its number of clauses.
// - read_text, write_text: the length of the lent buffer (2 bytes) and the fill (1 byte). The buffer has the fill everywhere before the
//   call, and behind the expected bytes after it. An answer that says written has their number as the place.
// - start: the start checkpoint (50 bytes: mode, length, 48 bytes), and no expected answer.
// - walk: the expected model (8 bytes), steps, expansions (4 bytes each) and checkpoint; which checkpoint the call gets (1 byte: 0
//   the one that follows, 1 the start checkpoint, 2 the one that the call of the vector before it returned), a checkpoint, and the
//   budget (4 bytes). A chain is a vector for each of its calls.
// - wait: how many waits are over (4 bytes: one for each model, and one for the end), and no expected answer. The expected bytes are the
//   budgets of a chain's calls, 4 bytes each. The calls are made, the first from the start checkpoint, and the steps to the first model,
//   between two models and to the end compared with the trails in the checkpoints that come back with the models.
// - listing: the expected model, steps and expansions; where the call goes on from (1 byte: 1 the start checkpoint, 2 the one that the call
//   of the vector before it returned). The budget is ample. A listing is a vector for each of its calls.
// - list: as walk, and in place of the budget the room of the lent slice and the fill (1 byte each). The expected bytes are the models, 8
//   bytes each. The slice is the first places of an array of 256, which has the fill everywhere before the call and behind the models after
//   it. The answer and the checkpoint are the last call's, with steps and expansions of 0.
// - page: the expected checkpoint; which checkpoint the call gets and a checkpoint, as of walk; the first serial (4 bytes), the length of the
//   lent page (2 bytes) and the fill (1 byte). The expected bytes are the filled lines. The page has the fill everywhere before the call.
//   After it, if the answer says filled, blank lines stand behind the filled ones up to byte 3,000; all other bytes have the fill. That
//   answer has the number of filled lines as the place.
// - printed: none, and no expected answer. The expected bytes are the text.
// - formulas: none. The answer says that the walk was not compared with a trial of all assignments (7), or that both have the same
//   models (8), with their number as the place.
// tools/corpus.py writes the files.
#![tactic(auto)]

mod assuming;
mod converting;
mod judging;
mod listing;
mod measuring;
mod paging;
mod prints;
mod runs;
mod trying;
mod waiting;
mod walking;
mod weighing;

ghost use Rattle.std.specs.Prelude.{◌<◌, length, IfOk};
ghost use Rattle.cases.specs.Runs.{AfterFile};
ghost use Rattle.vectors.specs.Totals.{RoomFor};

use arrayvec::ArrayString;
use runs::{Act, run_all};
use std::rt::Files;
use std::{fs, io};
use vectors::report;
use vectors::totals::Totals;

// So many bytes of a file are read.
const MAX_FILE: usize = 65536;

// The vectors of one file, counted on from the totals so far.
fn run_file<R: Files + Print>(rt: &R, t: Totals, name: &str, act: Act) -> io::Result<Totals>
    requires { RoomFor 65536 t }
    ensures { IfOk result (AfterFile act t) }
{
    let Ok(mut file) = fs::open(rt, name) else {
        return Ok(t);
    };
    let mut buffer = [0u8; MAX_FILE];
    let n = reading::read_full(&mut file, &mut buffer)?;
    let run = run_all(rt, &buffer[..n], act, t)?;
    if run.at < n {
        report::broken(rt, name.as_bytes(), run.at)?;
    }
    Ok(run.totals)
}

// Room for a file's name.
const MAX_NAME: usize = 16;

// The files of an act, whose names end in a, b and so on up to z, and then the line that sums them up.
fn run_files<R: Files + Print>(rt: &R, name: &str, act: Act, unit: &[u8]) -> io::Result<()>
    requires { length name.now < 16 }
{
    let mut t = Totals::none();
    for i in 0..26u8 {
        let mut path = ArrayString::<MAX_NAME>::new();
        path.push_str(name);
        path.push(char::from(b'a' + i));
        t = run_file(rt, t, path.as_str(), act)?;
    }
    report::summary(rt, name.as_bytes(), unit, t)
}

// A file of its own, and its line.
fn run_alone(rt: &(impl Files + Print), name: &str, act: Act) -> io::Result<()> {
    let t = run_file(rt, Totals::none(), name, act)?;
    report::summary(rt, name.as_bytes(), b"vectors", t)
}

fn main(rt: HostRuntime) -> io::Result<()> {
    run_files(&rt, "check", Act::Check, b"vectors")?;
    run_alone(&rt, "check_edges", Act::Check)?;
    run_files(&rt, "judge", Act::Judge, b"vectors")?;
    run_alone(&rt, "judge_edges", Act::Judge)?;
    run_alone(&rt, "judge_assumed", Act::Judge)?;
    run_files(&rt, "weigh", Act::Weigh, b"vectors")?;
    run_alone(&rt, "weigh_edges", Act::Weigh)?;
    run_alone(&rt, "weigh_assumed", Act::Weigh)?;
    run_files(&rt, "deficiency", Act::Deficiency, b"vectors")?;
    run_alone(&rt, "deficiency_edges", Act::Deficiency)?;
    run_files(&rt, "read_text", Act::ReadText, b"vectors")?;
    run_alone(&rt, "read_text_edges", Act::ReadText)?;
    run_files(&rt, "write_text", Act::WriteText, b"vectors")?;
    run_alone(&rt, "write_text_edges", Act::WriteText)?;
    run_alone(&rt, "start", Act::Start)?;
    run_files(&rt, "walk", Act::Walk, b"vectors")?;
    run_alone(&rt, "walk_edges", Act::Walk)?;
    run_alone(&rt, "walk_assumed", Act::Walk)?;
    run_files(&rt, "chain", Act::Walk, b"calls")?;
    run_files(&rt, "wait", Act::Wait, b"chains")?;
    run_alone(&rt, "wait_edges", Act::Wait)?;
    run_files(&rt, "listing", Act::Listing, b"calls")?;
    run_files(&rt, "list", Act::Models, b"vectors")?;
    run_alone(&rt, "list_edges", Act::Models)?;
    run_files(&rt, "page", Act::Page, b"vectors")?;
    run_alone(&rt, "page_edges", Act::Page)?;
    run_files(&rt, "printed", Act::Print, b"vectors")?;
    run_alone(&rt, "printed_edges", Act::Print)?;
    run_files(&rt, "formulas", Act::Compare, b"vectors")?;
    run_alone(&rt, "formulas_edges", Act::Compare)
}
