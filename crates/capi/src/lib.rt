// The functions exported to C and Rust, each over slices of numbers (S13.1).
//
// A slice is lent as a pointer and a length. Results go out as six numbers, a checkpoint as 50 bytes.
#![tactic(auto)]

ghost use Rattle.std.specs.Prelude.{◌≡◌, [], ◌∷◌, length, Ok};
ghost use Rattle.formula.specs.Check as check;
ghost use Rattle.assumptions.specs.Bytes.{of_bytes};
ghost use Rattle.assumptions.specs.InnerAssumed.{MasksOf};
ghost use Rattle.matched.specs.Judge as judging;
ghost use Rattle.matched.specs.Weigh.{weighed_values};
ghost use Rattle.walk.specs.Checkpoints as walk;
ghost use Rattle.enumeration.specs.Values.{checkpoint_values, answer_values, walked_values, listed_values};
ghost use Rattle.page.specs.Pages.{page_values};
ghost use Rattle.capi.specs.InnerResults.{refusal_results, told_results};
ghost use Rattle.capi.specs.Interface.{results_size, check_results, judge_results, weigh_results, walk_results, list_results, page_results, checkpoint_size, checkpoint_bytes, checkpoint_in, check_called, judge_called, weigh_called, deficiency_called, from_dimacs_called, to_dimacs_called, start_called, walk_called, list_called, page_called};

use enumeration::{Answer, Checkpoint, Listed, Walked};
use formula::{Assignment, Refusal};
use limits::MAX_VARIABLES;
use matched::{Sizes, Weight};
use page::{PAGE_LINES, Paged};

// The results are so many numbers.
const RESULTS_SIZE: usize = 6;

// A checkpoint is so many bytes: its mode, its length and its trail.
const CHECKPOINT_SIZE: usize = 2 + MAX_VARIABLES;

// An assumption is so many bytes: its variable and its value.
const ASSUMPTION_SIZE: usize = 2;

// The results of a call: the answer, the model, a refusal's number and place, the steps and the expansions. judge has the numbers of
// variables and clauses in place of the steps and expansions, weigh those of marked clauses and of variables; in place of the steps
// deficiency has the deficiency, a conversion the number of bytes, list that of models and a page that of lines.
type Results = [u64; RESULTS_SIZE];

// An answer that is no refusal.
fn plain_results(answer: u64, model: u64, steps: u64, expansions: u64) -> Results
    ensures { result ≡ answer ∷ model ∷ 0 ∷ 0 ∷ steps ∷ expansions ∷ [] }
{
    [answer, model, 0, 0, steps, expansions]
}

// A refusal: its number and its place.
fn refusal_results(refusal: Refusal) -> Results
    ensures { result ≡ refusal_results refusal }
{
    [3, 0, refusal.number(), refusal.place() as u64, 0, 0]
}

// A verdict: model or not.
fn check_results(model: bool) -> Results
    ensures { result ≡ check_results (check.verdict_values (Ok model)) }
{
    plain_results(u64::from(!model), 0, 0, 0)
}

// An accepted input.
fn judge_results(sizes: Sizes) -> Results
    ensures { result ≡ judge_results (judging.judgement_values (Ok sizes)) }
{
    plain_results(0, 0, sizes.variables as u64, sizes.clauses as u64)
}

// Weighed marks.
fn weigh_results(weight: Weight) -> Results
    ensures { result ≡ weigh_results (weighed_values (Ok weight)) }
{
    plain_results(0, 0, weight.clauses as u64, u64::from(weight.variables))
}

// The deficiency, or how many bytes were written.
fn number_results(number: usize) -> Results
    ensures { result ≡ 0 ∷ 0 ∷ 0 ∷ 0 ∷ number ∷ 0 ∷ [] }
{
    plain_results(0, 0, number as u64, 0)
}

// The answer of a walk, with the steps and the expansions beside it.
fn answer_results(answer: Answer, steps: u64, expansions: u64) -> Results
    ensures { (c : walk.Checkpoint) → result ≡ walk_results (answer_values answer steps expansions c) }
{
    match answer {
        Answer::Model(model) => plain_results(0, model, steps, expansions),
        Answer::Spent => plain_results(1, 0, steps, expansions),
        Answer::Ended => plain_results(2, 0, steps, expansions),
    }
}

// A walk call.
fn walk_results(walked: Walked) -> Results
    ensures { result ≡ walk_results (walked_values walked) }
{
    answer_results(walked.answer, walked.steps, walked.expansions)
}

// A list: the last call's answer, and how many models were brought.
fn list_results(listed: Listed) -> Results
    ensures { result ≡ list_results listed.count (listed_values listed) }
{
    answer_results(listed.answer, listed.count as u64, 0)
}

// A page: filled, or not to its end, so that no model is left.
fn page_results(paged: Paged) -> Results
    ensures { result ≡ page_results (page_values (Ok paged)) }
{
    let answer = if paged.lines == PAGE_LINES { 0 } else { 2 };
    plain_results(answer, 0, paged.lines as u64, 0)
}

// Writes the results of an answer, or those of its refusal.
fn put_results(answer: Result<Results, Refusal>, results: &mut [u64])
    requires { length results.old ≡ results_size }
    ensures { results.new ≡ told_results answer }
{
    results.copy_from_slice(&answer.unwrap_or_else(refusal_results));
}

// The checkpoint that 50 bytes hold.
fn checkpoint_in(checkpoint: &[u8]) -> Checkpoint
    requires { length checkpoint.now ≡ checkpoint_size }
    ensures { checkpoint_values result ≡ checkpoint_in checkpoint.now }
{
    let mut bytes = [0u8; MAX_VARIABLES];
    bytes.copy_from_slice(&checkpoint[2..]);
    Checkpoint {
        mode: checkpoint[0],
        length: checkpoint[1],
        bytes,
    }
}

// Writes a checkpoint's 50 bytes.
fn put_checkpoint(c: Checkpoint, checkpoint: &mut [u8])
    requires { length checkpoint.old ≡ checkpoint_size }
    ensures { checkpoint.new ≡ checkpoint_bytes (checkpoint_values c) }
{
    checkpoint[0] = c.mode;
    checkpoint[1] = c.length;
    checkpoint[2..].copy_from_slice(&c.bytes);
}

// What the bytes of a list of assumptions say beside an input.
fn assumptions_in(input: &[u8], assumptions: &[u8]) -> Result<Assignment, Refusal>
    ensures { MasksOf input.now (of_bytes assumptions.now) result }
{
    assumptions::read_pairs(assumptions, assumptions::stated(input))
}

// S4.3: the act check.
#[unsafe(no_mangle)]
pub extern "C" fn norwythai_check(input: &[u8], assignment: u64, results: &mut [u64]) -> u32
    ensures { check_called input.now assignment results.old ≡ (result, results.new) }
{
    if results.len() != RESULTS_SIZE {
        return 1;
    }
    put_results(
        formula::check(input, assignment).map(check_results),
        results,
    );
    0
}

// S5.7, S17.2: the act judge.
#[unsafe(no_mangle)]
pub extern "C" fn norwythai_judge(
    input: &[u8],
    assumptions: &[u8],
    buffer: &mut [u8],
    results: &mut [u64],
) -> u32
    ensures { judge_called input.now assumptions.now buffer.old results.old ≡ (result, buffer.new, results.new) }
{
    if assumptions.len() % ASSUMPTION_SIZE != 0 || results.len() != RESULTS_SIZE {
        return 1;
    }
    let u = assumptions_in(input, assumptions);
    let j = matched::find_matching_under(input, u, buffer);
    put_results(j.map(judge_results), results);
    0
}

// S20.2: how much the marks in the buffer weigh.
#[unsafe(no_mangle)]
pub extern "C" fn norwythai_weigh(
    input: &[u8],
    assumptions: &[u8],
    buffer: &[u8],
    results: &mut [u64],
) -> u32
    ensures { weigh_called input.now assumptions.now buffer.now results.old ≡ (result, results.new) }
{
    if assumptions.len() % ASSUMPTION_SIZE != 0 || results.len() != RESULTS_SIZE {
        return 1;
    }
    let u = assumptions_in(input, assumptions);
    let w = matched::weigh_marks_under(input, u, buffer);
    put_results(w.map(weigh_results), results);
    0
}

// S22: how far the formula is from being matched.
#[unsafe(no_mangle)]
pub extern "C" fn norwythai_deficiency(input: &[u8], results: &mut [u64]) -> u32
    ensures { deficiency_called input.now results.old ≡ (result, results.new) }
{
    if results.len() != RESULTS_SIZE {
        return 1;
    }
    put_results(matched::deficiency(input).map(number_results), results);
    0
}

// S15: a DIMACS text into an encoded formula.
#[unsafe(no_mangle)]
pub extern "C" fn norwythai_from_dimacs(text: &[u8], buffer: &mut [u8], results: &mut [u64]) -> u32
    ensures { from_dimacs_called text.now buffer.old results.old ≡ (result, buffer.new, results.new) }
{
    if results.len() != RESULTS_SIZE {
        return 1;
    }
    put_results(dimacs::read(text, buffer).map(number_results), results);
    0
}

// S16: an encoded formula into a DIMACS text.
#[unsafe(no_mangle)]
pub extern "C" fn norwythai_to_dimacs(input: &[u8], buffer: &mut [u8], results: &mut [u64]) -> u32
    ensures { to_dimacs_called input.now buffer.old results.old ≡ (result, buffer.new, results.new) }
{
    if results.len() != RESULTS_SIZE {
        return 1;
    }
    put_results(dimacs::write(input, buffer).map(number_results), results);
    0
}

// S8.3: the start checkpoint.
#[unsafe(no_mangle)]
pub extern "C" fn norwythai_start(checkpoint: &mut [u8]) -> u32
    ensures { start_called checkpoint.old ≡ (result, checkpoint.new) }
{
    if checkpoint.len() != CHECKPOINT_SIZE {
        return 1;
    }
    put_checkpoint(enumeration::start_checkpoint(), checkpoint);
    0
}

// S8.1, S17.3: a walk call.
#[unsafe(no_mangle)]
pub extern "C" fn norwythai_walk(
    input: &[u8],
    assumptions: &[u8],
    checkpoint: &mut [u8],
    budget: u32,
    results: &mut [u64],
) -> u32
    ensures { walk_called input.now assumptions.now checkpoint.old budget results.old ≡ (result, checkpoint.new, results.new) }
{
    if assumptions.len() % ASSUMPTION_SIZE != 0
        || checkpoint.len() != CHECKPOINT_SIZE
        || results.len() != RESULTS_SIZE
    {
        return 1;
    }
    let u = assumptions_in(input, assumptions);
    let w = enumeration::walk_under(input, u, checkpoint_in(checkpoint), budget);
    if let Ok(walked) = w {
        put_checkpoint(walked.checkpoint, checkpoint);
    }
    put_results(w.map(walk_results), results);
    0
}

// S11, S17.3: the next models, as many as the slice has room for.
#[unsafe(no_mangle)]
pub extern "C" fn norwythai_list(
    input: &[u8],
    assumptions: &[u8],
    checkpoint: &mut [u8],
    models: &mut [u64],
    results: &mut [u64],
) -> u32
    ensures { list_called input.now assumptions.now checkpoint.old models.old results.old ≡ (result, checkpoint.new, models.new, results.new) }
{
    if assumptions.len() % ASSUMPTION_SIZE != 0
        || checkpoint.len() != CHECKPOINT_SIZE
        || results.len() != RESULTS_SIZE
    {
        return 1;
    }
    let u = assumptions_in(input, assumptions);
    let l = enumeration::list_under(input, u, checkpoint_in(checkpoint), models);
    if let Ok(listed) = l {
        put_checkpoint(listed.checkpoint, checkpoint);
    }
    put_results(l.map(list_results), results);
    0
}

// S19: a page of the next models.
#[unsafe(no_mangle)]
pub extern "C" fn norwythai_page(
    input: &[u8],
    assumptions: &[u8],
    checkpoint: &mut [u8],
    serial: u32,
    page: &mut [u8],
    results: &mut [u64],
) -> u32
    ensures { page_called input.now assumptions.now checkpoint.old serial page.old results.old ≡ (result, checkpoint.new, page.new, results.new) }
{
    if assumptions.len() % ASSUMPTION_SIZE != 0
        || checkpoint.len() != CHECKPOINT_SIZE
        || results.len() != RESULTS_SIZE
    {
        return 1;
    }
    let u = assumptions_in(input, assumptions);
    let p = page::write_page_under(input, u, checkpoint_in(checkpoint), serial, page);
    if let Ok(paged) = p {
        put_checkpoint(paged.checkpoint, checkpoint);
    }
    put_results(p.map(page_results), results);
    0
}
