// Which inputs are accepted, each with its matching or a violator; the acts judge and deficiency (S5.6, S5.7, S17.2, S18, S20, S22).
//
// `accept` reads an input and says what comes of it (`acceptance`) to judge, walk, list, page and print; judge writes it into a lent
// buffer. `weigh_marks` counts the clauses that a buffer marks and the variables that they name. `deficiency` asks nothing of these.
#![tactic(auto)]

ghost use Rattle.std.specs.Prelude.{List, map, count_by, not, ◌==◌, ◌≡◌, ℕ, ◌+◌, ◌<◌, ◌≤◌, length, get_or};
ghost use Rattle.limits.specs.Limits.{max_clauses};
ghost use Rattle.lists.specs.Over.{over};
ghost use Rattle.lists.specs.Padded.{padded};
ghost use Rattle.formula.specs.Format.{Literal, Sized, ClauseOver};
ghost use Rattle.formula.specs.InnerMasked.{formula_of};
ghost use Rattle.formula.specs.InnerFits.{clause_variables, FormulaFits};
ghost use Rattle.assumptions.specs.declared.Assumption.{Assumption};
ghost use Rattle.assumptions.specs.InnerAssumed.{MasksOf};
ghost use Rattle.matching.specs.Sets.{union, selected};
ghost use Rattle.splitting.specs.InnerChoose.{assignment_of};
ghost use Rattle.splitting.specs.Nodes.{remaining};
ghost use Rattle.splitting.specs.Stripping.{stripped};
ghost use Rattle.matched.specs.Acceptance.{acceptance, by_stripped, formula_acceptance};
ghost use Rattle.matched.specs.Deficiency.{measured_values, deficiency_of};
ghost use Rattle.matched.specs.InnerAccept.{held_acceptance, held_row, refused_row};
ghost use Rattle.matched.specs.InnerSpread.{bytes_at, NotesFit, first_noted, told_byte, told_bytes};
ghost use Rattle.matched.specs.Judge.{judgement_values, judge};
ghost use Rattle.matched.specs.Weigh.{weighed_values, weighed};

use assumptions::Assumption;
use formula::{Assignment, ByteList, Clause, Formula, Refusal};
use limits::MAX_CLAUSES;
use splitting::Stripping;

// An accepted input: its formula, what is assumed, and a byte for each clause: 0 if an assumption satisfies it, else its variable,
// from 1, or, if stripping dropped it, 128 plus the variable that dropped it.
#[derive(Clone, Copy)]
pub struct Accepted {
    pub formula: Formula,
    pub assignment: Assignment,
    pub row: ByteList<MAX_CLAUSES>,
}

// A refused input: the refusal and, where what stripping leaves can't be matched, a byte for each clause: 1 if it is marked, else 0.
// Beside another refusal are no bytes.
#[derive(Clone, Copy)]
pub struct Declined {
    pub refusal: Refusal,
    pub row: ByteList<MAX_CLAUSES>,
}

// How large a formula is: the numbers of its variables and of its clauses.
#[derive(Clone, Copy)]
pub struct Sizes {
    pub variables: usize,
    pub clauses: usize,
}

// How much marks weigh: the numbers of marked clauses and of the variables that they name.
#[derive(Clone, Copy)]
pub struct Weight {
    pub clauses: usize,
    pub variables: u32,
}

// A refusal without bytes.
impl From<Refusal> for Declined {
    ghost from_gives = { λ r d. d ≡ refused_row r };

    fn from(refusal: Refusal) -> Declined {
        Declined {
            refusal,
            row: ByteList::new(),
        }
    }
}

// Only the refusal.
impl From<Declined> for Refusal {
    ghost from_gives = { λ d r. r ≡ d.refusal };

    fn from(declined: Declined) -> Refusal {
        declined.refusal
    }
}

// A byte for each clause: 0 if the assignment satisfies it, and for the others, in order, what the answers have, raised by k.
fn spread(f: &Formula, a: Assignment, answers: &[u8; MAX_CLAUSES], k: u8) -> ByteList<MAX_CLAUSES>
    requires { (i : ℕ) → i < max_clauses → get_or answers.now i 0 + k < 256 }
    ensures { result.items ≡ bytes_at f.now.clauses.items a answers.now k (length f.now.clauses.items) }
{
    let mut row = ByteList::new();
    let mut next: usize = 0;
    for c in f.clauses.iter() {
        if a.satisfies(*c) {
            row.push(0);
        } else {
            row.push(answers[next] + k);
            next += 1;
        }
    }
    row
}

// The first noted variable that the clause names, 0 if it names none.
fn first_noted(s: &Stripping, c: Clause) -> u8
    requires { NotesFit s.now }
    ensures { result ≡ first_noted s.now c }
{
    for v in s.order.as_slice() {
        if masks::member(c.variables(), usize::from(*v)) {
            return *v;
        }
    }
    0
}

// The byte of a clause: 128 plus the variable, from 1, that dropped it, or the given one if stripping did not drop it.
fn tell(a: Assignment, s: &Stripping, c: Clause, byte: u8) -> u8
    requires { NotesFit s.now }
    ensures { result ≡ told_byte a s.now c byte }
{
    if s.assignment.satisfies(c) && !a.satisfies(c) {
        return first_noted(s, c) + 129;
    }
    byte
}

// The bytes of the clauses that stripping dropped, and those of the others as they are.
fn tell_dropped(f: &Formula, a: Assignment, s: &Stripping, row: &[u8]) -> ByteList<MAX_CLAUSES>
    requires { (length f.now.clauses.items ≤ length row.now) × NotesFit s.now }
    ensures { result.items ≡ told_bytes f.now.clauses.items a s.now row.now (length f.now.clauses.items) }
{
    let mut told = ByteList::new();
    for (c, byte) in f.clauses.iter().zip(row) {
        told.push(tell(a, s, *c, *byte));
    }
    told
}

// S18.1: what comes of a formula of which what remains is not matched: what stripping leaves of it is matched.
fn strip_row(f: &Formula, a: Assignment) -> Result<ByteList<MAX_CLAUSES>, Declined>
    requires { FormulaFits f.now }
    ensures { (n : ℕ) (t : List Literal) (cs : List (List Literal)) → Sized n cs → ClauseOver n t → f.now ≡ formula_of n cs → a ≡ assignment_of t
        → result ≡ held_row (by_stripped n t cs (stripped n (remaining t cs))) }
{
    let s = splitting::strip(f, a);
    match splitting::match_open(f, s.assignment).found {
        Ok(answers) => {
            let row = spread(f, s.assignment, &answers, 1);
            Ok(tell_dropped(f, a, &s, row.as_slice()))
        }
        Err(violator) => Err(Declined {
            refusal: Refusal::Unmatched(violator.size),
            row: spread(f, s.assignment, &violator.marks, 0),
        }),
    }
}

// What comes of a formula that was read, under assumptions of which none is bad: what remains is matched whole, or stripped.
fn match_row(f: &Formula, a: Assignment) -> Result<ByteList<MAX_CLAUSES>, Declined>
    requires { FormulaFits f.now }
    ensures { (n : ℕ) (t : List Literal) (cs : List (List Literal)) → Sized n cs → ClauseOver n t → f.now ≡ formula_of n cs → a ≡ assignment_of t
        → result ≡ held_row (formula_acceptance n t cs) }
{
    match splitting::match_open(f, a).found {
        Ok(answers) => Ok(spread(f, a, &answers, 1)),
        Err(_) => strip_row(f, a),
    }
}

// S5.6, S17.2, S18.1: what comes of an input, under what the assumptions assign or the refusal of a bad one. Inlined, as `decode` is.
#[inline(always)]
pub fn accept(input: &[u8], u: Result<Assignment, Refusal>) -> Result<Accepted, Declined>
    requires { (us : List Assumption) × MasksOf input.now us u }
    ensures { (us : List Assumption) → MasksOf input.now us u → result ≡ held_acceptance (acceptance input.now us) }
{
    let formula = formula::decode(input)?;
    let assignment = u?;
    let row = match_row(&formula, assignment)?;
    Ok(Accepted {
        formula,
        assignment,
        row,
    })
}

// Writes the row over the first bytes of the buffer.
fn write(row: &[u8], buffer: &mut [u8])
    requires { length row.now ≤ length buffer.old }
    ensures { buffer.new ≡ over row.now buffer.old }
{
    buffer[..row.len()].copy_from_slice(row);
}

// S5.7: the act judge, over the masks of the assumptions: the numbers of variables and clauses and, in the buffer, the matching; or the
// refusal, with the violator in the buffer if what stripping leaves is not matched.
pub fn find_matching_under(
    input: &[u8],
    u: Result<Assignment, Refusal>,
    buffer: &mut [u8],
) -> Result<Sizes, Refusal>
    requires { (us : List Assumption) × MasksOf input.now us u }
    ensures { (us : List Assumption) → MasksOf input.now us u
        → (judgement_values result ≡ (judge input.now us buffer.old).answer)
        × (buffer.new ≡ (judge input.now us buffer.old).buffer) }
{
    if buffer.len() < MAX_CLAUSES {
        return Err(Refusal::ShortBuffer(0));
    }
    match accept(input, u) {
        Ok(accepted) => {
            write(accepted.row.as_slice(), buffer);
            Ok(Sizes {
                variables: accepted.formula.variables,
                clauses: accepted.formula.clauses.len(),
            })
        }
        Err(declined) => {
            write(declined.row.as_slice(), buffer);
            Err(declined.refusal)
        }
    }
}

// S5.7, S17.2: the act judge.
pub fn find_matching(input: &[u8], list: &[Assumption], buffer: &mut [u8]) -> Result<Sizes, Refusal>
    ensures { (judgement_values result ≡ (judge input.now list.now buffer.old).answer)
        × (buffer.new ≡ (judge input.now list.now buffer.old).buffer) }
{
    let u = assumptions::read_assumptions(list, assumptions::stated(input));
    find_matching_under(input, u, buffer)
}

// How many of the marks are not 0.
fn count_marked(marks: &[u8]) -> usize
    ensures { result ≡ count_by (λ mark. not (mark == 0)) marks.now }
{
    marks.iter().filter(|mark| **mark != 0).count()
}

// The variables that the marked clauses name, gathered in one mask (S20.2; request: named switches of marked rules).
fn named_by(f: &Formula, marks: &[u8]) -> u64
    ensures { result ≡ union (selected marks.now (map clause_variables f.now.clauses.items)) }
{
    let mut named: u64 = 0;
    for (c, mark) in f.clauses.iter().zip(marks) {
        if *mark != 0 {
            named |= c.variables();
        }
    }
    named
}

// The variables that the clauses of a formula name (S23.1): what they name if every one is marked.
pub fn named(f: &Formula) -> u64
    ensures { result ≡ union (map clause_variables f.now.clauses.items) }
{
    let marks = [1u8; MAX_CLAUSES];
    named_by(f, &marks[..f.clauses.len()])
}

// S20.2: how much the marks of a buffer weigh, over the masks of the assumptions.
pub fn weigh_marks_under(
    input: &[u8],
    u: Result<Assignment, Refusal>,
    buffer: &[u8],
) -> Result<Weight, Refusal>
    requires { (us : List Assumption) × MasksOf input.now us u }
    ensures { (us : List Assumption) → MasksOf input.now us u
        → weighed_values result ≡ weighed input.now us buffer.now }
{
    if buffer.len() < MAX_CLAUSES {
        return Err(Refusal::ShortBuffer(0));
    }
    let f = formula::decode(input)?;
    let assumed = u?.variables();
    Ok(Weight {
        clauses: count_marked(&buffer[..f.clauses.len()]),
        variables: masks::size(masks::minus(named_by(&f, buffer), assumed)),
    })
}

// S20.2: how many clauses the buffer marks, and how many variables, the assumed ones not counted, these name: of the marks that judge
// leaves at refusal 10, one fewer.
pub fn weigh_marks(input: &[u8], list: &[Assumption], buffer: &[u8]) -> Result<Weight, Refusal>
    ensures { weighed_values result ≡ weighed input.now list.now buffer.now }
{
    let u = assumptions::read_assumptions(list, assumptions::stated(input));
    weigh_marks_under(input, u, buffer)
}

// The variables that each clause names, as masks, and zeros behind them.
fn clause_masks(f: &Formula) -> [u64; MAX_CLAUSES]
    ensures { result ≡ padded max_clauses 0 (map clause_variables f.now.clauses.items) }
{
    let mut sets = [0u64; MAX_CLAUSES];
    for (i, c) in f.clauses.iter().enumerate() {
        sets[i] = c.variables();
    }
    sets
}

// S22.1: how many clauses are left over by the most that can be matched together, before stripping and with no assumption.
pub fn deficiency(input: &[u8]) -> Result<usize, Refusal>
    ensures { measured_values result ≡ deficiency_of input.now }
{
    let f = formula::decode(input)?;
    let sets = clause_masks(&f);
    let count = f.clauses.len();
    Ok(count - matching::match_most(&sets, count))
}
