// Encoded formulas: the reader, its refusals, and the act check.
#![tactic(auto)]

ghost use Rattle.std.specs.Prelude.{◌≡◌, ◌+◌, ◌<◌, ◌≤◌, ◌^◌, length, not};
ghost use Rattle.limits.specs.Limits.{max_variables};
ghost use Rattle.formula.specs.Check.{verdict_values, checked};
ghost use Rattle.formula.specs.InnerCheck.{clause_holds, clauses_hold};
ghost use Rattle.formula.specs.InnerMasked.{no_clause, with_literal, decoded};
ghost use Rattle.formula.specs.InnerFits.{side, clause_variables};
ghost use Rattle.formula.specs.InnerDecode.{kind_of};
ghost use Rattle.formula.specs.Refusals.{table_row};
ghost use Rattle.formula.specs.InnerReader.{kind_held, kind_byte, count_event, variable_event, literal_event, end_event, finish_event, past_literal, record_event, PassesLiterals};

mod assignment;
mod byte_list;
mod clause_list;

pub use assignment::Assignment;
pub use byte_list::ByteList;
pub use clause_list::ClauseList;
use limits::{MAX_CLAUSES, MAX_VARIABLES};

// A clause (request: rule): the variables that it names as true (request: on) and those that it names as false.
#[derive(Clone, Copy, Default)]
pub struct Clause {
    pub positive: u64,
    pub negative: u64,
}

// A formula (request: sheet): its number of variables, and its clauses in order.
#[derive(Clone, Copy)]
pub struct Formula {
    pub variables: usize,
    pub clauses: ClauseList,
}

// S3.1: the refusals, in the order of their numbers; each holds its place.
#[derive(Clone, Copy)]
pub enum Refusal {
    ShortBuffer(usize),
    Truncated(usize),
    UnknownKind(usize),
    Misplaced(usize),
    BadVariableCount(usize),
    NoSuchVariable(usize),
    ComplementaryLiteral(usize),
    TooManyClauses(usize),
    TrailingByte(usize),
    Unmatched(usize),
    ForeignCheckpoint(usize),
    StrayVariable(usize),
    BadOpening(usize),
    BadWord(usize),
    ClauseCountDiffers(usize),
    BadAssumption(usize),
    ShortPage(usize),
    BadSerial(usize),
}

// S2.2: what a record is, by its first byte; a literal by its sign.
#[derive(Clone, Copy, PartialEq, Eq)]
pub enum Kind {
    VariableCount,
    Literal(bool),
    ClauseEnd,
    FormulaEnd,
}

impl Kind {
    // The kind of a byte, if it is one.
    pub fn of(byte: u8) -> Option<Self>
        ensures { result ≡ kind_held (kind_of byte) }
    {
        match byte {
            1 => Some(Kind::VariableCount),
            2 => Some(Kind::Literal(true)),
            3 => Some(Kind::Literal(false)),
            4 => Some(Kind::ClauseEnd),
            5 => Some(Kind::FormulaEnd),
            _ => None,
        }
    }
}

// The byte of a kind.
impl From<Kind> for u8 {
    ghost from_gives = { λ kind byte. byte ≡ kind_byte kind };

    fn from(kind: Kind) -> u8 {
        match kind {
            Kind::VariableCount => 1,
            Kind::Literal(true) => 2,
            Kind::Literal(false) => 3,
            Kind::ClauseEnd => 4,
            Kind::FormulaEnd => 5,
        }
    }
}

// Where reading stands: the number of variables once kind 1 is read, the offset of the next record, how many clauses have
// ended, and what the current clause names so far.
#[derive(Clone, Copy)]
struct Reader {
    variables: u8,
    at: usize,
    count: usize,
    current: Clause,
}

impl Clause {
    // A clause without literals.
    pub fn empty() -> Self
        ensures { result ≡ no_clause }
    {
        Clause {
            positive: 0,
            negative: 0,
        }
    }

    // The clause that names v as well.
    pub fn with_literal(self, v: usize, sign: bool) -> Self
        requires { v < 64 }
        ensures { result ≡ with_literal self v sign }
    {
        if sign {
            Clause {
                positive: masks::with(self.positive, v),
                ..self
            }
        } else {
            Clause {
                negative: masks::with(self.negative, v),
                ..self
            }
        }
    }

    // The variables that the clause names the other way.
    pub fn other_side(self, sign: bool) -> u64
        ensures { result ≡ side self (not sign) }
    {
        if sign { self.negative } else { self.positive }
    }

    // The variables that the clause names, either way.
    pub fn variables(self) -> u64
        ensures { result ≡ clause_variables self }
    {
        self.positive | self.negative
    }

    // Some variable stands the way that the clause names it.
    fn holds(self, assignment: u64) -> bool
        ensures { result ≡ clause_holds assignment self }
    {
        masks::meets(self.positive, assignment) || masks::minus(self.negative, assignment) != 0
    }
}

impl Refusal {
    // S3.1: the number of a refusal.
    pub fn number(self) -> u64
        ensures { result ≡ (table_row self).number }
    {
        match self {
            Refusal::ShortBuffer(_) => 1,
            Refusal::Truncated(_) => 2,
            Refusal::UnknownKind(_) => 3,
            Refusal::Misplaced(_) => 4,
            Refusal::BadVariableCount(_) => 5,
            Refusal::NoSuchVariable(_) => 6,
            Refusal::ComplementaryLiteral(_) => 7,
            Refusal::TooManyClauses(_) => 8,
            Refusal::TrailingByte(_) => 9,
            Refusal::Unmatched(_) => 10,
            Refusal::ForeignCheckpoint(_) => 11,
            Refusal::StrayVariable(_) => 12,
            Refusal::BadOpening(_) => 13,
            Refusal::BadWord(_) => 14,
            Refusal::ClauseCountDiffers(_) => 15,
            Refusal::BadAssumption(_) => 16,
            Refusal::ShortPage(_) => 17,
            Refusal::BadSerial(_) => 18,
        }
    }

    // S3.1: the place of a refusal.
    pub fn place(self) -> usize
        ensures { result ≡ (table_row self).place }
    {
        match self {
            Refusal::ShortBuffer(place)
            | Refusal::Truncated(place)
            | Refusal::UnknownKind(place)
            | Refusal::Misplaced(place)
            | Refusal::BadVariableCount(place)
            | Refusal::NoSuchVariable(place)
            | Refusal::ComplementaryLiteral(place)
            | Refusal::TooManyClauses(place)
            | Refusal::TrailingByte(place)
            | Refusal::Unmatched(place)
            | Refusal::ForeignCheckpoint(place)
            | Refusal::StrayVariable(place)
            | Refusal::BadOpening(place)
            | Refusal::BadWord(place)
            | Refusal::ClauseCountDiffers(place)
            | Refusal::BadAssumption(place)
            | Refusal::ShortPage(place)
            | Refusal::BadSerial(place) => place,
        }
    }
}

// Kind 1.
fn read_count(input: &[u8], r: Reader) -> Result<Option<Reader>, Refusal>
    requires { r.at < length input.now }
    ensures { result ≡ count_event input.now r }
{
    if r.at != 0 {
        return Err(Refusal::Misplaced(r.at));
    }
    if input.len() <= r.at + 1 {
        return Err(Refusal::Truncated(input.len()));
    }
    let n = input[r.at + 1];
    if n == 0 || MAX_VARIABLES < usize::from(n) {
        return Err(Refusal::BadVariableCount(r.at));
    }
    Ok(Some(Reader {
        variables: n,
        at: r.at + 2,
        ..r
    }))
}

// A literal of variable v. A repeat of one that the clause has changes nothing in its masks.
fn read_variable(r: Reader, v: usize, sign: bool) -> Result<Option<Reader>, Refusal>
    requires { (v < 64) × (r.at + 2 < 2 ^ 64) }
    ensures { result ≡ variable_event r v sign }
{
    if masks::member(r.current.other_side(sign), v) {
        return Err(Refusal::ComplementaryLiteral(r.at));
    }
    Ok(Some(Reader {
        at: r.at + 2,
        current: r.current.with_literal(v, sign),
        ..r
    }))
}

// Kinds 2 and 3.
fn read_literal(input: &[u8], r: Reader, sign: bool) -> Result<Option<Reader>, Refusal>
    requires { (r.at < length input.now) × (r.variables ≤ max_variables) }
    ensures { result ≡ literal_event input.now r sign }
{
    if r.at == 0 {
        return Err(Refusal::Misplaced(r.at));
    }
    if input.len() <= r.at + 1 {
        return Err(Refusal::Truncated(input.len()));
    }
    let b = input[r.at + 1];
    if b == 0 || r.variables < b {
        return Err(Refusal::NoSuchVariable(r.at));
    }
    read_variable(r, usize::from(b) - 1, sign)
}

// Kind 4.
fn read_end(r: Reader) -> Result<Option<Reader>, Refusal>
    requires { r.at + 1 < 2 ^ 64 }
    ensures { result ≡ end_event r }
{
    if r.at == 0 {
        return Err(Refusal::Misplaced(r.at));
    }
    if MAX_CLAUSES <= r.count {
        return Err(Refusal::TooManyClauses(r.at));
    }
    Ok(Some(Reader {
        at: r.at + 1,
        count: r.count + 1,
        current: Clause::empty(),
        ..r
    }))
}

// Kind 5.
fn read_finish(input: &[u8], r: Reader) -> Result<Option<Reader>, Refusal>
    requires { r.at < length input.now }
    ensures { result ≡ finish_event input.now r }
{
    if r.at == 0 || r.current.variables() != 0 {
        return Err(Refusal::Misplaced(r.at));
    }
    if r.at + 1 < input.len() {
        return Err(Refusal::TrailingByte(r.at + 1));
    }
    Ok(None)
}

// One record: the reader behind it, or none behind the last one.
fn read_record(input: &[u8], r: Reader) -> Result<Option<Reader>, Refusal>
    requires { r.variables ≤ max_variables }
    ensures { result ≡ record_event input.now r }
{
    if input.len() <= r.at {
        return Err(Refusal::Truncated(input.len()));
    }
    match Kind::of(input[r.at]) {
        Some(Kind::VariableCount) => read_count(input, r),
        Some(Kind::Literal(sign)) => read_literal(input, r, sign),
        Some(Kind::ClauseEnd) => read_end(r),
        Some(Kind::FormulaEnd) => read_finish(input, r),
        None => Err(Refusal::UnknownKind(r.at)),
    }
}

// The reader behind a literal, if the record is one that can be read.
fn past_literal(input: &[u8], r: Reader) -> Option<Reader>
    requires { (r.at ≤ length input.now) × (r.variables ≤ max_variables) }
    ensures { result ≡ past_literal input.now r }
{
    if r.at == 0 || input.len() - r.at < 2 {
        return None;
    }
    let kind = input[r.at];
    if !matches!(kind, 2 | 3) {
        return None;
    }
    let b = input[r.at + 1];
    if b == 0 || r.variables < b {
        return None;
    }
    let v = usize::from(b) - 1;
    if masks::member(r.current.other_side(kind == 2), v) {
        return None;
    }
    Some(Reader {
        at: r.at + 2,
        current: r.current.with_literal(v, kind == 2),
        ..r
    })
}

// Literals are read, as many as can be: most records are such, and this way no refusal is made of them.
fn read_literals(input: &[u8], r: Reader) -> Reader
    requires { (r.at ≤ length input.now) × (r.variables ≤ max_variables) }
    ensures { PassesLiterals input.now r result }
{
    let mut reader = r;
    while let Some(after) = past_literal(input, reader) {
        reader = after;
    }
    reader
}

// S3.2: the formula that the input encodes, or the refusal of the first check that fails. It is inlined, so that the formula is made where
// its caller keeps it.
#[inline(always)]
pub fn decode(input: &[u8]) -> Result<Formula, Refusal>
    ensures { result ≡ decoded input.now }
{
    let mut clauses = ClauseList::new();
    let mut reader = Reader {
        variables: 0,
        at: 0,
        count: 0,
        current: Clause::empty(),
    };
    while let Some(after) = read_record(input, reader)? {
        if reader.count < after.count {
            clauses.push(reader.current);
        }
        reader = read_literals(input, after);
    }
    Ok(Formula {
        variables: usize::from(reader.variables),
        clauses,
    })
}

// Every clause of the formula holds.
pub fn all_hold(f: &Formula, assignment: u64) -> bool
    ensures { result ≡ clauses_hold assignment f.now.clauses.items }
{
    f.clauses.iter().all(|c| c.holds(assignment))
}

// S4.3: the act check: whether the assignment is a model of the encoded formula, accepted or not.
pub fn check(input: &[u8], assignment: u64) -> Result<bool, Refusal>
    ensures { verdict_values result ≡ checked input.now assignment }
{
    let f = decode(input)?;
    if (assignment >> f.variables) != 0 {
        return Err(Refusal::StrayVariable(0));
    }
    Ok(all_hold(&f, assignment))
}
