#![tactic(auto)]

// A sheet's rows, parts and assertions, read from the bytes at which they stand.
ghost use Rattle.std.specs.Prelude.{◌≡◌, ◌+◌, ◌≤◌, length};
ghost use Rattle.paper.specs.Sheet.{second_run};
ghost use Rattle.sheet_contents.specs.Kinds.{RowOf, PartOf, ClaimOf};
ghost use Rattle.sheet_contents.specs.Read.{as_claim, as_run, PairRead, RowRead, PartRead, AssertionRead};

#[derive(Clone, Copy)]
pub enum Row {
    Empty,
    Range(usize, usize),
    Text(usize, usize),
    Alt(usize, usize),
    Seq(usize, usize),
    Star(usize),
}

#[derive(Clone, Copy)]
pub enum Part {
    Const(usize, usize),
    All,
    Cut(usize, usize),
}

#[derive(Clone, Copy)]
pub enum Claim {
    Derived(usize),
    Contains(usize, usize),
    Equals(usize, usize),
    ContainsTerm(usize, usize),
}

// A run of parts of the table.
#[derive(Clone, Copy, PartialEq, Eq)]
pub struct Run {
    pub first: usize,
    pub count: usize,
}

#[derive(Clone, Copy)]
pub struct Assertion {
    pub claim: Claim,
    pub denied: bool,
    pub term: Run,
}

// The two numbers at o.
pub fn pair_at(s: &[u8], o: usize) -> (usize, usize)
    requires { o + 4 ≤ length s.now }
    ensures { PairRead s.now o result }
{
    (numbers::u16_at(s, o), numbers::u16_at(s, o + 2))
}

// The row of each kind. Paper 01 names the form: a decision over the record kinds with ranges.
pub fn row_of(kind: u8, a: usize, b: usize) -> Option<Row>
    ensures { RowOf kind a b result }
{
    match kind {
        1 => Some(Row::Empty),
        2 => Some(Row::Range(a, b)),
        3 => Some(Row::Text(a, b)),
        4 => Some(Row::Alt(a, b)),
        5 => Some(Row::Seq(a, b)),
        6 => Some(Row::Star(a)),
        0 | 7..=255 => None,
    }
}

// The row at o. One of no kind derives nothing: a range with no byte in it.
pub fn row_at(s: &[u8], o: usize) -> Row
    requires { o + 6 ≤ length s.now }
    ensures { RowRead s.now o result }
{
    let (a, b) = pair_at(s, o + 2);
    row_of(s[o], a, b).unwrap_or(Row::Range(1, 0))
}

// The part of each kind.
pub fn part_of(kind: u8, a: usize, b: usize) -> Option<Part>
    ensures { PartOf kind a b result }
{
    match kind {
        1 => Some(Part::Const(a, b)),
        2 => Some(Part::All),
        3 => Some(Part::Cut(a, b)),
        0 | 4..=255 => None,
    }
}

// The part at o. One of no kind counts as a cut.
pub fn part_at(s: &[u8], o: usize) -> Part
    requires { o + 6 ≤ length s.now }
    ensures { PartRead s.now o result }
{
    let (a, b) = pair_at(s, o + 2);
    part_of(s[o], a, b).unwrap_or(Part::Cut(a, b))
}

// The claim of each kind.
pub fn claim_of(kind: u8, a: usize, b: usize) -> Option<Claim>
    ensures { ClaimOf kind a b result }
{
    match kind {
        1 => Some(Claim::Derived(a)),
        2 => Some(Claim::Contains(a, b)),
        3 => Some(Claim::Equals(a, b)),
        4 => Some(Claim::ContainsTerm(a, b)),
        0 | 5..=255 => None,
    }
}

// The assertion at o. A claim of no kind counts as containment of a term.
pub fn assertion_at(s: &[u8], o: usize) -> Assertion
    requires { o + 12 ≤ length s.now }
    ensures { AssertionRead s.now o result }
{
    let (first, count) = pair_at(s, o + 2);
    let (a, b) = pair_at(s, o + 6);
    let claim = claim_of(s[o], a, b).unwrap_or(Claim::ContainsTerm(a, b));
    Assertion {
        claim,
        denied: s[o + 1] == 1,
        term: Run { first, count },
    }
}

// The second term of a claim: equality has one, and containment of a term; for the others it is the empty term.
pub fn second_run(c: Claim) -> Run
    ensures { as_run result ≡ second_run (as_claim c) }
{
    match c {
        Claim::Derived(_) | Claim::Contains(_, _) => Run { first: 0, count: 0 },
        Claim::Equals(first, count) | Claim::ContainsTerm(first, count) => Run { first, count },
    }
}
