#![tactic(auto)]

// What is made once a call from a sheet's rows: the rows that derive the empty word, and for each row the rows that reach it by steps
// that keep the length. Each is a closure in place: passes over the rows, rising and falling by turns, until one adds nothing.
ghost use Rattle.std.specs.Prelude.{◌≡◌, ℕ, List, ◌+◌, ◌*◌, ◌≤◌, ◌<◌, length};
ghost use Rattle.std.specs.Option.{ForSome};
ghost use Rattle.paper.specs.Sheet.{grammar_of};
ghost use Rattle.paper.specs.Decide.{null_row};
ghost use Rattle.paper.proofs.Sound.{SoundRow};
ghost use Rattle.workspace.specs.Bits.{bit_at};
ghost use Rattle.workspace.specs.Room.{Grows};
ghost use Rattle.sheet_contents.specs.Read.{as_row};
ghost use Rattle.rows.specs.Sets.{Nulls, Reached, Started, steps_of, passed_on, NullSound, NullSettled, ReachSound, ReachSettled};
ghost use Rattle.rows.specs.Passes.{turn_of, Turn, Pass, Done};

use sheet::Sheet;
use sheet_contents::Row;

// A rule that puts rows into a table of N words, a row's turn at a time.
trait Rule<const N: usize> {
    // How many rows have a turn.
    ghost rows: { Self → ℕ };

    // What the turns keep of the table.
    ghost sound: { Self → List ℕ → Type 0 };

    // What a row asks of the table.
    ghost settled: { Self → List ℕ → ℕ → Type 0 };

    fn count(&self) -> usize
        ensures { result ≡ rows self.now };

    // Row r's turn. Whether something is new.
    fn turn(&self, out: &mut [u64; N], r: usize) -> bool
        requires { r < rows self.now }
        ensures { Turn (sound self.now) (settled self.now) r result out.old out.new };
}

// The row whose turn is turn j of n, in rising or in falling order: a range and its reverse are two types, and would be two loops.
fn turn_of(down: bool, n: usize, j: usize) -> usize
    requires { j < n }
    ensures { (result ≡ turn_of down n j) × (result < n) }
{
    if down { n - 1 - j } else { j }
}

// One pass. Whether something is new.
fn pass<const N: usize, R: Rule<N>>(rule: &R, out: &mut [u64; N], down: bool) -> bool
    ensures { Pass (R.sound rule.now) (R.settled rule.now) (R.rows rule.now) result out.old out.new }
{
    let n = rule.count();
    let mut new = false;
    for j in 0..n {
        let r = turn_of(down, n, j);
        new |= rule.turn(out, r);
    }
    new
}

// Passes, rising and falling by turns, until one adds nothing.
fn settle<const N: usize, R: Rule<N>>(rule: &R, out: &mut [u64; N], mut down: bool)
    ensures { Done (R.sound rule.now) (R.settled rule.now) (R.rows rule.now) out.old out.new }
{
    while pass(rule, out, down) {
        down = !down;
    }
}

// Whether a row derives the empty word, given the rows that do.
#[tactic(auto, unfolding(paper::specs::Decide::null_row))]
fn null_row(nulls: &[u64; 4], r: Row) -> bool
    requires { SoundRow 1024 256 (as_row r) }
    ensures { result ≡ null_row (bit_at nulls.now 0) (as_row r) }
{
    match r {
        Row::Empty | Row::Star(_) => true,
        Row::Range(..) => false,
        Row::Text(_, len) => len == 0,
        Row::Alt(a, b) => workspace::test(nulls, 0, a) || workspace::test(nulls, 0, b),
        Row::Seq(a, b) => workspace::test(nulls, 0, a) && workspace::test(nulls, 0, b),
    }
}

// The rule of the rows that derive the empty word.
#[derive(Clone, Copy)]
struct Empties<'a> {
    sheet: &'a Sheet<'a>,
}

impl Rule<4> for Empties<'_> {
    ghost rows = { λ x. x.sheet.now.rows.count };

    ghost sound = { λ x. NullSound (grammar_of x.sheet.now.bytes.now) };

    ghost settled = { λ x. NullSettled (grammar_of x.sheet.now.bytes.now) };

    fn count(&self) -> usize {
        self.sheet.rows.count
    }

    fn turn(&self, out: &mut [u64; 4], r: usize) -> bool {
        let row = self.sheet.row(r);
        null_row(out, row) && workspace::mark(out, 0, r)
    }
}

// The rows that derive the empty word, in entry 0.
pub fn nulls(sheet: &Sheet) -> [u64; 4]
    ensures { Nulls (grammar_of sheet.now.bytes.now) result }
{
    let mut out = [0; 4];
    settle(&Empties { sheet }, &mut out, false);
    out
}

// The children of a row to which a step leads that keeps the length, given the rows that derive the empty word.
fn steps_of(nulls: &[u64; 4], r: Row) -> (Option<usize>, Option<usize>)
    requires { SoundRow 1024 256 (as_row r) }
    ensures { result ≡ steps_of (bit_at nulls.now 0) (as_row r) }
{
    match r {
        Row::Empty | Row::Range(..) | Row::Text(..) => (None, None),
        Row::Alt(a, b) => (Some(a), Some(b)),
        Row::Seq(a, b) => (
            workspace::test(nulls, 0, b).then_some(a),
            workspace::test(nulls, 0, a).then_some(b),
        ),
        Row::Star(a) => (Some(a), None),
    }
}

// Where there is a step from r to p, what reaches r reaches p. Whether something is new.
fn pass_on(out: &mut [u64; 1024], step: Option<usize>, r: usize) -> bool
    requires { ForSome step (λ p. p < 256) × (r < 256) }
    ensures { (out.new ≡ passed_on step r out.old) × Grows result out.old out.new }
{
    match step {
        Some(p) => workspace::merge(out, p, r),
        None => false,
    }
}

// The rule of the rows that reach each row: what reaches a row reaches those to which it has a step.
#[derive(Clone, Copy)]
struct Reaching<'a> {
    sheet: &'a Sheet<'a>,
    nulls: &'a [u64; 4],
    ghost empties: { Nulls (grammar_of sheet.now.bytes.now) nulls.now },
}

impl Rule<1024> for Reaching<'_> {
    ghost rows = { λ x. x.sheet.now.rows.count };

    ghost sound = { λ x. ReachSound (grammar_of x.sheet.now.bytes.now) };

    ghost settled = { λ x. ReachSettled (grammar_of x.sheet.now.bytes.now) };

    fn count(&self) -> usize {
        self.sheet.rows.count
    }

    fn turn(&self, out: &mut [u64; 1024], r: usize) -> bool {
        let nulls = self.nulls;
        let (a, b) = steps_of(nulls, self.sheet.row(r));
        let x = pass_on(out, a, r);
        let y = pass_on(out, b, r);
        x | y
    }
}

// Each of the first n rows reaches itself.
fn start(out: &mut [u64; 1024], n: usize)
    requires { (n ≤ 256) × Started 0 out.old }
    ensures { Started n out.new }
{
    for q in 0..n {
        workspace::set(out, q, q);
    }
}

// The rows that reach row q, into entry q. The table is lent: handed back it would be copied, and stand on the stack more than once.
pub fn reach(sheet: &Sheet, nulls: &[u64; 4], out: &mut [u64; 1024])
    requires { Nulls (grammar_of sheet.now.bytes.now) nulls.now }
    ensures { Reached (grammar_of sheet.now.bytes.now) out.new }
{
    out.fill(0);
    start(out, sheet.rows.count);
    settle(&Reaching { sheet, nulls }, out, true);
}
