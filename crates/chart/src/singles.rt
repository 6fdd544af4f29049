// What a cell has from rows that take their bytes themselves: ranges of one byte, and texts.
ghost use Rattle.std.specs.Prelude.{◌≡◌, ◌+◌, ◌≤◌, ◌<◌, length, eqb};
ghost use Rattle.paper.specs.Rows.{row};
ghost use Rattle.paper.specs.Decide.{fits};
ghost use Rattle.paper.specs.Sheet.{sheet_of, grammar_of, text_of};
ghost use Rattle.paper.specs.Opens.{allows};
ghost use Rattle.workspace.specs.Bits.{bit};
ghost use Rattle.workspace.specs.Places.{place_of};
ghost use Rattle.chart_cells.specs.Steps.{Adds};
ghost use Rattle.chart.specs.Cells.{allowed, holding, no_range, ranged, fitting, among, passing};

use groundwork::Groundwork;
use sheet::Sheet;
use sheet_contents::Row;
use workspace::Workspace;

// Whether row q is a range that holds the byte x.
#[tactic(auto, unfolding(crate::specs::Cells::holding, sheet_contents::specs::Ranges::holds_byte))]
fn holds(sheet: &Sheet, q: usize, x: usize) -> bool
    requires { q < sheet.now.rows.count }
    ensures { result ≡ holding x (row (grammar_of sheet.now.bytes.now) q) }
{
    match sheet.row(q) {
        Row::Range(low, high) => low <= x && x <= high,
        Row::Empty | Row::Text(_, _) | Row::Alt(_, _) | Row::Seq(_, _) | Row::Star(_) => false,
    }
}

// Whether the byte x is a letter and no range holds one: then none holds x.
#[tactic(auto, unfolding(crate::specs::Cells::no_range))]
fn no_range(g: &Groundwork, x: u8) -> bool
    ensures { result ≡ no_range (sheet_of g.now.sheet.now.bytes.now) g.now.ranges x }
{
    workspace::none(&g.ranges, 0) && g.is_letter(x)
}

// The ranges that hold the byte x, into span sp.
fn ranges(g: &Groundwork, x: u8, work: &mut Workspace, sp: usize)
    requires { sp < 1891 }
    ensures { Adds sp (among (grammar_of g.now.sheet.now.bytes.now) (holding x) g.now.sheet.now.rows.count) work.old work.new }
{
    if no_range(g, x) {
        return;
    }
    let sheet = g.sheet;
    let x = usize::from(x);
    workspace::put_where(work, sp, sheet.rows.count, |q| holds(sheet, q, x));
}

// The ranges that hold a byte allowed at place i, into its span, where m is 1.
pub fn singles(
    g: &Groundwork,
    places: &[Option<u8>],
    work: &mut Workspace,
    i: usize,
    m: usize,
    sp: usize,
)
    requires { (i + m ≤ length places.now) × (sp < 1891) }
    ensures { Adds sp (passing (grammar_of g.now.sheet.now.bytes.now) (ranged (allowed g.now.sheet.now.bytes.now places.now) m i)) work.old work.new }
{
    if m != 1 {
        return;
    }
    match places[i] {
        Some(x) => ranges(g, x, work, sp),
        None => workspace::join(work, sp, &g.ranges, 0),
    }
}

// Whether the place can hold the byte b.
#[tactic(auto, unfolding(paper::specs::Opens::allows, workspace::specs::Places::place_of))]
fn can_hold(g: &Groundwork, place: Option<u8>, b: u8) -> bool
    ensures { result ≡ allows (sheet_of g.now.sheet.now.bytes.now) (place_of place) b }
{
    match place {
        Some(x) => b == x,
        None => g.is_letter(b),
    }
}

// Whether the places from i on can hold the bytes of a part of the sheet's text.
pub fn can_hold_all(g: &Groundwork, part: &[u8], places: &[Option<u8>], i: usize) -> bool
    requires { i + length part.now ≤ length places.now }
    ensures { result ≡ fits (allowed g.now.sheet.now.bytes.now places.now) i part.now }
{
    part.iter()
        .zip(&places[i..])
        .all(|(b, x)| can_hold(g, *x, *b))
}

// Whether row q is a text of m bytes that fits the places from i on.
#[tactic(auto, unfolding(crate::specs::Cells::fitting))]
fn text_fits(g: &Groundwork, q: usize, places: &[Option<u8>], i: usize, m: usize) -> bool
    requires { (q < g.now.sheet.now.rows.count) × (i + m ≤ length places.now) }
    ensures { result ≡ fitting (text_of g.now.sheet.now.bytes.now) (allowed g.now.sheet.now.bytes.now places.now) m i (row (grammar_of g.now.sheet.now.bytes.now) q) }
{
    match g.sheet.row(q) {
        Row::Text(a, len) => len == m && can_hold_all(g, &g.sheet.text[a..a + len], places, i),
        Row::Empty | Row::Range(_, _) | Row::Alt(_, _) | Row::Seq(_, _) | Row::Star(_) => false,
    }
}

// Whether some text row has m bytes.
#[tactic(auto, unfolding(workspace::specs::Bits::bit))]
fn has_length(g: &Groundwork, m: usize) -> bool
    requires { m ≤ 60 }
    ensures { result ≡ eqb (bit g.now.lengths m) 1 }
{
    (g.lengths >> m) & 1 == 1
}

// The texts of m bytes that fit the places from i on, into their span.
pub fn texts(
    g: &Groundwork,
    places: &[Option<u8>],
    work: &mut Workspace,
    i: usize,
    m: usize,
    sp: usize,
)
    requires { (length places.now ≤ 60) × (i + m ≤ length places.now) × (sp < 1891) }
    ensures { Adds sp (passing (grammar_of g.now.sheet.now.bytes.now) (fitting (text_of g.now.sheet.now.bytes.now) (allowed g.now.sheet.now.bytes.now places.now) m i)) work.old work.new }
{
    if !has_length(g, m) {
        return;
    }
    workspace::put_where(
        work,
        sp,
        g.sheet.rows.count,
        |q| text_fits(g, q, places, i, m),
    );
}
