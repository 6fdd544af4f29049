#![tactic(auto)]

// Which rows derive which span of a term whose places are known or unknown, in the lent workspace.
// A place is a byte, or None where it is not known. Spans are filled the shorter ones first, each before it is read.
pub mod singles;

ghost use Rattle.std.specs.Prelude.{◌≡◌, ◌+◌, ◌≤◌, ◌<◌, length};
ghost use Rattle.workspace.specs.Spans.{span_at};
ghost use Rattle.workspace.specs.Bits.{bit_at};
ghost use Rattle.chart.specs.Cells.{derivable, emptied, Cell, Filled, Charted};

use groundwork::Groundwork;
use workspace::Workspace;

// The span of the m places from i on: what each row does by itself, carried to the rows that reach it. Its number, made once, goes along with i and m.
fn cell(g: &Groundwork, places: &[Option<u8>], work: &mut Workspace, i: usize, m: usize)
    requires { (length places.now ≤ 60) × (0 < m) × (i + m ≤ length places.now) × Filled (derivable g.now.sheet.now.bytes.now places.now) (length places.now) m i work.old }
    ensures { Cell (derivable g.now.sheet.now.bytes.now places.now) m i work.old work.new }
{
    let sp = workspace::span(i, m);
    workspace::wipe(work, sp);
    singles::singles(g, places, work, i, m, sp);
    singles::texts(g, places, work, i, m, sp);
    chart_cells::splits(g, work, i, m, sp);
    chart_cells::carry(g, work, sp);
}

// Every span of m places.
fn level(g: &Groundwork, places: &[Option<u8>], work: &mut Workspace, m: usize)
    requires { (length places.now ≤ 60) × (0 < m) × (m ≤ length places.now) × Filled (derivable g.now.sheet.now.bytes.now places.now) (length places.now) m 0 work.old }
    ensures { Filled (derivable g.now.sheet.now.bytes.now places.now) (length places.now) (m + 1) 0 work.new }
{
    for i in 0..=places.len() - m {
        cell(g, places, work, i, m);
    }
}

// The empty spans of n places: the rows that derive the empty word.
fn empties(empty: &[u64; 4], work: &mut Workspace, n: usize)
    requires { n ≤ 60 }
    ensures { Filled (emptied empty.now) n 1 0 work.new }
{
    for i in 0..=n {
        let sp = workspace::span(i, 0);
        workspace::copy(work, sp, empty, 0);
    }
}

// Every span of the term, the shorter ones first.
pub fn fill(g: &Groundwork, places: &[Option<u8>], work: &mut Workspace)
    requires { length places.now ≤ 60 }
    ensures { Charted g.now.sheet.now.bytes.now places.now work.new }
{
    let n = places.len();
    empties(&g.empty, work, n);
    for m in 1..=n {
        level(g, places, work, m);
    }
}

// Whether the row derives the whole of a filled term of `len` places.
pub fn derives(len: usize, row: usize, work: &Workspace) -> bool
    requires { (len ≤ 60) × (row < 256) }
    ensures { result ≡ bit_at work.now (span_at 0 len) row }
{
    let sp = workspace::span(0, len);
    workspace::test(work, sp, row)
}
