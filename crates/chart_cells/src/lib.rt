#![tactic(auto)]

// What a cell has from shorter spans, two at a time, and from the rows that it holds already.
ghost use Rattle.std.specs.Prelude.{◌≡◌, ◌≢◌, ◌+◌, ◌-◌, ◌≤◌, ◌<◌, length};
ghost use Rattle.workspace.specs.Spans.{span_at};
ghost use Rattle.chart_cells.specs.Steps.{Adds, «both», listed, paired, parted, brought, carried_in};

use groundwork::{Groundwork, Pair};
use workspace::Workspace;

// Whether a pair has its left row in one span and its right one in the other.
#[tactic(auto, unfolding(crate::specs::Steps::both))]
fn both(work: &Workspace, left: usize, right: usize, pair: Pair) -> bool
    requires { (left < 1891) × (right < 1891) }
    ensures { result ≡ «both» work.now left right pair }
{
    workspace::test(work, left, usize::from(pair.left))
        && workspace::test(work, right, usize::from(pair.right))
}

// The rows that a pair of the groundwork splits over two spans, into span sp.
fn pairs(g: &Groundwork, work: &mut Workspace, left: usize, right: usize, sp: usize)
    requires { (left < 1891) × (right < 1891) × (sp < 1891) × (left ≢ sp) × (right ≢ sp) }
    ensures { Adds sp (paired (listed g.now) work.old left right (length (listed g.now))) work.old work.new }
{
    for pair in &g.pairs[..g.count] {
        let on = both(work, left, right, *pair);
        workspace::put(work, sp, usize::from(pair.row), on);
    }
}

// The same, passed over where one of the two spans has no row.
fn split(g: &Groundwork, work: &mut Workspace, left: usize, right: usize, sp: usize)
    requires { (left < 1891) × (right < 1891) × (sp < 1891) × (left ≢ sp) × (right ≢ sp) }
    ensures { Adds sp (paired (listed g.now) work.old left right (length (listed g.now))) work.old work.new }
{
    if workspace::none(work, left) || workspace::none(work, right) {
        return;
    }
    pairs(g, work, left, right, sp);
}

// The rows that a pair splits at 1 to m - 1 places, into the span of the m places from i on. Where a left span ends, at e, the right one begins;
// the right spans lie side by side after the whole one.
pub fn splits(g: &Groundwork, work: &mut Workspace, i: usize, m: usize, sp: usize)
    requires { (i + m ≤ 60) × (sp ≡ span_at i m) }
    ensures { Adds sp (parted (listed g.now) work.old i m (m - 1)) work.old work.new }
{
    if g.count == 0 || m < 2 {
        return;
    }
    let base = sp - i;
    let mut left = workspace::span(i, 1);
    for e in i + 1..i + m {
        split(g, work, left, base + e, sp);
        left += e + 1;
    }
}

// The rows that reach row q, where it is in span sp, into that span.
fn bring(g: &Groundwork, work: &mut Workspace, sp: usize, q: usize)
    requires { (q < 256) × (sp < 1891) }
    ensures { Adds sp (brought g.now.reach.now work.old sp q) work.old work.new }
{
    if workspace::test(work, sp, q) {
        let reach = g.reach;
        workspace::join(work, sp, reach, q);
    }
}

// The rows that reach a row of span sp, into it. A row that came in on the way brings none that the row it reaches did not.
pub fn carry(g: &Groundwork, work: &mut Workspace, sp: usize)
    requires { sp < 1891 }
    ensures { Adds sp (carried_in g.now.reach.now work.old sp g.now.sheet.now.rows.count) work.old work.new }
{
    if workspace::none(work, sp) {
        return;
    }
    for q in 0..g.sheet.rows.count {
        bring(g, work, sp, q);
    }
}
