#![tactic(auto)]

// A cut list's groups, heads and options written. Each writer hands back where it ended.
pub mod bytes;

ghost use Rattle.std.specs.Prelude.{◌+◌, ◌-◌, ◌*◌, ◌≤◌, ◌<◌, length};
ghost use Rattle.paper.specs.Cuts.{splits, own_opts, options, all_bytes, entry, group, groups};
ghost use Rattle.numbers.specs.Put.{Put};
ghost use Rattle.sheet_contents.specs.Read.{as_row};
ghost use Rattle.maker_options.specs.Planned.{grammar};

use bytes::Opt;
use maker_options::Plan;
use sheet_contents::Row;

// The options that part m bytes between the rows a and b, at o.
fn put_splits(list: &mut [u8], o: usize, m: usize, a: usize, b: usize) -> usize
    requires { (1 ≤ m) × (m ≤ 60) × (o + 8 * (m - 1) ≤ length list.old) }
    ensures { Put (all_bytes (splits m a b)) o list.old list.new result }
{
    let mut p = o;
    for k in 1..m as u8 {
        p = bytes::put_option(list, p, Opt::Split(k, a, b));
    }
    p
}

// The options that row q, given as a row, gives by itself at length m, at o.
fn put_own(list: &mut [u8], o: usize, row: Row, m: usize, q: usize) -> usize
    requires { (1 ≤ m) × (m ≤ 60) × (o + 8 * length (own_opts m q (as_row row)) ≤ length list.old) }
    ensures { Put (all_bytes (own_opts m q (as_row row))) o list.old list.new result }
{
    match row {
        Row::Range(low, high) if m == 1 => bytes::put_option(list, o, Opt::Byte(low, high)),
        Row::Text(off, len) if len == m => bytes::put_option(list, o, Opt::Stretch(off, len)),
        Row::Seq(a, b) => put_splits(list, o, m, a, b),
        Row::Star(a) => put_splits(list, o, m, a, q),
        Row::Range(..) | Row::Text(..) => o,
        Row::Empty | Row::Alt(..) => o,
    }
}

// The options of row r at length m, at o.
fn put_options(list: &mut [u8], o: usize, plan: &Plan, m: usize, r: usize) -> usize
    requires { (m ≤ plan.now.n) × (r < plan.now.sheet.now.rows.count) × (o + 8 * length (options (grammar plan.now) m r) ≤ length list.old) }
    ensures { Put (all_bytes (options (grammar plan.now) m r)) o list.old list.new result }
{
    if m == 0 {
        return if plan.is_nullable(r) {
            bytes::put_option(list, o, Opt::Nil)
        } else {
            o
        };
    }
    let mut end = o;
    let mut p = 0;
    while let Some(q) = plan.next(m, r, p, plan.sheet.rows.count) {
        end = put_own(list, end, plan.sheet.row(q), m, q);
        p = q + 1;
    }
    end
}

// The head and the options of row r at length m, at o.
fn put_entry(list: &mut [u8], o: usize, plan: &Plan, m: usize, r: usize) -> usize
    requires { (m ≤ plan.now.n) × (r < plan.now.sheet.now.rows.count) × (o + length (entry (grammar plan.now) m r) ≤ length list.old) }
    ensures { Put (entry (grammar plan.now) m r) o list.old list.new result }
{
    let count = plan.option_count(m, r);
    let p = bytes::put_head(list, o, r, m as u8, count);
    put_options(list, p, plan, m, r)
}

// The group of length m, at o.
fn put_group(list: &mut [u8], o: usize, plan: &Plan, m: usize) -> usize
    requires { (m ≤ plan.now.n) × (o + length (group (grammar plan.now) m) ≤ length list.old) }
    ensures { Put (group (grammar plan.now) m) o list.old list.new result }
{
    let mut p = o;
    for r in 0..plan.sheet.rows.count {
        p = put_entry(list, p, plan, m, r);
    }
    p
}

// The groups of the lengths 0 to n, from the start on.
pub fn put_groups(list: &mut [u8], plan: &Plan) -> usize
    requires { length (groups (grammar plan.now) (plan.now.n + 1)) ≤ length list.old }
    ensures { Put (groups (grammar plan.now) (plan.now.n + 1)) 0 list.old list.new result }
{
    let mut p = 0;
    for m in 0..=plan.n {
        p = put_group(list, p, plan, m);
    }
    p
}
