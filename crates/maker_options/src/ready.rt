// What is made once a call: a plan and its table.
ghost use Rattle.std.specs.Prelude.{◌≡◌, ◌+◌, ◌≤◌, ◌<◌};
ghost use Rattle.paper.specs.Sheet.{grammar_of};
ghost use Rattle.maker_options.specs.Giving.{giving};
ghost use Rattle.maker_options.specs.Prepared.{Turned, Given, Ready};

use super::{Plan, ROWS, WORDS, own_count};
use sheet::Sheet;

// The rows below n whose entry in `from` holds row r, into entry r, for each row r below n.
fn turn(from: &[u64; 4 * ROWS], n: usize, ws: &mut [u64; WORDS])
    requires { n ≤ 256 }
    ensures { Turned from.now n n ws.new }
{
    for r in 0..n {
        workspace::wipe(ws, r);
        workspace::put_where(ws, r, n, |q| workspace::test(from, q, r));
    }
}

// Whether row q gives an option by itself at length m.
fn gives(sheet: &Sheet, m: usize, q: usize) -> bool
    requires { (1 ≤ m) × (q < sheet.now.rows.count) }
    ensures { result ≡ giving (grammar_of sheet.now.bytes.now) m q }
{
    own_count(sheet.row(q), m) != 0
}

// The rows that give an option by themselves at length m, into entry ROWS + m, for each length from 1 to n.
fn give(sheet: &Sheet, n: usize, ws: &mut [u64; WORDS])
    requires { n ≤ 60 }
    ensures { Given (grammar_of sheet.now.bytes.now) (n + 1) ws.old ws.new }
{
    for m in 1..=n {
        workspace::wipe(ws, ROWS + m);
        workspace::put_where(ws, ROWS + m, sheet.rows.count, |q| gives(sheet, m, q));
    }
}

// The table for the rows of a sheet and the lengths up to n.
pub fn prepare(sheet: &Sheet, n: usize, table: &mut [u64; WORDS])
    requires { n ≤ 60 }
    ensures { Ready (grammar_of sheet.now.bytes.now) n table.new }
{
    let nulls = rows::nulls(sheet);
    let mut reach = [0; 4 * ROWS];
    rows::reach(sheet, &nulls, &mut reach);
    turn(&reach, sheet.rows.count, table);
    workspace::copy(table, ROWS, &nulls, 0);
    give(sheet, n, table);
}

impl<'a> Plan<'a> {
    // The plan for a row of a sheet and a length, in a table that is lent.
    pub fn of(sheet: &'a Sheet<'a>, root: usize, n: usize, table: &'a mut [u64; WORDS]) -> Self
        requires { (root < sheet.now.rows.count) × (n ≤ 60) }
        ensures { (result.sheet.now ≡ sheet.now) × (result.root ≡ root) × (result.n ≡ n) }
    {
        prepare(sheet, n, table);
        Plan {
            sheet,
            root,
            n,
            table,
        }
    }
}
