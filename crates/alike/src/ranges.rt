// Which range rows hold which byte.
ghost use Rattle.std.specs.Prelude.{◌≡◌, true, ◌≤◌, ◌<◌};
ghost use Rattle.paper.specs.Trailer.{count_of};
ghost use Rattle.paper.specs.Rows.{Range, row};
ghost use Rattle.paper.specs.Sheet.{grammar_of};
ghost use Rattle.sheet_contents.specs.Ranges.{holds_byte};
ghost use Rattle.alike.specs.Slots.{Added, Holders, SameRows};

use sheet::Sheet;
use sheet_contents::Row;

// A table of four words a byte: entry b has a bit for each row that holds b. It is flat, as every table whose bits `workspace` sets.
pub type Entries = [u64; 1024];

// Row r into the entries of the bytes from lo to hi.
fn hold(ws: &mut Entries, r: usize, lo: usize, hi: usize)
    requires { (r < 256) × (lo ≤ hi) × (hi < 256) }
    ensures { Added (holds_byte (Range lo hi)) r ws.old ws.new }
{
    for b in lo..hi + 1 {
        workspace::set(ws, b, r);
    }
}

// Row r of the sheet into the entries of the bytes that it holds.
fn hold_row(sheet: &Sheet, ws: &mut Entries, r: usize)
    requires { r < sheet.now.rows.count }
    ensures { Added (holds_byte (row (grammar_of sheet.now.bytes.now) r)) r ws.old ws.new }
{
    match sheet.row(r) {
        Row::Range(lo, hi) => hold(ws, r, lo, hi),
        Row::Empty | Row::Text(..) | Row::Alt(..) | Row::Seq(..) | Row::Star(_) => {}
    }
}

// Each row of the sheet into a table of none.
pub fn hold_rows(sheet: &Sheet, ws: &mut Entries)
    requires { Holders (grammar_of sheet.now.bytes.now) 0 ws.old }
    ensures { Holders (grammar_of sheet.now.bytes.now) (count_of sheet.now.bytes.now 2) ws.new }
{
    for r in 0..sheet.rows.count {
        hold_row(sheet, ws, r);
    }
}

// Whether the same rows hold b and c.
pub fn same(ws: &Entries, b: usize, c: usize) -> bool
    requires { (b < 256) × (c < 256) }
    ensures { result ≡ true → SameRows ws.now b c }
{
    ws[4 * b..4 * b + 4] == ws[4 * c..4 * c + 4]
}
