// How many options a row has at a length, and how long a group and the groups are.
ghost use Rattle.std.specs.Prelude.{◌≡◌, ◌+◌, ◌≤◌, ◌<◌, length};
ghost use Rattle.paper.specs.Decide.{nullable};
ghost use Rattle.paper.specs.Cuts.{options, entry, group, groups};
ghost use Rattle.workspace.specs.Scan.{FirstOf};
ghost use Rattle.sheet_contents.specs.Read.{as_row};
ghost use Rattle.maker_options.specs.Giving.{Gives};
ghost use Rattle.maker_options.specs.Prepared.{chosen, Offsets};
ghost use Rattle.maker_options.specs.Planned.{grammar};

use super::{LENGTHS, Plan, ROWS};
use sheet_contents::Row;

// How many options a row gives by itself at length m, m at least 1.
pub fn own_count(r: Row, m: usize) -> usize
    requires { 1 ≤ m }
    ensures { Gives m (as_row r) result }
{
    match r {
        Row::Empty | Row::Alt(..) => 0,
        Row::Range(..) => usize::from(m == 1),
        Row::Text(_, len) => usize::from(len == m),
        Row::Seq(..) | Row::Star(_) => m - 1,
    }
}

impl Plan<'_> {
    // Whether row r derives the empty word.
    pub fn is_nullable(&self, r: usize) -> bool
        requires { r < self.now.sheet.now.rows.count }
        ensures { result ≡ nullable (grammar self.now) r }
    {
        let table = self.table;
        workspace::test(table, ROWS, r)
    }

    // The first row from p on and below n that row r reaches and that gives an option at length m, if there is one.
    pub fn next(&self, m: usize, r: usize, p: usize, n: usize) -> Option<usize>
        requires { (m ≤ 60) × (r < 256) × (p ≤ n) × (n ≤ 256) }
        ensures { FirstOf (chosen self.now.table.now r m) p n result }
    {
        let table = self.table;
        workspace::next(table, r, ROWS + m, p, n)
    }

    // How many options row r has at length m. (An iterator over the rows met, with its laws, would be longer than both loops that walk so.)
    pub fn option_count(&self, m: usize, r: usize) -> usize
        requires { (m ≤ self.now.n) × (r < self.now.sheet.now.rows.count) }
        ensures { result ≡ length (options (grammar self.now) m r) }
    {
        if m == 0 {
            return usize::from(self.is_nullable(r));
        }
        let mut c = 0;
        let mut p = 0;
        while let Some(q) = self.next(m, r, p, self.sheet.rows.count) {
            c += own_count(self.sheet.row(q), m);
            p = q + 1;
        }
        c
    }

    // The bytes of row r's head and options at length m.
    fn entry_length(&self, m: usize, r: usize) -> usize
        requires { (m ≤ self.now.n) × (r < self.now.sheet.now.rows.count) }
        ensures { result ≡ length (entry (grammar self.now) m r) }
    {
        8 + 8 * self.option_count(m, r)
    }

    // The bytes of the group of length m.
    fn group_length(&self, m: usize) -> usize
        requires { m ≤ self.now.n }
        ensures { result ≡ length (group (grammar self.now) m) }
    {
        (0..self.sheet.rows.count)
            .map(|r| self.entry_length(m, r))
            .sum()
    }

    // Where each group begins; and the bytes of all of them.
    pub fn measure(&self) -> ([usize; LENGTHS], usize)
        ensures starts { Offsets (grammar self.now) (self.now.n + 1) result.0 }
        ensures end { result.1 ≡ length (groups (grammar self.now) (self.now.n + 1)) }
    {
        let mut offsets = [0usize; LENGTHS];
        let mut total = 0;
        for m in 0..=self.n {
            offsets[m] = total;
            total += self.group_length(m);
        }
        (offsets, total)
    }
}
