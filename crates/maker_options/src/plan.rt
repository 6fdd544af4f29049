// A list that is to be made, and what is made once for it.
ghost use Rattle.std.specs.Prelude.{◌≤◌, ◌<◌};
ghost use Rattle.paper.specs.Sheet.{grammar_of};
ghost use Rattle.maker_options.specs.Prepared.{Ready};

use super::WORDS;
use sheet::Sheet;

// The list of an accepted sheet's row for the length n, and a table: for each row the rows that it reaches, and for each length up to n
// the rows that give an option there. It is flat, since `workspace::next` meets two entries of one table, and lent, as it has 10,144 bytes.
#[derive(Clone, Copy)]
pub struct Plan<'a> {
    pub sheet: &'a Sheet<'a>,
    pub root: usize,
    pub n: usize,
    pub table: &'a [u64; WORDS],
    pub ghost inside: { root < sheet.now.rows.count },
    pub ghost short: { n ≤ 60 },
    pub ghost ready: { Ready (grammar_of sheet.now.bytes.now) n table.now },
}
