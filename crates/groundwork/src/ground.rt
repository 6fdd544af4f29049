// What every trial reads of a sheet and no trial changes.
ghost use Rattle.std.specs.Prelude.{◌≡◌, ◌≤◌, length, take};
ghost use Rattle.paper.specs.Sheet.{grammar_of, sheet_of};
ghost use Rattle.rows.specs.Sets.{Nulls, Reached};
ghost use Rattle.groundwork.specs.Laying.{RangesIn, LettersIn, Lengths, pairs_below};

use crate::Pair;
use sheet::Sheet;

// The groundwork of an accepted sheet.
#[derive(Drop)]
pub struct Groundwork<'a> {
    pub sheet: &'a Sheet<'a>,
    // the rows that reach row q, in entry q; 8,192 bytes, lent
    pub reach: &'a [u64; 1024],
    // the rows that derive the empty word
    pub empty: [u64; 4],
    // the ranges that hold a letter
    pub ranges: [u64; 4],
    pub letters: [u64; 4],
    // one for each row that splits, `count` in all: memory is fixed
    pub pairs: [Pair; 256],
    pub count: usize,
    // the lengths of the text rows, a bit each
    pub lengths: u64,
    pub ghost reach_is: { Reached (grammar_of sheet.now.bytes.now) reach.now },
    pub ghost empty_is: { Nulls (grammar_of sheet.now.bytes.now) empty },
    pub ghost ranges_are: { RangesIn (sheet_of sheet.now.bytes.now) ranges },
    pub ghost letters_are: { LettersIn (sheet_of sheet.now.bytes.now) letters },
    pub ghost few: { count ≤ 256 },
    pub ghost count_is: { count ≡ length (pairs_below (grammar_of sheet.now.bytes.now) sheet.now.rows.count) },
    pub ghost pairs_are: { take count pairs ≡ pairs_below (grammar_of sheet.now.bytes.now) sheet.now.rows.count },
    pub ghost lengths_are: { Lengths (grammar_of sheet.now.bytes.now) lengths },
}

impl<'a> Groundwork<'a> {
    ghost use Rattle.paper.specs.Sheet.{letter};

    // The groundwork of a sheet whose letters are given, and a table lent for its reach.
    pub fn of(sheet: &'a Sheet<'a>, letters: &[u64; 4], reach: &'a mut [u64; 1024]) -> Self
        requires { LettersIn (sheet_of sheet.now.bytes.now) letters.now }
        ensures { result.sheet.now ≡ sheet.now }
    {
        let empty = rows::nulls(sheet);
        rows::reach(sheet, &empty, reach);
        let (pairs, count) = crate::pairs(sheet);
        Groundwork {
            sheet,
            reach,
            empty,
            ranges: crate::ranges(sheet),
            letters: *letters,
            pairs,
            count,
            lengths: crate::lengths(sheet),
        }
    }

    // Whether the byte is a letter.
    pub fn is_letter(&self, b: u8) -> bool
        ensures { result ≡ letter (sheet_of self.now.sheet.now.bytes.now) b }
    {
        workspace::test(&self.letters, 0, usize::from(b))
    }
}
