// An accepted sheet, and its readers.
ghost use Rattle.std.specs.Prelude.{◌≡◌, ◌&&◌, ◌+◌, ◌≤◌, leb, length};
ghost use Rattle.paper.specs.Bytes.{OfBytes, u8_at};
ghost use Rattle.paper.specs.Trailer.{rules_of};
ghost use Rattle.paper.specs.Trailer as trailer;
ghost use Rattle.paper.specs.Rules as paper;
ghost use Rattle.paper.specs.Sheet.{text_of, sheet_of, letter};
ghost use Rattle.sheet_trailer.specs.Tables.{TableOf};
ghost use Rattle.sheet.specs.Good.{Good};
ghost use Rattle.sheet.specs.Once.{good_once};

use crate::{Fault, Takes, first_fault};
use sheet_contents::{Assertion, Part, Row};
use sheet_trailer::{Table, Trailer};

// The bytes of an accepted sheet, and what its trailer says of them.
#[derive(Clone, Copy)]
pub struct Sheet<'a> {
    pub bytes: &'a [u8],
    pub letters: Table,
    pub text: &'a [u8],
    pub rows: Table,
    pub parts: Table,
    pub assertions: Table,
    pub shortest: usize,
    pub longest: usize,
    // a cut off the end of v is shortened
    pub shortens: bool,
    pub ghost of_bytes: { OfBytes bytes.now },
    pub ghost good: { Good bytes.now } by { good_once bytes.now },
    pub ghost letters_at: { TableOf bytes.now 0 letters },
    pub ghost text_is: { text.now ≡ text_of bytes.now },
    pub ghost rows_at: { TableOf bytes.now 2 rows },
    pub ghost parts_at: { TableOf bytes.now 3 parts },
    pub ghost assertions_at: { TableOf bytes.now 4 assertions },
    pub ghost shortest_is: { shortest ≡ trailer.shortest bytes.now },
    pub ghost longest_is: { longest ≡ trailer.longest bytes.now },
    pub ghost shortens_is: { shortens ≡ paper.shortens (rules_of bytes.now) },
}

// The text, as a part of the sheet.
fn text_of<'a>(trailer: &Trailer<'a>) -> &'a [u8]
    requires { Good trailer.now.sheet.now }
    ensures { result.now ≡ text_of trailer.now.sheet.now }
{
    let Table { at, count } = trailer.table_of(1);
    &trailer.sheet[at..at + count]
}

// The byte lies in the range at o.
fn in_range(s: &[u8], o: usize, b: u8) -> bool
    requires { o + 2 ≤ length s.now }
    ensures { result ≡ (leb (u8_at s.now o) b && leb b (u8_at s.now (o + 1))) }
{
    (s[o]..=s[o + 1]).contains(&b)
}

// Some range of letters holds the byte.
fn in_ranges(s: &[u8], letters: Table, b: u8) -> bool
    requires { Good s.now × TableOf s.now 0 letters }
    ensures { result ≡ letter (sheet_of s.now) b }
{
    (0..letters.count).any(|i| in_range(s, letters.at + 2 * i, b))
}

impl<'a> Sheet<'a> {
    ghost use Rattle.std.specs.Prelude.{◌<◌, Err, IfOk, IfErr};
    ghost use Rattle.paper.specs.Refusals.{refusal};
    ghost use Rattle.sheet.specs.Told.{told, taken};
    ghost use Rattle.sheet.specs.Readers.{RowRead, PartRead, AssertionRead};

    // The sheet in good bytes.
    pub fn of(bytes: &'a [u8]) -> Self
        requires { Good bytes.now }
        ensures { result.bytes.now ≡ bytes.now }
    {
        let trailer = Trailer { sheet: bytes };
        Sheet {
            bytes,
            letters: trailer.table_of(0),
            text: text_of(&trailer),
            rows: trailer.table_of(2),
            parts: trailer.table_of(3),
            assertions: trailer.table_of(4),
            shortest: trailer.shortest(),
            longest: trailer.longest(),
            shortens: trailer.shortens(),
        }
    }

    // The sheet in the bytes, or their first fault, for a call that takes so much.
    pub fn read(bytes: &'a [u8], takes: Takes) -> Result<Self, Fault>
        requires { (takes.last < 10) × (takes.bytes < 65536) }
        ensures sheet { IfOk result (λ sheet. (sheet.bytes.now ≡ bytes.now) × ((refusal (taken takes) bytes.now).number ≡ 0)) }
        ensures fault { IfErr result (λ fault. Err fault ≡ told (refusal (taken takes) bytes.now)) }
    {
        first_fault(bytes, takes)?;
        Ok(Sheet::of(bytes))
    }

    // The trailer.
    pub fn trailer(&self) -> Trailer<'a>
        ensures { result.sheet.now ≡ self.now.bytes.now }
    {
        Trailer { sheet: self.bytes }
    }

    // Row i.
    pub fn row(&self, i: usize) -> Row
        requires { i < self.now.rows.count }
        ensures { RowRead self.now.bytes.now i result }
    {
        sheet_contents::row_at(self.bytes, self.rows.at + 6 * i)
    }

    // Part i.
    pub fn part(&self, i: usize) -> Part
        requires { i < self.now.parts.count }
        ensures { PartRead self.now.bytes.now i result }
    {
        sheet_contents::part_at(self.bytes, self.parts.at + 6 * i)
    }

    // Assertion i.
    pub fn assertion(&self, i: usize) -> Assertion
        requires { i < self.now.assertions.count }
        ensures { AssertionRead self.now.bytes.now i result }
    {
        sheet_contents::assertion_at(self.bytes, self.assertions.at + 12 * i)
    }

    // Whether the byte is a letter.
    pub fn is_letter(&self, b: u8) -> bool
        ensures { result ≡ letter (sheet_of self.now.bytes.now) b }
    {
        in_ranges(self.bytes, self.letters, b)
    }
}
