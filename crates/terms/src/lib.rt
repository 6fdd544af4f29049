#![tactic(auto)]

// A term's places at a length, under a prefix.
pub mod meets;
mod places;

ghost use Rattle.std.specs.Prelude.{◌≡◌, not, ◌+◌, ◌-◌, ◌≤◌, ◌<◌, None, ◌++◌, length, take, drop, replicate};
ghost use Rattle.paper.specs.Tests.{all_of};
ghost use Rattle.paper.specs.Trailer.{count_of};
ghost use Rattle.paper.specs.Terms.{Cut, places_of, cut_inside};
ghost use Rattle.paper.specs.Sheet.{sheet_of, text_of, parts_of};
ghost use Rattle.paper.specs.Open.{term_on};
ghost use Rattle.sheet_contents.specs.Read.{as_part, as_run, SmallPart};
ghost use Rattle.terms.specs.Shown.{placed, shown, known_places, Readable};

pub use places::Places;
use sheet::Sheet;
use sheet_contents::{Part, Run};

// Bytes as places that are known, and behind them places that are not.
fn known(bytes: &[u8]) -> [Option<u8>; 60]
    requires { length bytes.now ≤ 60 }
    ensures { result ≡ known_places bytes.now ++ replicate (60 - length bytes.now) None }
{
    let mut of = [None; 60];
    for (i, b) in bytes.iter().enumerate() {
        of[i] = Some(*b);
    }
    of
}

// All of v at length n: the prefix's bytes are known, the others not.
pub fn all_of_v(prefix: &[u8], n: usize) -> Places
    requires { (length prefix.now ≤ n) × (n ≤ 60) }
    ensures { (shown result ≡ places_of n prefix.now) × (result.len ≡ n) }
{
    Places {
        of: known(prefix),
        len: n,
    }
}

// A constant's stretch of the text.
fn constant(sheet: &Sheet, a: usize, b: usize) -> Places
    requires { (b ≤ 60) × (a + b ≤ count_of sheet.now.bytes.now 1) }
    ensures { placed result ≡ known_places (take b (drop a (text_of sheet.now.bytes.now))) }
{
    Places {
        of: known(&sheet.text[a..a + b]),
        len: b,
    }
}

// A cut of b bytes from a on reaches past length n, and the sheet's rule does not shorten it.
fn cut_past(sheet: &Sheet, a: usize, b: usize, n: usize) -> bool
    requires { (a < 65536) × (b < 65536) }
    ensures { cut_inside (sheet_of sheet.now.bytes.now).rules n (Cut a b) ≡ not result }
{
    a + b > n && !sheet.shortens
}

// The part is such a cut.
#[tactic(auto, unfolding(paper::specs::Terms::cut_inside))]
fn past(sheet: &Sheet, part: Part, n: usize) -> bool
    requires { SmallPart (as_part part) }
    ensures { cut_inside (sheet_of sheet.now.bytes.now).rules n (as_part part) ≡ not result }
{
    match part {
        Part::Const(_, _) | Part::All => false,
        Part::Cut(a, b) => cut_past(sheet, a, b, n),
    }
}

// No cut of a run of parts does.
pub fn inside(sheet: &Sheet, n: usize, r: Run) -> bool
    requires { r.first + r.count ≤ sheet.now.parts.count }
    ensures { result ≡ all_of (cut_inside (sheet_of sheet.now.bytes.now).rules n) (parts_of (sheet_of sheet.now.bytes.now) (as_run r)) }
{
    for i in 0..r.count {
        if past(sheet, sheet.part(r.first + i), n) {
            return false;
        }
    }
    true
}

// The places of the term of a run of parts.
pub fn term(sheet: &Sheet, v: &Places, r: Run) -> Places
    requires { Readable sheet.now.bytes.now v.now.len (as_run r) }
    ensures { shown result ≡ term_on (sheet_of sheet.now.bytes.now) (shown v.now) (as_run r) }
{
    let mut p = Places {
        of: [None; 60],
        len: 0,
    };
    for i in 0..r.count {
        p.add_part(sheet, sheet.part(r.first + i), v);
    }
    p
}
