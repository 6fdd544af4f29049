#![tactic(auto)]

// The groundwork of a sheet: what every trial reads and no trial changes.
mod ground;
mod splits;

ghost use Rattle.std.specs.Prelude.{◌≡◌, ◌≤◌, ◌<◌, length, take};
ghost use Rattle.paper.specs.Rows.{Range, row};
ghost use Rattle.paper.specs.Sheet.{grammar_of, sheet_of};
ghost use Rattle.paper.proofs.Sound.{SoundRow};
ghost use Rattle.sheet_contents.specs.Read.{as_row};
ghost use Rattle.groundwork.specs.Laying.{RangesIn, LengthTold, Lengths, some_letter, pair_of, pairs_below};

pub use ground::Groundwork;
use sheet::Sheet;
use sheet_contents::Row;
pub use splits::Pair;

// Some byte from low to high is a letter.
fn letter_in(sheet: &Sheet, low: usize, high: usize) -> bool
    requires { (low ≤ high) × (high ≤ 255) }
    ensures { result ≡ some_letter (sheet_of sheet.now.bytes.now) (Range low high) }
{
    for b in low..high + 1 {
        if sheet.is_letter(b as u8) {
            return true;
        }
    }
    false
}

// Row q is a range that holds a letter.
fn holds_letter(sheet: &Sheet, q: usize) -> bool
    requires { q < sheet.now.rows.count }
    ensures { result ≡ some_letter (sheet_of sheet.now.bytes.now) (row (grammar_of sheet.now.bytes.now) q) }
{
    match sheet.row(q) {
        Row::Range(low, high) => letter_in(sheet, low, high),
        Row::Empty | Row::Text(..) | Row::Alt(..) | Row::Seq(..) | Row::Star(_) => false,
    }
}

// The ranges that hold a letter.
fn ranges(sheet: &Sheet) -> [u64; 4]
    ensures { RangesIn (sheet_of sheet.now.bytes.now) result }
{
    let mut ranges = [0; 4];
    workspace::put_where(&mut ranges, 0, sheet.rows.count, |q| holds_letter(sheet, q));
    ranges
}

// The rows a and b into which row q splits, with q; if it splits.
fn pair(q: usize, r: Row) -> Option<Pair>
    requires { (q < 256) × SoundRow 1024 256 (as_row r) }
    ensures { result ≡ pair_of q (as_row r) }
{
    let (a, b) = match r {
        Row::Seq(a, b) => (a, b),
        Row::Star(a) => (a, q),
        Row::Empty | Row::Range(..) | Row::Text(..) | Row::Alt(..) => return None,
    };
    Some(Pair {
        row: q as u8,
        left: a as u8,
        right: b as u8,
    })
}

// The pairs, one for each row that splits, and their number.
#[tactic(auto, using(crate::proofs::Splitting::pairs_few))]
fn pairs(sheet: &Sheet) -> ([Pair; 256], usize)
    ensures { (result.1 ≤ 256) × (result.1 ≡ length (pairs_below (grammar_of sheet.now.bytes.now) sheet.now.rows.count)) × (take result.1 result.0 ≡ pairs_below (grammar_of sheet.now.bytes.now) sheet.now.rows.count) }
{
    let mut pairs = [Pair::default(); 256];
    let mut j = 0;
    for q in 0..sheet.rows.count {
        if let Some(x) = pair(q, sheet.row(q)) {
            pairs[j] = x;
            j += 1;
        }
    }
    (pairs, j)
}

// The mask with the length of a text row besides: a term has at most 60 bytes.
fn tell_length(mask: u64, r: Row) -> u64
    ensures { LengthTold (as_row r) mask result }
{
    match r {
        Row::Text(_, len) if len <= 60 => mask | (1 << len),
        _ => mask,
    }
}

// The lengths of the text rows, a bit each.
fn lengths(sheet: &Sheet) -> u64
    ensures { Lengths (grammar_of sheet.now.bytes.now) result }
{
    let mut mask = 0;
    for q in 0..sheet.rows.count {
        mask = tell_length(mask, sheet.row(q));
    }
    mask
}
