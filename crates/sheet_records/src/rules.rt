// The rule of each record: kind, sign, zero field, order of a pair, reference.
ghost use Rattle.std.specs.Prelude.{◌≡◌, ◌+◌, ◌≤◌, ◌<◌, length};
ghost use Rattle.paper.specs.Trailer.{size};
ghost use Rattle.paper.specs.Records.{letter_ok, row_fields, row_ok, part_fields, part_ok, assert_fields, assert_ok, record_ok};

use sheet_contents::{Claim, Part, Row, claim_of, pair_at, part_of, row_of};
use sheet_trailer::Trailer;

#[tactic(auto, unfolding(paper::specs::Records::letter_ok))]
pub fn letter_ok(s: &[u8], o: usize) -> bool
    requires { o + 2 ≤ length s.now }
    ensures { result ≡ letter_ok s.now o }
{
    s[o] <= s[o + 1]
}

// What the kind of a row asks of its a and b.
#[tactic(auto, unfolding(paper::specs::Records::row_fields))]
fn row_fields(rows: usize, text: usize, kind: u8, a: usize, b: usize) -> bool
    requires { (a < 65536) × (b < 65536) }
    ensures { result ≡ row_fields rows text kind a b }
{
    match row_of(kind, a, b) {
        Some(Row::Empty) => a == 0 && b == 0,
        Some(Row::Range(low, high)) => (low..=255).contains(&high),
        Some(Row::Text(at, count)) => at + count <= text,
        Some(Row::Alt(x, y) | Row::Seq(x, y)) => x < rows && y < rows,
        Some(Row::Star(x)) => x < rows && b == 0,
        None => false,
    }
}

#[tactic(auto, unfolding(paper::specs::Records::row_ok))]
pub fn row_ok(s: &[u8], o: usize, rows: usize, text: usize) -> bool
    requires { o + 6 ≤ length s.now }
    ensures { result ≡ row_ok s.now o rows text }
{
    let (a, b) = pair_at(s, o + 2);
    s[o + 1] == 0 && row_fields(rows, text, s[o], a, b)
}

#[tactic(auto, unfolding(paper::specs::Records::part_fields))]
fn part_fields(text: usize, kind: u8, a: usize, b: usize) -> bool
    requires { (a < 65536) × (b < 65536) }
    ensures { result ≡ part_fields text kind a b }
{
    match part_of(kind, a, b) {
        Some(Part::Const(at, count)) => at + count <= text,
        Some(Part::All) => a == 0 && b == 0,
        Some(Part::Cut(_, _)) => true,
        None => false,
    }
}

#[tactic(auto, unfolding(paper::specs::Records::part_ok))]
pub fn part_ok(s: &[u8], o: usize, text: usize) -> bool
    requires { o + 6 ≤ length s.now }
    ensures { result ≡ part_ok s.now o text }
{
    let (a, b) = pair_at(s, o + 2);
    s[o + 1] == 0 && part_fields(text, s[o], a, b)
}

#[tactic(auto, unfolding(paper::specs::Records::assert_fields))]
fn assert_fields(text: usize, rows: usize, parts: usize, kind: u8, a: usize, b: usize) -> bool
    requires { (a < 65536) × (b < 65536) }
    ensures { result ≡ assert_fields text rows parts kind a b }
{
    match claim_of(kind, a, b) {
        Some(Claim::Derived(x)) => x < rows && b == 0,
        Some(Claim::Contains(at, count)) => at + count <= text,
        Some(Claim::Equals(first, count) | Claim::ContainsTerm(first, count)) => first + count
            <= parts,
        None => false,
    }
}

#[tactic(auto, unfolding(paper::specs::Records::assert_ok))]
pub fn assert_ok(s: &[u8], o: usize, text: usize, rows: usize, parts: usize) -> bool
    requires { o + 12 ≤ length s.now }
    ensures { result ≡ assert_ok s.now o text rows parts }
{
    let (first, count) = pair_at(s, o + 2);
    let (a, b) = pair_at(s, o + 6);
    s[o + 1] <= 1
        && first + count <= parts
        && numbers::u16_at(s, o + 10) == 0
        && assert_fields(text, rows, parts, s[o], a, b)
}

// The record of table t at o.
#[tactic(auto, unfolding(paper::specs::Records::record_ok))]
pub fn record_ok(trailer: &Trailer, t: usize, o: usize) -> bool
    requires { (t < 5) × (o + size t ≤ length trailer.now.sheet.now) }
    ensures { result ≡ record_ok trailer.now.sheet.now t o }
{
    let s = trailer.sheet;
    match t {
        0 => letter_ok(s, o),
        1 => true,
        2 => row_ok(s, o, trailer.count_of(2), trailer.count_of(1)),
        3 => part_ok(s, o, trailer.count_of(1)),
        _ => assert_ok(
            s,
            o,
            trailer.count_of(1),
            trailer.count_of(2),
            trailer.count_of(3),
        ),
    }
}
