// Places compared: is one unknown, can two terms be the same word, can one stand in the other?
ghost use Rattle.std.specs.Prelude.{◌≡◌, ℕ, length};
ghost use Rattle.paper.specs.Tests.{any_of};
ghost use Rattle.paper.specs.Sheet.{sheet_of, Equals, ContainsTerm};
ghost use Rattle.paper.specs.Opens.{is_unknown, can_hold};
ghost use Rattle.paper.specs.Opens as paper;
ghost use Rattle.workspace.specs.Places.{place_of};
ghost use Rattle.terms.specs.Shown.{shown, meet_all};

use crate::Places;
use groundwork::Groundwork;

// Some place is unknown.
pub fn some_unknown(p: &Places) -> bool
    ensures { result ≡ any_of is_unknown (shown p.now) }
{
    p.places().iter().any(|x| x.is_none())
}

// Two places can hold the same byte.
#[tactic(auto, using(groundwork::proofs::Laying::ground_of), unfolding(paper::specs::Opens::meet, paper::specs::Opens::allows, workspace::specs::Places::place_of))]
fn meet(g: &Groundwork, x: Option<u8>, y: Option<u8>) -> bool
    ensures { result ≡ paper.meet (sheet_of g.now.sheet.now.bytes.now) (place_of x) (place_of y) }
{
    match (x, y) {
        (Some(a), Some(b)) => a == b,
        (Some(a), None) | (None, Some(a)) => g.is_letter(a),
        (None, None) => true,
    }
}

// The places of q can hold the bytes that those of p hold, one by one.
fn meet_all(g: &Groundwork, p: &[Option<u8>], q: &[Option<u8>]) -> bool
    requires { length p.now ≡ length q.now }
    ensures { result ≡ meet_all (sheet_of g.now.sheet.now.bytes.now) p.now q.now }
{
    p.iter().zip(q).all(|(x, y)| meet(g, *x, *y))
}

// Two terms can be the same word.
pub fn equal(g: &Groundwork, p: &Places, q: &Places) -> bool
    ensures { (a b : ℕ) → result ≡ can_hold (sheet_of g.now.sheet.now.bytes.now) (Equals a b) (shown p.now) (shown q.now) }
{
    p.len == q.len && meet_all(g, p.places(), q.places())
}

// The term p can contain the term q, which ends before place e of it.
pub fn contains(g: &Groundwork, p: &Places, q: &Places) -> bool
    ensures { (a b : ℕ) → result ≡ can_hold (sheet_of g.now.sheet.now.bytes.now) (ContainsTerm a b) (shown p.now) (shown q.now) }
{
    for e in q.len..=p.len {
        if meet_all(g, &p.of[e - q.len..e], q.places()) {
            return true;
        }
    }
    false
}
