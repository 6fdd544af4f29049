// Can a claim be made to hold of its terms?
ghost use Rattle.std.specs.Prelude.{◌≡◌, List, ◌+◌, ◌≤◌, ◌<◌, length};
ghost use Rattle.paper.specs.Rows.{stretch};
ghost use Rattle.paper.specs.Trailer.{count_of};
ghost use Rattle.paper.specs.Terms.{Place};
ghost use Rattle.paper.specs.Sheet.{sheet_of, Contains, Derived};
ghost use Rattle.paper.specs.Decide.{fits};
ghost use Rattle.paper.specs.Opens.{pattern, can_hold};
ghost use Rattle.paper.proofs.Sound.{SoundClaim};
ghost use Rattle.sheet_contents.specs.Read.{as_claim};
ghost use Rattle.workspace.specs.Places.{places_in};
ghost use Rattle.terms.specs.Shown.{shown};
ghost use Rattle.judge.specs.Charts.{Charts, Meant, Left};

use crate::held::Lent;
use groundwork::Groundwork;
use sheet_contents::{Assertion, Claim, Run};
use terms::Places;

// The places from i on can hold b bytes of the text from a on.
fn holds_at(g: &Groundwork, a: usize, b: usize, places: &[Option<u8>], i: usize) -> bool
    requires { (a + b ≤ count_of g.now.sheet.now.bytes.now 1) × (i + b ≤ length places.now) }
    ensures { result ≡ fits (pattern (sheet_of g.now.sheet.now.bytes.now) (places_in places.now)) i (stretch 0 (sheet_of g.now.sheet.now.bytes.now).grammar.text a b) }
{
    chart::singles::can_hold_all(g, &g.sheet.text[a..a + b], places, i)
}

// The places can hold them somewhere.
fn can_contain(g: &Groundwork, a: usize, b: usize, places: &[Option<u8>]) -> bool
    requires { (a + b ≤ count_of g.now.sheet.now.bytes.now 1) × (length places.now ≤ 60) }
    ensures { (u : List Place) → result ≡ can_hold (sheet_of g.now.sheet.now.bytes.now) (Contains a b) (places_in places.now) u }
{
    for end in b..=places.len() {
        if holds_at(g, a, b, places, end - b) {
            return true;
        }
    }
    false
}

// The row derives some filling of a term's places, whose chart is filled unless the workspace holds it.
fn can_derive(g: &Groundwork, row: usize, term: Run, places: &[Option<u8>], held: &mut Lent) -> bool
    requires { (row < count_of g.now.sheet.now.bytes.now 2) × (length places.now ≤ 60) × Meant g.now.sheet.now.bytes.now term (places_in places.now) held.old.run held.old.work.now }
    ensures { ((u : List Place) → result ≡ can_hold (sheet_of g.now.sheet.now.bytes.now) (Derived row) (places_in places.now) u) × Charts g.now.sheet.now.bytes.now (places_in places.now) held.new.work.now × (held.new.run ≡ Some term) }
{
    if held.run != Some(term) {
        chart::fill(g, places, held.work);
        held.run = Some(term);
    }
    chart::derives(places.len(), row, held.work)
}

// The assertion's claim can be made to hold of the places of its terms.
pub fn can_hold(g: &Groundwork, a: Assertion, p: &Places, q: &Places, held: &mut Lent) -> bool
    requires { SoundClaim (count_of g.now.sheet.now.bytes.now 1) (count_of g.now.sheet.now.bytes.now 2) (count_of g.now.sheet.now.bytes.now 3) (as_claim a.claim) × Meant g.now.sheet.now.bytes.now a.term (shown p.now) held.old.run held.old.work.now }
    ensures { (result ≡ can_hold (sheet_of g.now.sheet.now.bytes.now) (as_claim a.claim) (shown p.now) (shown q.now)) × Left g.now.sheet.now.bytes.now (as_claim a.claim) a.term (shown p.now) held.old.run held.new.run held.old.work.now held.new.work.now }
{
    let places = p.places();
    match a.claim {
        Claim::Derived(row) => can_derive(g, row, a.term, places, held),
        Claim::Contains(x, y) => can_contain(g, x, y, places),
        Claim::Equals(_, _) => terms::meets::equal(g, p, q),
        Claim::ContainsTerm(_, _) => terms::meets::contains(g, p, q),
    }
}
