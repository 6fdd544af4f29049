#![tactic(auto)]

// Is a prefix open at a length?
pub mod claims;
pub mod held;

ghost use Rattle.std.specs.Prelude.{◌≡◌, ◌≤◌, length};
ghost use Rattle.paper.specs.Sheet.{sheet_of};
ghost use Rattle.paper.specs.Opens.{can, opens_on};
ghost use Rattle.paper.specs.Opens as paper;
ghost use Rattle.sheet_contents.specs.Read.{as_assertion};
ghost use Rattle.sheet.specs.Readers.{Told};
ghost use Rattle.terms.specs.Shown.{shown};
ghost use Rattle.judge.specs.Charts.{Meant, Asked, Keeps};
ghost use Rattle.judge.specs.Judged.{Judged};

use groundwork::Groundwork;
use held::Lent;
use sheet_contents::Assertion;
use terms::Places;
use workspace::Workspace;

// The assertion can be met as it is signed, on the places of its terms.
fn can_be(g: &Groundwork, a: Assertion, p: &Places, q: &Places, held: &mut Lent) -> bool
    requires { Told g.now.sheet.now.bytes.now (as_assertion a) × Meant g.now.sheet.now.bytes.now a.term (shown p.now) held.old.run held.old.work.now }
    ensures { (result ≡ can (sheet_of g.now.sheet.now.bytes.now) (as_assertion a) (shown p.now) (shown q.now)) × Asked g.now.sheet.now.bytes.now a.term (shown p.now) held.old.run held.new.run held.old.work.now held.new.work.now }
{
    if a.denied && (terms::meets::some_unknown(p) || terms::meets::some_unknown(q)) {
        return true;
    }
    claims::can_hold(g, a, p, q, held) != a.denied
}

// The assertion is possible where v has these places.
pub fn possible(g: &Groundwork, a: Assertion, v: &Places, held: &mut Lent) -> bool
    requires { Told g.now.sheet.now.bytes.now (as_assertion a) × (v.now.len ≤ g.now.sheet.now.longest) × Keeps g.now.sheet.now.bytes.now (shown v.now) held.old.run held.old.work.now }
    ensures { Judged g.now.sheet.now.bytes.now v.now (as_assertion a) result held.new.run held.new.work.now }
{
    let second = sheet_contents::second_run(a.claim);
    if !terms::inside(g.sheet, v.len, a.term) || !terms::inside(g.sheet, v.len, second) {
        return false; // a cut past the end of v is not met
    }
    let p = terms::term(g.sheet, v, a.term);
    let q = terms::term(g.sheet, v, second);
    can_be(g, a, &p, &q, held)
}

// Each assertion is possible where v has these places.
pub fn opens_on(g: &Groundwork, v: &Places, work: &mut Workspace) -> bool
    requires { v.now.len ≤ g.now.sheet.now.longest }
    ensures { result ≡ opens_on (sheet_of g.now.sheet.now.bytes.now) v.now.len (shown v.now) }
{
    // what the workspace has from an earlier call is of other places
    let mut held = Lent { run: None, work };
    for i in 0..g.sheet.assertions.count {
        if !possible(g, g.sheet.assertion(i), v, &mut held) {
            return false;
        }
    }
    true
}

// The prefix is open at n.
pub fn opens(g: &Groundwork, prefix: &[u8], n: usize, work: &mut Workspace) -> bool
    requires { (length prefix.now ≤ n) × (n ≤ g.now.sheet.now.longest) }
    ensures { result ≡ paper.opens (sheet_of g.now.sheet.now.bytes.now) n prefix.now }
{
    let v = terms::all_of_v(prefix, n);
    opens_on(g, &v, work)
}
