#![tactic(auto)]

// The search: the walk under the budget, each prefix judged.
pub mod letters;

ghost use Rattle.std.specs.Prelude.{◌≡◌, ◌≤◌};
ghost use Rattle.paper.specs.Sheet.{sheet_of};
ghost use Rattle.paper.specs.Opens.{opens};
ghost use Rattle.paper.specs.Walk.{walk as «walk_of»};
ghost use Rattle.paper.specs.Answers.{under};
ghost use Rattle.walk_state.specs.Letters.{has_letter};
ghost use Rattle.walk.specs.Progress.{Classes};
ghost use Rattle.search.specs.Tells.{Tells};

use groundwork::Groundwork;
use walk::Walk;
use walk_state::{Prefix, State};
use workspace::Workspace;

// How a search ended: with a word, or without; and its trials.
#[derive(Clone, Copy)]
pub enum Sought {
    Found(Prefix, u64),
    None(u64),
    Spent(u64),
}

// One loop over the prefixes of all lengths from `shortest` on, for the budget and the trials run on from each length to the next.
pub fn seek(
    g: &Groundwork,
    walk: &Walk,
    shortest: usize,
    budget: u64,
    work: &mut Workspace,
) -> Sought
    requires { (shortest ≤ g.now.sheet.now.longest) × Classes (opens (sheet_of g.now.sheet.now.bytes.now)) walk.now.slots.now.of }
    ensures { Tells g.now.sheet.now.longest (under budget («walk_of» (has_letter walk.now.letters.of) (opens (sheet_of g.now.sheet.now.bytes.now)) shortest g.now.sheet.now.longest)) result }
{
    let mut counts: walk::Counts = [[None; 8]; 60];
    let mut n = shortest;
    let mut q = State::start();
    while q.trials < budget {
        let p = q.prefix;
        let ok = judge::opens(g, &p.bytes[..p.len], n, work);
        if ok && p.len == n {
            return Sought::Found(p, q.trials + 1);
        }
        let Some(next) = walk.advance(budget, n, ok, q, &mut counts) else {
            return Sought::Spent(budget);
        };
        q = next;
        if q.prefix.len == 0 {
            if n == g.sheet.longest {
                return Sought::None(q.trials);
            }
            n += 1;
            q = q.again();
        }
    }
    Sought::Spent(budget)
}
