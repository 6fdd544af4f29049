#![tactic(auto)]

// The solver: any sheet, any budget, any buffers.
ghost use Rattle.std.specs.Prelude.{◌≡◌, ◌≤◌, length, take, replicate, Ok};
ghost use Rattle.paper.specs.Sheet.{sheet_of};
ghost use Rattle.paper.specs.Answers.{words, written, out_after, under, walk_of};
ghost use Rattle.paper.specs.Promises.{Solves};
ghost use Rattle.search.specs.Tells.{Tells};
ghost use Rattle.solver.specs.Reported.{solved};

use groundwork::Groundwork;
use search::Sought;
use sheet::{Fault, Sheet};
use walk::Walk;
use walk_state::Prefix;
use workspace::Workspace;

// 0 with the word's length and its trials, 1 with the full count, 2 with the budget. The word itself is in the output: `Sought` has it by value.
#[derive(Clone, Copy)]
pub enum Solved {
    Found(usize, u64),
    None(u64),
    Spent(u64),
}

// The word at the start of the output.
fn put_word(p: Prefix, out: &mut [u8])
    requires { (p.len ≤ 60) × (p.len ≤ length out.old) }
    ensures { out.new ≡ written (take p.len p.bytes) out.old }
{
    out[..p.len].copy_from_slice(&p.bytes[..p.len]);
}

// The sheet's walk under the budget, letters that nothing tells apart passed over.
fn searched(sheet: &Sheet, budget: u64, work: &mut Workspace) -> Sought
    ensures { Tells sheet.now.longest (under budget (walk_of (sheet_of sheet.now.bytes.now))) result }
{
    let letters = search::letters::letters_of(sheet);
    let mut reach = [0; 1024];
    let g = Groundwork::of(sheet, &letters.of, &mut reach);
    let slots = alike::slots_of(sheet);
    let walk = Walk {
        letters,
        slots: &slots,
    };
    search::seek(&g, &walk, sheet.shortest, budget, work)
}

// The answer of an accepted sheet, lent enough.
fn answer(sheet: &Sheet, budget: u64, work: &mut Workspace, out: &mut [u8]) -> Solved
    requires { sheet.now.longest ≤ length out.old }
    ensures said { Ok result ≡ solved (under budget (walk_of (sheet_of sheet.now.bytes.now))) }
    ensures cleared { work.new ≡ replicate words 0 }
    ensures wrote { out.new ≡ out_after (under budget (walk_of (sheet_of sheet.now.bytes.now))) out.old }
{
    let r = searched(sheet, budget, work);
    workspace::clear(work);
    match r {
        Sought::Found(word, trials) => {
            put_word(word, out);
            Solved::Found(word.len, trials)
        }
        Sought::None(trials) => Solved::None(trials),
        Sought::Spent(trials) => Solved::Spent(trials),
    }
}

// What is said of any bytes and any budget, lent any workspace and any output.
pub fn solve(sheet: &[u8], budget: u64, work: &mut [u64], out: &mut [u8]) -> Result<Solved, Fault>
    ensures { Solves solved sheet.now budget work.old out.old result work.new out.new }
{
    sheet::check(sheet)?;
    let accepted = Sheet::of(sheet);
    let Some(work) = work.first_chunk_mut::<{ paper::WORDS }>() else {
        return Err(Fault::Workspace);
    };
    if out.len() < accepted.longest {
        return Err(Fault::Output);
    }
    Ok(answer(&accepted, budget, work, out))
}
