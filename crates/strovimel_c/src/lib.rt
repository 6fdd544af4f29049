#![tactic(auto)]

// The calls of the solver, the maker, the gate and the moves between editions as C makes them: a slice is a pointer and a length, an answer a number or a struct by value.
ghost use Rattle.std.specs.Prelude.{◌≡◌, ◌<◌};
ghost use Rattle.paper.specs.Editions.{ToSecond, ToFirst};
ghost use Rattle.paper.specs.Promises.{Solves, Makes, Moves, Gates};
ghost use Rattle.solver.specs.Reported.{reported};
ghost use Rattle.sheet.specs.Told.{reported as writing};
ghost use Rattle.strovimel_c.specs.Structs.{solved_of, solved_report, made_of, made_report};

use sheet::Fault;

// The solver's answer: its number, the table and the record at fault, the word's length, the trials.
#[repr(C)]
#[derive(Drop)]
pub struct Solved {
    pub number: u32,
    pub table: u32,
    pub record: u32,
    pub length: u32,
    pub trials: u64,
}

// The answer of a call that writes: its number, the table and the record at fault, the length written.
#[repr(C)]
#[derive(Drop)]
pub struct Made {
    pub number: u32,
    pub table: u32,
    pub record: u32,
    pub length: u32,
}

// As C is told it; a function, as `from` of `From` has no `requires`, and the length has to fit 32 bits.
fn tell_solved(answer: Result<solver::Solved, Fault>) -> Solved
    requires { (reported answer).length < 4294967296 }
    ensures { solved_report result ≡ reported answer }
{
    match answer {
        Ok(solver::Solved::Found(length, trials)) => Solved {
            number: 0,
            table: 0,
            record: 0,
            length: length as u32,
            trials,
        },
        Ok(solver::Solved::None(trials)) => Solved {
            number: 1,
            table: 0,
            record: 0,
            length: 0,
            trials,
        },
        Ok(solver::Solved::Spent(trials)) => Solved {
            number: 2,
            table: 0,
            record: 0,
            length: 0,
            trials,
        },
        Err(fault) => Solved {
            number: fault.number(),
            table: fault.table(),
            record: fault.record(),
            length: 0,
            trials: 0,
        },
    }
}

// So for a call that writes, for the same reason.
fn tell_made(answer: Result<usize, Fault>) -> Made
    requires { (writing answer).length < 4294967296 }
    ensures { made_report result ≡ writing answer }
{
    match answer {
        Ok(length) => Made {
            number: 0,
            table: 0,
            record: 0,
            length: length as u32,
        },
        Err(fault) => Made {
            number: fault.number(),
            table: fault.table(),
            record: fault.record(),
            length: 0,
        },
    }
}

// What is said of any bytes and any budget, lent any workspace and any output.
#[unsafe(no_mangle)]
pub extern "C" fn strovimel_solve(
    sheet: &[u8],
    budget: u64,
    work: &mut [u64],
    out: &mut [u8],
) -> Solved
    ensures { Solves solved_of sheet.now budget work.old out.old result work.new out.new }
{
    tell_solved(solver::solve(sheet, budget, work, out))
}

// The cut list of a sheet's row for a length, at the start of the space lent.
#[unsafe(no_mangle)]
pub extern "C" fn strovimel_make(sheet: &[u8], row: u64, n: u64, list: &mut [u8]) -> Made
    ensures { Makes made_of sheet.now row n list.old result list.new }
{
    tell_made(maker::make(sheet, row, n, list))
}

// A `PRM1` sheet as a `PRM2` sheet, all four new bytes zero, at the start of the space lent.
#[unsafe(no_mangle)]
pub extern "C" fn strovimel_to_second(sheet: &[u8], out: &mut [u8]) -> Made
    ensures { Moves made_of ToSecond sheet.now out.old result out.new }
{
    tell_made(editions::to_second(sheet, out))
}

// A `PRM2` sheet whose rules are zero as a `PRM1` sheet, at the start of the space lent.
#[unsafe(no_mangle)]
pub extern "C" fn strovimel_to_first(sheet: &[u8], out: &mut [u8]) -> Made
    ensures { Moves made_of ToFirst sheet.now out.old result out.new }
{
    tell_made(editions::to_first(sheet, out))
}

// Whether the list accepts the word, with the text: on any list, text, word and workspace.
#[unsafe(no_mangle)]
pub extern "C" fn strovimel_gate(list: &[u8], text: &[u8], word: &[u8], work: &mut [u64]) -> u32
    ensures { Gates list.now text.now word.now work.old result work.new }
{
    gate::number(gate::gate(list, text, word, work))
}
