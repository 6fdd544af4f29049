#![tactic(auto)]

// The checking program: a sheet on standard input, its answer in one line on standard output.
ghost use Rattle.std.specs.Prelude.{◌≤◌, IfOk, length};

use sheet::Fault;
use solver::Solved;
use std::io::Read;
use std::{fmt, io};

// The budget of a check.
const BUDGET: u64 = 1000000;

// A word in hex, `-` where it is empty.
#[derive(Drop)]
struct Hex<'a>(&'a [u8]);

impl fmt::Display for Hex<'_> {
    fn fmt<W: fmt::Write>(&self, f: &mut fmt::Formatter<W>) -> fmt::Result {
        if self.0.is_empty() {
            return write!(f, "-");
        }
        for byte in self.0 {
            write!(f, "{byte:02x}")?;
        }
        Ok(())
    }
}

// The number of a refusal; table and record behind it where the number names them.
#[derive(Drop)]
struct Named(Fault);

impl fmt::Display for Named {
    fn fmt<W: fmt::Write>(&self, f: &mut fmt::Formatter<W>) -> fmt::Result {
        let fault = self.0;
        write!(f, "{}", fault.number())?;
        match fault {
            Fault::Count(_) | Fault::Record(_, _) | Fault::Term(_) => {
                write!(f, " {} {}", fault.table(), fault.record())
            }
            _ => Ok(()),
        }
    }
}

// A longer input than a sheet may have is lent whole or cut at 4,096 bytes: the solver refuses either by 11.
fn answer(rt: &impl Print, sheet: &[u8]) -> io::Result<()> {
    let mut work = [0u64; paper::WORDS];
    let mut out = [0u8; 60];
    match solver::solve(sheet, BUDGET, &mut work, &mut out) {
        Ok(Solved::Found(length, trials)) => {
            println!(rt; "found {length} {trials} {}", Hex(&out[..length]))
        }
        Ok(Solved::None(trials)) => println!(rt; "none {trials}"),
        Ok(Solved::Spent(trials)) => println!(rt; "spent {trials}"),
        Err(fault) => println!(rt; "refused {}", Named(fault)),
    }
}

// Reads until the room is full or the input ends: how many bytes there are. (`read_to_end` would want a heap.)
fn read_full(input: &mut impl Read, room: &mut [u8]) -> io::Result<usize>
    ensures { IfOk result (λ n. n ≤ length room.new) }
{
    let mut n = 0;
    while n < room.len() {
        let more = input.read(&mut room[n..])?;
        if more == 0 {
            break;
        }
        n += more;
    }
    Ok(n)
}

fn main(rt: HostRuntime) -> io::Result<()> {
    let mut buf = [0u8; 4096];
    let n = read_full(&mut rt.reader(), &mut buf)?;
    answer(&rt, &buf[..n])
}
