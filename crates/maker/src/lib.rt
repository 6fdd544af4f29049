#![tactic(auto)]

// The maker of cut lists.
ghost use Rattle.std.specs.Prelude.{◌+◌, ◌*◌, ◌≤◌, ◌<◌, length};
ghost use Rattle.paper.specs.Tests.{gather};
ghost use Rattle.paper.specs.Refusals.{Accepted};
ghost use Rattle.paper.specs.Promises.{Makes};
ghost use Rattle.numbers.specs.Put.{Put};
ghost use Rattle.sheet.specs.Told.{made};
ghost use Rattle.maker.specs.Trailer.{offset_bytes, ending_bytes, trailer_bytes};

use maker_options::{LENGTHS, Plan, WORDS};
use sheet::{Fault, Sheet};

// The groups' offsets at o.
fn put_offsets(list: &mut [u8], o: usize, plan: &Plan, offsets: &[usize; LENGTHS]) -> usize
    requires { o + (4 * plan.now.n + 4) ≤ length list.old }
    ensures { Put (gather 0 (plan.now.n + 1) (offset_bytes offsets.now)) o list.old list.new result }
{
    let mut p = o;
    for x in &offsets[..=plan.n] {
        p = numbers::put_u32(list, p, *x);
    }
    p
}

// The trailer's last 16 bytes at o.
fn put_ending(list: &mut [u8], o: usize, plan: &Plan, total: usize) -> usize
    requires { o + 16 ≤ length list.old }
    ensures { Put (ending_bytes plan.now.root plan.now.sheet.now.rows.count plan.now.n total) o list.old list.new result }
{
    let p = numbers::put_u16(list, o, plan.root);
    let p = numbers::put_u16(list, p, plan.sheet.rows.count);
    let p = numbers::put_bytes(list, p, &[plan.n as u8, 0, 0, 0]);
    let p = numbers::put_u32(list, p, total);
    numbers::put_bytes(list, p, b"CUT1")
}

// The trailer at o.
fn put_trailer(list: &mut [u8], o: usize, plan: &Plan, offsets: &[usize; LENGTHS]) -> usize
    requires { o + (4 * plan.now.n + 20) ≤ length list.old }
    ensures { Put (trailer_bytes offsets.now plan.now.root plan.now.sheet.now.rows.count plan.now.n (o + (4 * plan.now.n + 20))) o list.old list.new result }
{
    let p = put_offsets(list, o, plan, offsets);
    put_ending(list, p, plan, o + (4 * plan.n + 20))
}

// The list of a plan, where the space suffices.
fn fill(plan: &Plan, list: &mut [u8]) -> Result<usize, Fault>
    requires { Accepted plan.now.sheet.now.bytes.now }
    ensures { Makes made plan.now.sheet.now.bytes.now plan.now.root plan.now.n list.old result list.new }
{
    let (offsets, end) = plan.measure();
    let total = end + (4 * plan.n + 20);
    if list.len() < total {
        return Err(Fault::List);
    }
    let p = maker_groups::put_groups(list, plan);
    put_trailer(list, p, plan, &offsets);
    Ok(total)
}

// The list of an accepted sheet's row for a length of at most 60. The plan is made here, for a call pays for the size of its own values
// even where it refuses.
fn planned(sheet: &Sheet, root: usize, n: usize, list: &mut [u8]) -> Result<usize, Fault>
    requires { Accepted sheet.now.bytes.now × (root < sheet.now.rows.count) × (n ≤ 60) }
    ensures { Makes made sheet.now.bytes.now root n list.old result list.new }
{
    let mut table = [0; WORDS];
    fill(&Plan::of(sheet, root, n, &mut table), list)
}

// The cut list of a sheet's row for the length n, at the start of the space lent.
pub fn make(s: &[u8], row: u64, n: u64, list: &mut [u8]) -> Result<usize, Fault>
    ensures { Makes made s.now row n list.old result list.new }
{
    sheet::check(s)?;
    let sheet = Sheet::of(s);
    if row >= sheet.rows.count as u64 {
        return Err(Fault::Row);
    }
    if n > 60 {
        return Err(Fault::Length);
    }
    planned(&sheet, row as usize, n as usize, list)
}
