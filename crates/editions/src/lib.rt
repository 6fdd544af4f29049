#![tactic(auto)]

// Sheets moved between editions.
ghost use Rattle.std.specs.Prelude.{◌≡◌, ◌+◌, ◌≤◌, length};
ghost use Rattle.paper.specs.Answers.{written};
ghost use Rattle.paper.specs.Editions.{ToSecond, ToFirst, from, to, zeros, in_edition};
ghost use Rattle.paper.specs.Promises.{Moves};
ghost use Rattle.numbers.specs.Put.{Put};
ghost use Rattle.sheet.specs.Told.{made};
ghost use Rattle.editions.specs.Puts.{ending, moving, Puts};

use sheet::{Fault, Sheet, Takes};
use sheet_trailer::{mark, trailer_size};

// The new bytes of edition e at o, all zero: the first edition has none.
#[tactic(auto, using(numbers::proofs::Stores::put_none), unfolding(paper::specs::Bytes::u32, paper::specs::Bytes::u16))]
fn put_zeros(out: &mut [u8], o: usize, e: usize) -> usize
    requires { o + 4 ≤ length out.old }
    ensures { Put (zeros e) o out.old out.new result }
{
    if e < 2 {
        return o;
    }
    numbers::put_u32(out, o, 0)
}

// Total and mark of edition e at o.
fn put_ending(out: &mut [u8], o: usize, total: usize, e: usize) -> usize
    requires { (e ≤ 2) × (o + 8 ≤ length out.old) }
    ensures { Put (ending total e) o out.old out.new result }
{
    let t = numbers::put_u32(out, o, total);
    numbers::put_bytes(out, t, &mark(e))
}

// The sheet in edition e at the start of the space.
#[tactic(auto, using(crate::proofs::Moved::moved_length, crate::proofs::Moved::zeros_length), unfolding(paper::specs::Trailer::base))]
fn put_sheet(sheet: &Sheet, e: usize, out: &mut [u8])
    requires { (1 ≤ e) × (e ≤ 2) × (length (in_edition e sheet.now.bytes.now) ≤ length out.old) }
    ensures { out.new ≡ written (in_edition e sheet.now.bytes.now) out.old }
{
    let at = sheet.trailer().base();
    let p = numbers::put_bytes(out, 0, &sheet.bytes[..at + 24]);
    let z = put_zeros(out, p, e);
    put_ending(out, z, at + trailer_size(e), e);
}

// The sheet in edition e and its length, where there is room.
#[tactic(auto, using(crate::proofs::Answers::puts_refused, crate::proofs::Answers::puts_written, crate::proofs::Moved::moved_length), unfolding(paper::specs::Trailer::base))]
fn put(sheet: &Sheet, e: usize, out: &mut [u8]) -> Result<usize, Fault>
    requires { (1 ≤ e) × (e ≤ 2) }
    ensures { Puts e sheet.now.bytes.now out.old result out.new }
{
    let total = sheet.trailer().base() + trailer_size(e);
    if out.len() < total {
        return Err(Fault::Space);
    }
    put_sheet(sheet, e, out);
    Ok(total)
}

// A sheet of the edition `given`, with no rule, in the edition `wanted`, at the start of the space lent.
fn to_edition(sheet: &[u8], given: usize, wanted: usize, out: &mut [u8]) -> Result<usize, Fault>
    requires { (given ≡ from (moving wanted)) × (wanted ≡ to (moving wanted)) }
    ensures { Moves made (moving wanted) sheet.now out.old result out.new }
{
    let takes = Takes {
        first: given,
        last: given,
        bytes: sheet::MOST,
    };
    let accepted = Sheet::read(sheet, takes)?;
    if !accepted.trailer().no_rule() {
        return Err(Fault::Rule);
    }
    put(&accepted, wanted, out)
}

// A `PRM1` sheet as a `PRM2` sheet, all four new bytes zero, at the start of the space lent.
pub fn to_second(sheet: &[u8], out: &mut [u8]) -> Result<usize, Fault>
    ensures { Moves made ToSecond sheet.now out.old result out.new }
{
    to_edition(sheet, 1, 2, out)
}

// A `PRM2` sheet whose rules are zero as a `PRM1` sheet, at the start of the space lent.
pub fn to_first(sheet: &[u8], out: &mut [u8]) -> Result<usize, Fault>
    ensures { Moves made ToFirst sheet.now out.old result out.new }
{
    to_edition(sheet, 2, 1, out)
}
