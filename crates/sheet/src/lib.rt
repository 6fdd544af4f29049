#![tactic(auto)]

// A sheet's first fault, and an accepted sheet with its readers.
mod accepted;

ghost use Rattle.std.specs.Prelude.{◌≡◌, ◌<◌};
ghost use Rattle.paper.specs.Refusals.{content_refusal, table_refusal, refusal};
ghost use Rattle.paper.specs.Promises.{Checks};
ghost use Rattle.sheet.specs.Told.{worded, told, taken};

pub use accepted::Sheet;
use sheet_records::Tables;
use sheet_trailer::Trailer;

// As 16 counts the tables: the new bytes of the trailer stand behind the assertions.
const ASSERTIONS: u32 = 4;

const NEW_BYTES: u32 = 5;

// Why a call refuses: a fault of the sheet, with the table and the record at fault, or of what else was given.
#[derive(Clone, Copy, PartialEq, Eq, Debug)]
pub enum Fault {
    Short,
    Long,
    Mark,
    Total,
    // a table's
    Count(u32),
    Lengths,
    Offsets,
    // a table's record
    Record(u32, u32),
    // an assertion's
    Term(u32),
    Workspace,
    Output,
    Row,
    Length,
    List,
    Rule,
    Space,
}

impl Fault {
    // The paper's number.
    pub fn number(self) -> u32
        ensures { result ≡ (worded self).number }
    {
        match self {
            Fault::Short => 10,
            Fault::Long => 11,
            Fault::Mark => 12,
            Fault::Total => 13,
            Fault::Count(_) => 14,
            Fault::Lengths => 141,
            Fault::Offsets => 15,
            Fault::Record(_, _) => 16,
            Fault::Term(_) => 17,
            Fault::Workspace => 18,
            Fault::Output => 19,
            Fault::Row => 20,
            Fault::Length => 21,
            Fault::List => 22,
            Fault::Rule => 40,
            Fault::Space => 41,
        }
    }

    // The table at fault: 0 where the number names none.
    pub fn table(self) -> u32
        ensures { result ≡ (worded self).table }
    {
        match self {
            Fault::Count(table) | Fault::Record(table, _) => table,
            Fault::Term(_) => ASSERTIONS,
            _ => 0,
        }
    }

    // The record at fault: 0 where the number names none.
    pub fn record(self) -> u32
        ensures { result ≡ (worded self).«record» }
    {
        match self {
            Fault::Record(_, record) | Fault::Term(record) => record,
            _ => 0,
        }
    }
}

// 16 and 17, of a sheet whose tables lie right. As the paper names them: the table first, then the record in it.
#[tactic(auto, unfolding(paper::specs::Refusals::content_refusal, crate::specs::Told::told, crate::specs::Told::fault_of))]
fn check_content(tables: &Tables) -> Result<(), Fault>
    ensures { result ≡ told (content_refusal tables.now.trailer.sheet.now) }
{
    if !tables.trailer.rules_ok() {
        return Err(Fault::Record(NEW_BYTES, 0));
    }
    if let Some(t) = tables.bad_table() {
        let i = tables.bad_record(t).unwrap();
        return Err(Fault::Record(t as u32, i as u32));
    }
    if let Some(i) = tables.bad_term() {
        return Err(Fault::Term(i as u32));
    }
    Ok(())
}

// 14 to 17, of a sheet with its mark and its total.
#[tactic(auto, unfolding(paper::specs::Refusals::table_refusal, crate::specs::Told::told, crate::specs::Told::fault_of))]
fn check_tables(trailer: &Trailer) -> Result<(), Fault>
    ensures { result ≡ told (table_refusal trailer.now.sheet.now) }
{
    if let Some(t) = trailer.bad_count() {
        return Err(Fault::Count(t as u32));
    }
    if !trailer.lengths_ok() {
        return Err(Fault::Lengths);
    }
    if !trailer.offsets_ok() {
        return Err(Fault::Offsets);
    }
    check_content(&Tables { trailer: *trailer })
}

// What a call takes: the editions from `first` to `last`, and at most so many bytes.
#[derive(Clone, Copy)]
pub struct Takes {
    pub first: usize,
    pub last: usize,
    pub bytes: usize,
}

// The first fault of any bytes, for a call that takes so much.
#[tactic(auto, unfolding(paper::specs::Refusals::refusal, paper::specs::Trailer::total_ok, crate::specs::Told::told, crate::specs::Told::fault_of))]
pub fn first_fault(s: &[u8], takes: Takes) -> Result<(), Fault>
    requires { takes.last < 10 }
    ensures { result ≡ told (refusal (taken takes) s.now) }
{
    if s.len() < 32 {
        return Err(Fault::Short);
    }
    if s.len() > takes.bytes {
        return Err(Fault::Long);
    }
    if !sheet_trailer::mark_ok(s, takes.first, takes.last) {
        return Err(Fault::Mark);
    }
    if !sheet_trailer::total_ok(s) {
        return Err(Fault::Total);
    }
    check_tables(&Trailer { sheet: s })
}

// The longest sheet that the calls take, in bytes.
pub const MOST: usize = 3380;

// What the calls take: both editions.
pub const LATEST: Takes = Takes {
    first: 1,
    last: 2,
    bytes: MOST,
};

// The first fault of any bytes.
pub fn check(s: &[u8]) -> Result<(), Fault>
    ensures { Checks told s.now result }
{
    first_fault(s, LATEST)
}
