// A sheet's tables, and the faults 16 and 17.
ghost use Rattle.sheet_trailer.specs.Placed.{Laid};

use crate::rules::record_ok;
use crate::terms::term_len;
use sheet_contents::{Run, second_run};
use sheet_trailer::{SIZE, Table, Trailer};

// The tables of a sheet without the faults 13 to 15.
#[derive(Clone, Copy)]
pub struct Tables<'a> {
    pub trailer: Trailer<'a>,
    pub ghost laid: { Laid trailer.sheet.now },
}

impl<'a> Tables<'a> {
    ghost use Rattle.std.specs.Prelude.{◌≡◌, true, ◌+◌, ◌≤◌, ◌<◌, length};
    ghost use Rattle.paper.specs.Trailer.{count_of, record_at};
    ghost use Rattle.paper.specs.Records.{record_ok, table_ok, bad_table, term_fits, assert_fits};
    ghost use Rattle.sheet_trailer.specs.FirstBad.{FirstBad};
    ghost use Rattle.sheet_contents.specs.Read.{as_run};

    // The first bad record of table t.
    pub fn bad_record(&self, t: usize) -> Option<usize>
        requires { t < 5 }
        ensures { FirstBad (λ i. record_ok self.now.trailer.sheet.now t (record_at self.now.trailer.sheet.now t i)) (count_of self.now.trailer.sheet.now t) result }
    {
        let Table { at, count } = self.trailer.table_of(t);
        let size = SIZE[t];
        (0..count).find(|i| !record_ok(&self.trailer, t, at + size * *i))
    }

    // No record of table t is bad.
    fn table_ok(&self, t: usize) -> bool
        requires { t < 5 }
        ensures { result ≡ table_ok self.now.trailer.sheet.now t }
    {
        self.bad_record(t).is_none()
    }

    // The first table with a bad record.
    pub fn bad_table(&self) -> Option<usize>
        ensures { FirstBad (table_ok self.now.trailer.sheet.now) 5 result }
    {
        (0..5).find(|t| !self.table_ok(*t))
    }

    // The term of a run of parts has at most 60 bytes.
    fn term_fits(&self, r: Run) -> bool
        requires { r.first + r.count ≤ count_of self.now.trailer.sheet.now 3 }
        ensures { result ≡ term_fits self.now.trailer.sheet.now (as_run r) }
    {
        let at = self.trailer.table_of(3).at;
        term_len(&self.trailer, at + 6 * r.first, r.count) <= 60
    }

    // The terms of the assertion at o, which keeps its rule.
    #[tactic(auto, unfolding(paper::specs::Records::assert_fits))]
    fn assert_fits(&self, o: usize) -> bool
        requires { (o + 12 ≤ length self.now.trailer.sheet.now) × (record_ok self.now.trailer.sheet.now 4 o ≡ true) }
        ensures { result ≡ assert_fits self.now.trailer.sheet.now o }
    {
        let a = sheet_contents::assertion_at(self.trailer.sheet, o);
        self.term_fits(a.term) && self.term_fits(second_run(a.claim))
    }

    // The first assertion with an overlong term.
    pub fn bad_term(&self) -> Option<usize>
        requires { bad_table self.now.trailer.sheet.now ≡ 5 }
        ensures { FirstBad (λ i. assert_fits self.now.trailer.sheet.now (record_at self.now.trailer.sheet.now 4 i)) (count_of self.now.trailer.sheet.now 4) result }
    {
        let Table { at, count } = self.trailer.table_of(4);
        (0..count).find(|i| !self.assert_fits(at + 12 * *i))
    }
}
