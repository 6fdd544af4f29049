// A sheet's trailer: its fields by name and its rules, and the faults 14, 141 and 15.
ghost use Rattle.sheet_trailer.specs.Placed.{Trailed};

use crate::{SIZE, Table, edition, trailer_size};

// The least and the greatest count, by table.
const COUNTS: [(usize, usize); 5] = [(1, 8), (0, 1024), (0, 256), (0, 64), (0, 32)];

// The trailer of a sheet that has room for it.
#[derive(Clone, Copy)]
pub struct Trailer<'a> {
    pub sheet: &'a [u8],
    pub ghost trailed: { Trailed sheet.now },
}

impl<'a> Trailer<'a> {
    ghost use Rattle.std.specs.Prelude.{◌≡◌, ◌<◌};
    ghost use Rattle.paper.specs.Trailer.{base, field, shortest, longest, count_of, new_byte, rules_of, lengths_ok, rules_ok, count_ok, offsets_ok};
    ghost use Rattle.paper.specs.Rules as paper;
    ghost use Rattle.sheet_trailer.specs.FirstBad.{FirstBad};
    ghost use Rattle.sheet_trailer.specs.Tables.{TableOf};

    // Where the trailer begins.
    #[tactic(auto, unfolding(paper::specs::Trailer::base))]
    pub fn base(&self) -> usize
        ensures { result ≡ «base» self.now.sheet.now }
    {
        self.sheet.len() - trailer_size(edition(self.sheet))
    }

    // The field of two bytes with the number k.
    #[tactic(auto, unfolding(paper::specs::Trailer::field, paper::specs::Trailer::base))]
    fn field(&self, k: usize) -> usize
        requires { k < 12 }
        ensures { (result ≡ «field» self.now.sheet.now k) × (result < 65536) }
    {
        numbers::u16_at(self.sheet, self.base() + 2 * k)
    }

    pub fn shortest(&self) -> usize
        ensures { (result ≡ «shortest» self.now.sheet.now) × (result < 65536) }
    {
        self.field(0)
    }

    pub fn longest(&self) -> usize
        ensures { (result ≡ «longest» self.now.sheet.now) × (result < 65536) }
    {
        self.field(1)
    }

    // How many records table t has: 0 letters, 1 text, 2 rows, 3 parts, 4 assertions. Numbers, since 14 and 16 name a table by its number.
    pub fn count_of(&self, t: usize) -> usize
        requires { t < 5 }
        ensures { (result ≡ count_of self.now.sheet.now t) × (result < 65536) }
    {
        self.field(3 + 2 * t)
    }

    pub fn table_of(&self, t: usize) -> Table
        requires { t < 5 }
        ensures { TableOf self.now.sheet.now t result × (result.at < 65536) × (result.count < 65536) }
    {
        let at = self.field(2 + 2 * t);
        let count = self.count_of(t);
        Table { at, count }
    }

    // Byte k of the four behind the table fields; 0 in the edition that has none.
    #[tactic(auto, unfolding(paper::specs::Trailer::new_byte, paper::specs::Trailer::base))]
    fn new_byte(&self, k: usize) -> u8
        requires { k < 4 }
        ensures { result ≡ new_byte self.now.sheet.now k }
    {
        if edition(self.sheet) < 2 {
            return 0;
        }
        self.sheet[self.base() + 24 + k]
    }

    // A cut off the end of v is shortened.
    #[tactic(auto, unfolding(paper::specs::Trailer::rules_of))]
    pub fn shortens(&self) -> bool
        ensures { result ≡ paper.shortens (rules_of self.now.sheet.now) }
    {
        self.new_byte(0) == 1
    }

    // Every rule is 0.
    #[tactic(auto, unfolding(paper::specs::Rules::no_rule, paper::specs::Trailer::rules_of))]
    pub fn no_rule(&self) -> bool
        ensures { result ≡ paper.no_rule (rules_of self.now.sheet.now) }
    {
        self.new_byte(0) == 0 && self.new_byte(1) == 0
    }

    #[tactic(auto, unfolding(paper::specs::Trailer::rules_ok))]
    pub fn rules_ok(&self) -> bool
        ensures { result ≡ rules_ok self.now.sheet.now }
    {
        self.new_byte(0) <= 1
            && self.new_byte(1) == 0
            && self.new_byte(2) == 0
            && self.new_byte(3) == 0
    }

    #[tactic(auto, unfolding(paper::specs::Trailer::lengths_ok))]
    pub fn lengths_ok(&self) -> bool
        ensures { result ≡ lengths_ok self.now.sheet.now }
    {
        let low = self.shortest();
        let high = self.longest();
        low <= high && high <= 60
    }

    #[tactic(auto, unfolding(paper::specs::Trailer::count_ok))]
    fn count_ok(&self, t: usize) -> bool
        requires { t < 5 }
        ensures { result ≡ count_ok self.now.sheet.now t }
    {
        let (least, most) = COUNTS[t];
        let n = self.count_of(t);
        (least..=most).contains(&n)
    }

    // The first table whose count is outside its limits.
    pub fn bad_count(&self) -> Option<usize>
        ensures { FirstBad (count_ok self.now.sheet.now) 5 result }
    {
        (0..5).find(|t| !self.count_ok(*t))
    }

    // The tables lie end to end from 0 up to the trailer.
    #[tactic(auto, using(crate::proofs::Search::fails_none, crate::proofs::Tables::table_most), unfolding(paper::specs::Trailer::offsets_ok, paper::specs::Trailer::offset_ok, paper::specs::Trailer::start_of))]
    pub fn offsets_ok(&self) -> bool
        ensures { result ≡ offsets_ok self.now.sheet.now }
    {
        let mut at: usize = 0;
        for t in 0..5 {
            let x = self.table_of(t);
            if x.at != at {
                return false;
            }
            at += SIZE[t] * x.count;
        }
        at == self.base()
    }
}
