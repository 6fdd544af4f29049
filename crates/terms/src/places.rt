// The places of a term.
ghost use Rattle.std.specs.Prelude.{◌≡◌, ◌≤◌, length};

use sheet::Sheet;
use sheet_contents::Part;

// Up to 60 places, each a byte that is known or none. Memory is fixed, without a heap: so an array, and how many of it are there.
#[derive(Clone, Copy)]
pub struct Places {
    pub of: [Option<u8>; 60],
    pub len: usize,
    pub ghost room: { len ≤ 60 },
    pub ghost long: { length of ≡ 60 },
}

impl Places {
    ghost use Rattle.std.specs.Prelude.{◌+◌, ◌<◌, ◌++◌, take, drop};
    ghost use Rattle.paper.specs.Trailer.{count_of};
    ghost use Rattle.paper.specs.Terms.{full_length};
    ghost use Rattle.paper.specs.Sheet.{text_of};
    ghost use Rattle.paper.proofs.Sound.{SoundPart};
    ghost use Rattle.sheet_contents.specs.Read.{as_part, SmallPart};
    ghost use Rattle.terms.specs.Shown.{placed, Added};

    // The places that are there.
    pub fn places(&self) -> &[Option<u8>]
        ensures { (result.now ≡ placed self.now) × (length result.now ≡ self.now.len) }
    {
        &self.of[..self.len]
    }

    // More places, behind those that are there.
    fn add(&mut self, more: &[Option<u8>])
        requires { self.old.len + length more.now ≤ 60 }
        ensures { placed self.new ≡ placed self.old ++ more.now }
    {
        let e = self.len + more.len();
        self.of[self.len..e].copy_from_slice(more);
        self.len = e;
    }

    // The places of v from place a on, up to its end and at most b of them, behind those that are there.
    fn add_cut(&mut self, v: &Places, a: usize, b: usize)
        requires { (self.old.len + b ≤ 60) × (a < 65536) }
        ensures { placed self.new ≡ placed self.old ++ take b (drop a (placed v.now)) }
    {
        let e = v.len.min(a + b);
        if a < e {
            self.add(&v.of[a..e]);
        }
    }

    // One part, behind the places that are there.
    pub(crate) fn add_part(&mut self, sheet: &Sheet, part: Part, v: &Places)
        requires { SoundPart (count_of sheet.now.bytes.now 1) (as_part part) × SmallPart (as_part part) × (self.old.len + full_length v.now.len (as_part part) ≤ 60) }
        ensures { Added (text_of sheet.now.bytes.now) self.old v.now (as_part part) self.new }
    {
        match part {
            Part::Const(a, b) => self.add(crate::constant(sheet, a, b).places()),
            Part::All => self.add(v.places()),
            Part::Cut(a, b) => self.add_cut(v, a, b),
        }
    }
}
