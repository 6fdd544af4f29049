#![tactic(auto)]

// A cut list: the readers of its numbers, and when it is well formed. Positions run along, so that the work is in proportion to the list's length.
pub mod fields;

ghost use Rattle.std.specs.Prelude.{◌≡◌, true, false, ◌&&◌, MatchOption, suc, ◌+◌, ◌*◌, ◌≤◌, ◌<◌, length, eqb, leb, ltb};
ghost use Rattle.paper.specs.Tests.{all_below};
ghost use Rattle.paper.specs.Gate.{n_of, rows_of, trailer_of, group_at, head_at, head_end, option_fields, option_ok, entry_ok, group_ok, group_begin, well_formed};
ghost use Rattle.paper.specs.Promises.{Admits};
ghost use Rattle.std.specs.Bool.{then_some};
ghost use Rattle.list.specs.Read.{Trailed, option_from};

use crate::fields::{Fields, Opt, Trailer, fields_at, trailer_of, trailer_ok};

// A list whose trailer is right, and how many bytes its text has.
#[derive(Clone, Copy)]
struct CutList<'a> {
    bytes: &'a [u8],
    t: Trailer,
    text: usize,
    ghost trailed: { Trailed bytes.now t },
}

impl<'a> CutList<'a> {
    // What an option's kind asks of its fields: 1 only at m = 1 with a ≤ b ≤ 255; 2 only with b = m ≥ 1, inside the text lent;
    // 3 with 0 < k < m and both rows below the row count; 4 only at m = 0; unused fields zero.
    #[tactic(auto, unfolding(paper::specs::Gate::option_fields))]
    fn option_fields(&self, m: usize, f: Fields) -> bool
        requires { (f.a < 65536) × (f.b < 65536) }
        ensures { result ≡ option_fields self.now.text self.now.t.rows m f.kind f.k f.a f.b }
    {
        match f.option() {
            Some(Opt::Byte(low, high)) => m == 1 && f.k == 0 && low <= high && high <= 255,
            Some(Opt::Stretch(from, len)) => len == m
                && 1 <= m
                && f.k == 0
                && from + len <= self.text,
            Some(Opt::Split(k, a, b)) => 0 < k && k < m && a < self.t.rows && b < self.t.rows,
            Some(Opt::Nil) => m == 0 && f.k == 0 && f.a == 0 && f.b == 0,
            None => false,
        }
    }

    #[tactic(auto, unfolding(paper::specs::Gate::option_ok))]
    fn option_ok(&self, m: usize, o: usize) -> bool
        requires { o + 8 ≤ length self.now.bytes.now }
        ensures { result ≡ option_ok self.now.bytes.now self.now.text m o }
    {
        numbers::u16_at(self.bytes, o + 6) == 0 && self.option_fields(m, fields_at(self.bytes, o))
    }

    // The options from o on.
    fn options_ok(&self, m: usize, o: usize, count: usize) -> bool
        requires { o + 8 * count ≤ length self.now.bytes.now }
        ensures { result ≡ all_below count (option_from self.now.bytes.now self.now.text m o) }
    {
        (0..count).all(|j| self.option_ok(m, o + 8 * j))
    }

    // Row r's head at o, and its options: where they end, if they obey. The end is looked at before the options are.
    fn entry(&self, m: usize, r: usize, o: usize) -> Option<usize>
        requires { (o ≡ head_at self.now.bytes.now m r) × (o ≤ self.now.t.base) }
        ensures { result ≡ then_some (entry_ok self.now.bytes.now self.now.text m r) (head_end self.now.bytes.now o) }
    {
        if o + 8 > self.t.base {
            return None;
        }
        let count = numbers::u32_at(self.bytes, o + 4);
        let end = o + 8 + 8 * count;
        let ok = end <= self.t.base
            && numbers::u16_at(self.bytes, o) == r
            && usize::from(self.bytes[o + 2]) == m
            && self.bytes[o + 3] == 0
            && self.options_ok(m, o + 8, count);
        ok.then_some(end)
    }

    // Group m, which is to begin at `at`, a head for each row: where it ends, if it obeys.
    fn group(&self, m: usize, at: usize) -> Option<usize>
        requires { (m ≤ self.now.t.n) × (at ≡ group_begin self.now.bytes.now m) × (at ≤ self.now.t.base) }
        ensures { result ≡ then_some (group_ok self.now.bytes.now self.now.text m) (group_begin self.now.bytes.now (m + 1)) }
    {
        if numbers::u32_at(self.bytes, self.t.base + 4 * m) != at {
            return None;
        }
        let mut o = at;
        for r in 0..self.t.rows {
            o = self.entry(m, r, o)?;
        }
        Some(o)
    }

    // Where the groups end, if they meet from 0 on and each obeys.
    fn groups(&self) -> Option<usize>
        ensures { result ≡ then_some (all_below (suc (n_of self.now.bytes.now)) (group_ok self.now.bytes.now self.now.text)) (group_begin self.now.bytes.now (suc (n_of self.now.bytes.now))) }
    {
        let mut at = 0;
        for m in 0..=self.t.n {
            at = self.group(m, at)?;
        }
        Some(at)
    }
}

// The trailer of the list, if it is well formed with a text of so many bytes.
#[tactic(auto, unfolding(paper::specs::Gate::well_formed))]
pub fn formed_trailer(list: &[u8], text: usize) -> Option<Trailer>
    ensures { MatchOption result (well_formed list.now text ≡ false) (λ t. (well_formed list.now text ≡ true) × Trailed list.now t) }
{
    if list.len() < 20 || !trailer_ok(list) {
        return None;
    }
    let t = trailer_of(list);
    let cut = CutList {
        bytes: list,
        t,
        text,
    };
    (cut.groups()? == t.base).then_some(t)
}

// Whether the list is well formed, with a text of so many bytes.
pub fn well_formed(list: &[u8], text: usize) -> bool
    ensures { Admits list.now text result }
{
    formed_trailer(list, text).is_some()
}
