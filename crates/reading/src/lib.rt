#![tactic(auto)]

// The reading: a bit of the workspace for each row and each part of the word that it accepts, the shorter lengths first.
ghost use Rattle.std.specs.Prelude.{◌≡◌, true, ◌+◌, ◌≤◌, ◌<◌, length, replicate};
ghost use Rattle.paper.specs.Decide.{exactly};
ghost use Rattle.paper.specs.Gate.{n_of, rows_of, group_at, head_at, head_end, well_formed, «holds», reading};
ghost use Rattle.paper.specs.Answers.{words};
ghost use Rattle.paper.proofs.Obeys.{Obeys};
ghost use Rattle.list.specs.Read.{Trailed, option_of};
ghost use Rattle.reading.specs.Readable.{Readable};
ghost use Rattle.reading.specs.Marks.{in_table, mark_option, mark_head, mark_group, marked};

use list::fields;
use list::fields::{Opt, Trailer};
use workspace::Workspace;

// A well-formed list, its trailer, its text, and a word of its length.
// `list` has a struct of its own while it looks: that list is not yet known to be well formed, and `well_formed` is asked with
// only the text's length, so a type for both would hold neither the text nor the fact.
#[derive(Clone, Copy)]
struct Reading<'a> {
    list: &'a [u8],
    t: Trailer,
    text: &'a [u8],
    word: &'a [u8],
    ghost formed: { well_formed list.now (length text.now) ≡ true },
    ghost trailed: { Trailed list.now t },
    ghost fit: { length word.now ≡ n_of list.now },
    ghost short: { length word.now ≤ 60 },
}

impl<'a> Reading<'a> {
    // Whether the option holds of the m bytes from place i on. A step looks at the bits of shorter lengths.
    #[tactic(auto, using(crate::proofs::Holding::holdings), unfolding(crate::specs::Marks::in_table))]
    fn holds(&self, work: &Workspace, x: Opt, m: usize, i: usize) -> bool
        requires { Obeys (length self.now.text.now) 256 m (option_of x) × (i + m ≤ length self.now.word.now) }
        ensures { result ≡ «holds» self.now.text.now (exactly self.now.word.now) (in_table work.now) m i (option_of x) }
    {
        match x {
            Opt::Byte(low, high) => (low..=high).contains(&usize::from(self.word[i])),
            Opt::Stretch(a, b) => self.text[a..a + b] == self.word[i..i + b],
            Opt::Split(k, a, b) => {
                workspace::test(work, workspace::span(i, k), a)
                    && workspace::test(work, workspace::span(i + k, m - k), b)
            }
            Opt::Nil => true,
        }
    }

    // An option at each start.
    fn mark_option(&self, work: &mut Workspace, x: Opt, m: usize, r: usize)
        requires { Obeys (length self.now.text.now) 256 m (option_of x) × (m ≤ length self.now.word.now) × (r < 256) }
        ensures { work.new ≡ mark_option self.now.text.now self.now.word.now m r (option_of x) work.old }
    {
        for i in 0..self.word.len() + 1 - m {
            if self.holds(work, x, m, i) {
                workspace::set(work, workspace::span(i, m), r);
            }
        }
    }

    // The options of row r's head at o, and where they end.
    fn mark_head(&self, work: &mut Workspace, m: usize, r: usize, o: usize) -> usize
        requires { (m ≤ n_of self.now.list.now) × (r < rows_of self.now.list.now) × (o ≡ head_at self.now.list.now m r) × (head_end self.now.list.now o ≤ length self.now.list.now) }
        ensures { (result ≡ head_end self.now.list.now o) × (work.new ≡ mark_head self.now.list.now self.now.text.now self.now.word.now m r work.old) }
    {
        let count = numbers::u32_at(self.list, o + 4);
        for j in 0..count {
            let x = fields::option_at(self.list, o + 8 + 8 * j);
            self.mark_option(work, x, m, r);
        }
        o + 8 + 8 * count
    }

    // The heads of group m at o, and where they end.
    fn mark_group(&self, work: &mut Workspace, m: usize, at: usize) -> usize
        requires { (m ≤ n_of self.now.list.now) × (at ≡ group_at self.now.list.now m) }
        ensures { (result ≡ head_at self.now.list.now m self.now.t.rows) × (work.new ≡ mark_group self.now.list.now self.now.text.now self.now.word.now m work.old) }
    {
        let mut o = at;
        for r in 0..self.t.rows {
            o = self.mark_head(work, m, r, o);
        }
        o
    }

    // Every group.
    fn mark_groups(&self, work: &mut Workspace)
        ensures { work.new ≡ marked self.now.list.now self.now.text.now self.now.word.now work.old }
    {
        let mut at = 0;
        for m in 0..=self.word.len() {
            at = self.mark_group(work, m, at);
        }
    }
}

// Whether the root's head accepts the word. The bits start from zero, and none is left.
pub fn read(list: &[u8], text: &[u8], word: &[u8], work: &mut Workspace) -> bool
    requires { Readable list.now text.now word.now }
    ensures { (result ≡ reading list.now text.now word.now) × (work.new ≡ replicate words 0) }
{
    let t = fields::trailer_of(list);
    let reading = Reading {
        list,
        t,
        text,
        word,
    };
    workspace::clear(work);
    reading.mark_groups(work);
    let yes = workspace::test(work, workspace::span(0, word.len()), t.root);
    workspace::clear(work);
    yes
}
