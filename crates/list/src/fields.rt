// Readers of a cut list's numbers: its trailer and its options.
ghost use Rattle.std.specs.Prelude.{◌≡◌, true, ◌&&◌, ◌+◌, ◌*◌, ◌-◌, ◌≤◌, ◌<◌, length, leb, ltb};
ghost use Rattle.paper.specs.Trailer.{limit};
ghost use Rattle.paper.specs.Gate.{n_of, rows_of, root_of, trailer_ok, opt_of};
ghost use Rattle.list.specs.Read.{Trailed, Fielded, OptionOf, option_of};

// The trailer of a list: its n, its row count, its root, and where the trailer begins.
#[derive(Clone, Copy)]
pub struct Trailer {
    pub n: usize,
    pub rows: usize,
    pub root: usize,
    pub base: usize,
}

// The mark at the list's end, the trailer's numbers within their limits, and room for it.
#[tactic(auto, unfolding(paper::specs::Gate::trailer_ok))]
pub fn trailer_ok(list: &[u8]) -> bool
    requires { 20 ≤ length list.now }
    ensures { result ≡ trailer_ok list.now }
{
    let len = list.len();
    let n = usize::from(list[len - 12]);
    let rows = numbers::u16_at(list, len - 14);
    numbers::mark_at(list, len - 4, b"CUT1")
        && numbers::u32_at(list, len - 8) == len
        && list[len - 11..len - 8] == [0, 0, 0]
        && n <= 60
        && 4 * n + 20 <= len
        && 1 <= rows
        && rows <= 256
        && numbers::u16_at(list, len - 16) < rows
}

// The trailer, where it is right.
pub fn trailer_of(list: &[u8]) -> Trailer
    requires { (20 ≤ length list.now) × (trailer_ok list.now ≡ true) }
    ensures { Trailed list.now result }
{
    let len = list.len();
    let n = usize::from(list[len - 12]);
    Trailer {
        n,
        rows: numbers::u16_at(list, len - 14),
        root: numbers::u16_at(list, len - 16),
        base: len - (4 * n + 20),
    }
}

// An option's fields but its zero field.
#[derive(Clone, Copy)]
pub struct Fields {
    pub kind: u8,
    pub k: usize,
    pub a: usize,
    pub b: usize,
}

pub fn fields_at(list: &[u8], o: usize) -> Fields
    requires { o + 8 ≤ length list.now }
    ensures { Fielded list.now o result }
{
    Fields {
        kind: list[o],
        k: usize::from(list[o + 1]),
        a: numbers::u16_at(list, o + 2),
        b: numbers::u16_at(list, o + 4),
    }
}

// An option: one byte, a stretch of the text, the first k bytes by one row and the rest by another, or no byte.
// The maker has an enum of the same cases: its crates name nothing of the gate's, and the gate's nothing of the maker's.
#[derive(Clone, Copy)]
pub enum Opt {
    Byte(usize, usize),
    Stretch(usize, usize),
    Split(usize, usize, usize),
    Nil,
}

impl Fields {
    // The option of each kind. Paper 01 names the form: a decision over the record kinds with ranges.
    pub fn option(self) -> Option<Opt>
        ensures { OptionOf self result }
    {
        match self.kind {
            1 => Some(Opt::Byte(self.a, self.b)),
            2 => Some(Opt::Stretch(self.a, self.b)),
            3 => Some(Opt::Split(self.k, self.a, self.b)),
            4 => Some(Opt::Nil),
            0 | 5..=255 => None,
        }
    }
}

// The option at o. One of no kind counts as no byte, as the paper's `opt_of` has it.
#[tactic(auto, unfolding(paper::specs::Gate::opt_of))]
pub fn option_at(list: &[u8], o: usize) -> Opt
    requires { o + 8 ≤ length list.now }
    ensures { option_of result ≡ opt_of list.now o }
{
    fields_at(list, o).option().unwrap_or(Opt::Nil)
}
