#![tactic(auto)]

// A sheet's edition, its trailer, and the faults 12 to 15.
mod trailer;

ghost use Rattle.std.specs.Prelude.{◌≡◌, ◌+◌, ◌≤◌, ◌<◌, [], ◌∷◌, length};
ghost use Rattle.paper.specs.Trailer.{edition, trailer_size, mark_ok, total_ok};

pub use trailer::Trailer;

// A record's bytes, by table.
pub const SIZE: [usize; 5] = [2, 1, 6, 6, 12];

// Where a table's records begin, and how many there are. Record i begins i times its bytes behind: who reads one knows its bytes.
#[derive(Clone, Copy)]
pub struct Table {
    pub at: usize,
    pub count: usize,
}

// The edition that the mark names: a number, since the trailer's size and the mark are reckoned from it.
#[tactic(auto, unfolding(paper::specs::Trailer::edition))]
fn edition(s: &[u8]) -> usize
    requires { 1 ≤ length s.now }
    ensures { (result ≡ «edition» s.now) × (result < 256) }
{
    usize::from(s[s.len() - 1].saturating_sub(b'0'))
}

// An edition's mark.
pub fn mark(e: usize) -> [u8; 4]
    requires { e < 10 }
    ensures { result ≡ 80 ∷ 82 ∷ 77 ∷ (48 + e) ∷ [] }
{
    [b'P', b'R', b'M', b'0' + e as u8]
}

// The bytes of an edition's trailer.
pub fn trailer_size(e: usize) -> usize
    requires { e < 256 }
    ensures { result ≡ «trailer_size» e }
{
    28 + 4 * e
}

// The mark is that of an edition from `first` to `last`.
#[tactic(auto, unfolding(paper::specs::Trailer::mark_ok))]
pub fn mark_ok(s: &[u8], first: usize, last: usize) -> bool
    requires { (32 ≤ length s.now) × (last < 10) }
    ensures { result ≡ mark_ok first last s.now }
{
    let e = edition(s);
    (first..=last).contains(&e) && numbers::mark_at(s, s.len() - 4, &mark(e))
}

#[tactic(auto, unfolding(paper::specs::Trailer::total_ok))]
pub fn total_ok(s: &[u8]) -> bool
    requires { 32 ≤ length s.now }
    ensures { result ≡ total_ok s.now }
{
    trailer_size(edition(s)) <= s.len() && numbers::u32_at(s, s.len() - 8) == s.len()
}
