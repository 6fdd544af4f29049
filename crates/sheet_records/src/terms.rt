// The lengths of terms, at the longest length.
ghost use Rattle.std.specs.Prelude.{◌≡◌, ◌+◌, ◌*◌, ◌≤◌, ◌<◌, length};
ghost use Rattle.paper.specs.Records.{part_len, term_len};

use sheet_contents::Part;
use sheet_trailer::Trailer;

// The bytes of the part at o.
#[tactic(auto, unfolding(paper::specs::Records::part_len, paper::specs::Terms::full_length))]
fn part_len(trailer: &Trailer, o: usize) -> usize
    requires { o + 6 ≤ length trailer.now.sheet.now }
    ensures { (result ≡ part_len trailer.now.sheet.now o) × (result < 65536) }
{
    match sheet_contents::part_at(trailer.sheet, o) {
        Part::Const(_, count) | Part::Cut(_, count) => count,
        Part::All => trailer.longest(),
    }
}

// The bytes of n parts, the first at o.
#[tactic(auto, unfolding(paper::specs::Records::term_len))]
pub fn term_len(trailer: &Trailer, o: usize, n: usize) -> usize
    requires { (o + 6 * n ≤ length trailer.now.sheet.now) × (n ≤ 64) }
    ensures { result ≡ term_len trailer.now.sheet.now o n }
{
    let mut sum: usize = 0;
    for i in 0..n {
        sum += part_len(trailer, o + 6 * i);
    }
    sum
}
