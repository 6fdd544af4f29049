#![tactic(auto)]

// The lent workspace: a bit for each row (0 to 255) and each span of a term, four words a span.
// The same words and bits serve for a set of rows (four words) and for a set of rows a row (1,024 words).
// A table is a flat slice, no slice of four words each: C lends words, and paper 01 names the form.
ghost use Rattle.std.specs.Prelude.{◌≡◌, ℕ, ◌+◌, ◌*◌, ◌≤◌, ◌<◌, length, slice_index, replicate};
ghost use Rattle.paper.specs.Answers.{words};
ghost use Rattle.workspace.specs.Spans.{span_at};
ghost use Rattle.workspace.specs.Bits.{bit_at, set_bit, put_bit, words_at, four_at, either_of, wiped, copied, joined, none_at};
ghost use Rattle.workspace.specs.Room.{Grows};
ghost use Rattle.workspace.specs.Where.{PutWhere};
ghost use Rattle.workspace.specs.Scan.{in_both, FirstOf};

// The words that a call is lent for its charts: their number is the type's.
pub type Workspace = [u64; paper::WORDS];

// The number of the span of m places from place i on.
pub fn span(i: usize, m: usize) -> usize
    requires { i + m ≤ 60 }
    ensures { (result ≡ span_at i m) × (result < 1891) }
{
    let e = i + m;
    e * (e + 1) / 2 + i
}

// Whether row r is in span s.
#[tactic(auto, using(crate::proofs::Bits::test_is))]
pub fn test(ws: &[u64], s: usize, r: usize) -> bool
    requires { (4 * s + 4 ≤ length ws.now) × (r < 256) }
    ensures { result ≡ bit_at ws.now s r }
{
    (ws[4 * s + r / 64] >> (r % 64)) & 1 == 1
}

// Row r into span s.
#[tactic(auto, using(crate::proofs::Bits::set_is))]
pub fn set(ws: &mut [u64], s: usize, r: usize)
    requires { (4 * s + 4 ≤ length ws.old) × (r < 256) }
    ensures { ws.new ≡ set_bit ws.old s r }
{
    ws[4 * s + r / 64] |= 1 << (r % 64);
}

// Row r into span s, where the test passed.
#[tactic(auto, unfolding(crate::specs::Bits::put_bit))]
pub fn put(ws: &mut [u64], s: usize, r: usize, on: bool)
    requires { (4 * s + 4 ≤ length ws.old) × (r < 256) }
    ensures { ws.new ≡ put_bit on ws.old s r }
{
    if on {
        set(ws, s, r);
    }
}

// The rows below n that pass the test, into span s.
#[tactic(auto, using(crate::proofs::Where::put_where_none, crate::proofs::Where::put_where_more))]
pub fn put_where<F: Fn(usize) -> bool>(ws: &mut [u64], s: usize, n: usize, test: F)
    requires { (4 * s + 4 ≤ length ws.old) × (n ≤ 256) × ((q : ℕ) → q < n → F.pre test q) }
    ensures { PutWhere (F.post test) s n ws.old ws.new }
{
    for q in 0..n {
        put(ws, s, q, test(q));
    }
}

// Whether span s has no row: one test of the four words together, where `==` on the array makes two branches.
#[tactic(auto, unfolding(crate::specs::Bits::none_at))]
pub fn none(ws: &[u64], s: usize) -> bool
    requires { 4 * s + 4 ≤ length ws.now }
    ensures { result ≡ none_at ws.now s }
{
    let [a, b, c, d] = four(ws, s);
    a | b | c | d == 0
}

// The first row from p on and below n that the sets at entries a and b both have. Words that have none left are passed over whole.
pub fn next(ws: &[u64], a: usize, b: usize, p: usize, n: usize) -> Option<usize>
    requires { (4 * a + 4 ≤ length ws.now) × (4 * b + 4 ≤ length ws.now) × (p ≤ n) × (n ≤ 256) }
    ensures { FirstOf (in_both ws.now a b) p n result }
{
    let mut q = p;
    while q < n {
        let x = (ws[4 * a + q / 64] & ws[4 * b + q / 64]) >> (q % 64);
        if x & 1 == 1 {
            return Some(q);
        }
        if x == 0 {
            q = 64 * (q / 64) + 64;
        } else {
            q += 1;
        }
    }
    None
}

// The words of span s, one by one as `put_four` has them.
fn four(ws: &[u64], s: usize) -> [u64; 4]
    requires { 4 * s + 4 ≤ length ws.now }
    ensures { result ≡ words_at ws.now s }
{
    let i = 4 * s;
    [ws[i], ws[i + 1], ws[i + 2], ws[i + 3]]
}

// These words into span s, one by one: LLVM makes two stores of them, and of `copy_from_slice` half as fast a copy.
#[tactic(auto, unfolding(crate::specs::Bits::four_at))]
fn put_four(ws: &mut [u64], s: usize, x: [u64; 4])
    requires { 4 * s + 4 ≤ length ws.old }
    ensures { ws.new ≡ four_at ws.old s (slice_index x 0) (slice_index x 1) (slice_index x 2) (slice_index x 3) }
{
    let i = 4 * s;
    ws[i] = x[0];
    ws[i + 1] = x[1];
    ws[i + 2] = x[2];
    ws[i + 3] = x[3];
}

// The rows of both.
fn either(x: [u64; 4], y: [u64; 4]) -> [u64; 4]
    ensures { result ≡ either_of x y }
{
    [x[0] | y[0], x[1] | y[1], x[2] | y[2], x[3] | y[3]]
}

// No row left in span s.
#[tactic(auto, unfolding(crate::specs::Bits::wiped))]
pub fn wipe(ws: &mut [u64], s: usize)
    requires { 4 * s + 4 ≤ length ws.old }
    ensures { ws.new ≡ wiped ws.old s }
{
    put_four(ws, s, [0; 4]);
}

// The rows of entry q of another table, and no other, into span s.
#[tactic(auto, unfolding(crate::specs::Bits::copied))]
pub fn copy(ws: &mut [u64], s: usize, from: &[u64], q: usize)
    requires { (4 * s + 4 ≤ length ws.old) × (4 * q + 4 ≤ length from.now) }
    ensures { ws.new ≡ copied ws.old s from.now q }
{
    put_four(ws, s, four(from, q));
}

// The rows of entry q of another table, besides those that are there, into span s.
#[tactic(auto, unfolding(crate::specs::Bits::joined))]
pub fn join(ws: &mut [u64], s: usize, from: &[u64], q: usize)
    requires { (4 * s + 4 ≤ length ws.old) × (4 * q + 4 ≤ length from.now) }
    ensures { ws.new ≡ joined ws.old s from.now q }
{
    put_four(ws, s, either(four(ws, s), four(from, q)));
}

// Row r into span s. Whether it is new there: `set` does not look, since a chart's writes are many.
pub fn mark(ws: &mut [u64], s: usize, r: usize) -> bool
    requires { (4 * s + 4 ≤ length ws.old) × (r < 256) }
    ensures { (ws.new ≡ set_bit ws.old s r) × Grows result ws.old ws.new }
{
    let w = 4 * s + r / 64;
    let old = ws[w];
    let x = old | (1u64 << (r % 64));
    if x == old {
        return false;
    }
    ws[w] = x;
    true
}

// The rows of span q into span s too. Whether one is new there.
pub fn merge(ws: &mut [u64], s: usize, q: usize) -> bool
    requires { (4 * s + 4 ≤ length ws.old) × (4 * q + 4 ≤ length ws.old) }
    ensures { (ws.new ≡ joined ws.old s ws.old q) × Grows result ws.old ws.new }
{
    let old = four(ws, s);
    let both = either(old, four(ws, q));
    if both == old {
        return false;
    }
    put_four(ws, s, both);
    true
}

// All words to zero: what solver and gate leave.
pub fn clear(ws: &mut Workspace)
    ensures { ws.new ≡ replicate words 0 }
{
    ws.fill(0);
}
