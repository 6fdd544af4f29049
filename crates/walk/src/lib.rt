#![tactic(auto)]

// The walk over prefixes. A letter that no constraint tells from an earlier one in its place is not walked:
// the trials of that one are remembered and counted again.
mod slots;

ghost use Rattle.std.specs.Prelude.{◌≡◌, true, ◌<◌, ◌≤◌, get_or};
ghost use Rattle.walk_state.specs.Letters.{has_letter};
ghost use Rattle.walk_state.specs.Moves.{last_of, since_of, Marks};
ghost use Rattle.walk.specs.Counts.{noted_at, seen_at, forgotten};
ghost use Rattle.walk.specs.Posts.{Climbed, Advanced};

pub use slots::{Slots, slot_of};
use walk_state::{Letters, State};

// The trials of a letter of each slot in each place, where they are known.
pub type Counts = [[Option<u64>; 8]; 60];

// The count of slot s in the last of `len` places.
pub fn noted(counts: &mut Counts, len: usize, s: usize, t: u64)
    requires { (0 < len) × (len ≤ 60) × (s < 8) }
    ensures { counts.new ≡ noted_at counts.old len s t }
{
    counts[len - 1][s] = Some(t);
}

// What is known of it. Bytes of slot 0 are not alike.
#[tactic(auto, unfolding(crate::specs::Counts::seen_at))]
pub fn seen(counts: &Counts, len: usize, s: usize) -> Option<u64>
    requires { (0 < len) × (len ≤ 60) × (s < 8) }
    ensures { result ≡ seen_at counts.now len s }
{
    if s == 0 { None } else { counts[len - 1][s] }
}

// The trials of the last letter noted for its slot, what is known of the letter b in its place.
pub fn recall(slots: &Slots, q: State, b: u8, counts: &mut Counts) -> Option<u64>
    requires { (0 < q.prefix.len) × (q.prefix.len ≤ 60) × Marks q }
    ensures noted { counts.new ≡ noted_at counts.old q.prefix.len (get_or slots.now.of (last_of q.prefix) 0) (since_of q) }
    ensures seen { result ≡ seen_at counts.new q.prefix.len (get_or slots.now.of b 0) }
{
    let len = q.prefix.len;
    noted(counts, len, slots.slot(q.last()), q.since());
    seen(counts, len, slots.slot(b))
}

// The counts of the place behind a prefix of `len` bytes, forgotten.
pub fn fresh(counts: &mut Counts, len: usize)
    requires { len < 60 }
    ensures { counts.new ≡ forgotten counts.old len }
{
    counts[len] = [None; 8];
}

// What no step of a walk changes: its letters, and the slots of those that are alike. The budget goes beside it: behind a reference
// nothing says that a number has 64 bits, and one trial more than a smaller one could not be shown to fit.
#[derive(Clone, Copy)]
pub struct Walk<'a> {
    pub letters: Letters,
    pub slots: &'a Slots,
}

impl Walk<'_> {
    // Behind a prefix and its extensions: the next letter in its last place whose trials are not known, or in that of the nearest shorter one
    // that has such; those that are known are counted on the way. None where the budget does not suffice for them.
    pub fn climb(&self, budget: u64, p: State, counts: &mut Counts) -> Option<State>
        requires { (p.prefix.len ≤ 60) × (p.trials ≤ budget) × Marks p }
        ensures { Climbed (has_letter self.now.letters.of) self.now.slots.now.of budget p counts.old result counts.new }
    {
        let mut q = p;
        while 0 < q.prefix.len {
            let Some(b) = self.letters.first_from(usize::from(q.last()) + 1) else {
                q = q.back();
                continue;
            };
            let Some(x) = recall(self.slots, q, b, counts) else {
                return Some(q.next(b));
            };
            if budget - q.trials < x {
                return None;
            }
            q = q.next(b).counted(x);
        }
        Some(q)
    }

    // The state after a prefix was judged. None where the budget does not suffice.
    pub fn advance(
        &self,
        budget: u64,
        n: usize,
        ok: bool,
        q: State,
        counts: &mut Counts,
    ) -> Option<State>
        requires { (n ≤ 60) × (q.prefix.len ≤ n) × (ok ≡ true → q.prefix.len < n) × (q.trials < budget) × Marks q }
        ensures { Advanced (has_letter self.now.letters.of) self.now.slots.now.of budget n ok q counts.old result counts.new }
    {
        let p = q.counted(1);
        if ok {
            if let Some(b) = self.letters.first_from(0) {
                fresh(counts, p.prefix.len);
                return Some(p.down(b));
            }
        }
        self.climb(budget, p, counts)
    }
}
