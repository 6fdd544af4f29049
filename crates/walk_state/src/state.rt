// The walk's state by value: its moves hand it back.
ghost use Rattle.std.specs.Prelude.{◌≡◌, ◌+◌, ◌<◌, ◌≤◌};
ghost use Rattle.walk_state.specs.Moves.{start_state, down_of, next_of, back_of, counted_of, again_of, last_of, since_of, Marks};

use crate::Prefix;

// The prefix at hand, and the trials made. `Marks` is no fact of the type: only `since` needs it, and the moves take every state that their clauses
// admit. Every move keeps it (proofs/Kept.antt).
#[derive(Clone, Copy)]
pub struct State {
    pub prefix: Prefix,
    // The trials at which the present letter of each place was begun; at 0, those at which this length was.
    pub begun: [u64; 61],
    pub trials: u64,
}

impl State {
    pub fn start() -> Self
        ensures { result ≡ start_state }
    {
        State {
            prefix: Prefix::empty(),
            begun: [0; 61],
            trials: 0,
        }
    }

    // One letter longer.
    pub fn down(mut self, b: u8) -> Self
        requires { self.prefix.len < 60 }
        ensures { result ≡ down_of self b }
    {
        self.prefix = self.prefix.down(b);
        self.begun[self.prefix.len] = self.trials;
        self
    }

    // The next letter in the last place.
    pub fn next(mut self, b: u8) -> Self
        requires { (0 < self.prefix.len) × (self.prefix.len ≤ 60) }
        ensures { result ≡ next_of self b }
    {
        self.prefix = self.prefix.next(b);
        self.begun[self.prefix.len] = self.trials;
        self
    }

    // One letter shorter.
    pub fn back(mut self) -> Self
        requires { 0 < self.prefix.len }
        ensures { result ≡ back_of self }
    {
        self.prefix = self.prefix.back();
        self
    }

    // So many trials more.
    pub fn counted(mut self, t: u64) -> Self
        requires { self.trials + t < 18446744073709551616 }
        ensures { result ≡ counted_of self t }
    {
        self.trials += t;
        self
    }

    // The empty prefix at another length.
    pub fn again(mut self) -> Self
        ensures { result ≡ again_of self }
    {
        self.begun[0] = self.trials;
        self
    }

    // The last letter.
    pub fn last(self) -> u8
        requires { (0 < self.prefix.len) × (self.prefix.len ≤ 60) }
        ensures { result ≡ last_of self.prefix }
    {
        self.prefix.last()
    }

    // The trials since the prefix at hand was begun.
    pub fn since(self) -> u64
        requires { (self.prefix.len ≤ 60) × Marks self }
        ensures { result ≡ since_of self }
    {
        self.trials - self.begun[self.prefix.len]
    }
}
