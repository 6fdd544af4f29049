// A word's first letters, by value.
ghost use Rattle.std.specs.Prelude.{◌≡◌, ◌<◌, ◌≤◌};
ghost use Rattle.walk_state.specs.Moves.{empty_prefix, longer, ending, shorter, last_of};

// An array of 60 bytes and how many of them there are, as paper 01 has it: a trial takes no memory. That they are at most 60 is no fact of the
// type: `back` takes every length above 0. Every move keeps it (proofs/Kept.antt).
#[derive(Clone, Copy)]
pub struct Prefix {
    pub bytes: [u8; 60],
    pub len: usize,
}

impl Prefix {
    pub fn empty() -> Self
        ensures { result ≡ empty_prefix }
    {
        Prefix {
            bytes: [0; 60],
            len: 0,
        }
    }

    // One letter longer.
    pub fn down(mut self, b: u8) -> Self
        requires { self.len < 60 }
        ensures { result ≡ longer self b }
    {
        self.bytes[self.len] = b;
        self.len += 1;
        self
    }

    // The next letter in the last place.
    pub fn next(mut self, b: u8) -> Self
        requires { (0 < self.len) × (self.len ≤ 60) }
        ensures { result ≡ ending self b }
    {
        self.bytes[self.len - 1] = b;
        self
    }

    // One letter shorter.
    pub fn back(mut self) -> Self
        requires { 0 < self.len }
        ensures { result ≡ shorter self }
    {
        self.len -= 1;
        self
    }

    // The last letter.
    pub fn last(self) -> u8
        requires { (0 < self.len) × (self.len ≤ 60) }
        ensures { result ≡ last_of self }
    {
        self.bytes[self.len - 1]
    }
}
