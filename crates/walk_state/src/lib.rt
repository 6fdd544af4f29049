#![tactic(auto)]

// The walk's state: its letters, its prefix by value, and its moves, each handing the state back.
mod prefix;
mod state;

ghost use Rattle.std.specs.Prelude.{◌≡◌, ◌≤◌};
ghost use Rattle.walk_state.specs.Letters.{has_letter, NoLetter, Joined, FirstFrom};

pub use prefix::Prefix;
pub use state::State;

// The letters, a bit for each possible one, in four words.
#[derive(Clone, Copy)]
pub struct Letters {
    pub of: [u64; 4],
}

impl Letters {
    #[tactic(auto, using(workspace::proofs::Bits::no_word), unfolding(crate::specs::Letters::has_letter))]
    pub fn none() -> Self
        ensures { NoLetter result.of }
    {
        Letters { of: [0; 4] }
    }

    // The letters from low to high besides.
    pub fn with(mut self, low: u8, high: u8) -> Self
        ensures { Joined self.of low high result.of }
    {
        for b in low..=high {
            workspace::set(&mut self.of, 0, usize::from(b));
        }
        self
    }

    #[tactic(auto, unfolding(crate::specs::Letters::has_letter))]
    pub fn has(self, b: u8) -> bool
        ensures { result ≡ has_letter self.of b }
    {
        workspace::test(&self.of, 0, usize::from(b))
    }

    // The first letter at or after c.
    #[tactic(auto, using(workspace::proofs::Scan::first_of_one), unfolding(crate::specs::Letters::has_letter))]
    pub fn first_from(self, c: usize) -> Option<u8>
        requires { c ≤ 256 }
        ensures { FirstFrom (has_letter self.of) c result }
    {
        let b = workspace::next(&self.of, 0, 0, c, 256)?;
        Some(b as u8)
    }
}
