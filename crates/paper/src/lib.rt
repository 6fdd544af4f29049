#![tactic(auto)]

// The papers' rules are in specs/, and the theorems that join them in proofs/. One of the paper's sizes, for the crates above.
ghost use Rattle.std.specs.Prelude.{◌≡◌};

// The words of workspace that a table of 256 rows by the 1,891 spans of a 60-byte term takes, one bit each.
pub const WORDS: usize = 7564;
