// The gate's answer, and its number.
ghost use Rattle.std.specs.Prelude.{◌≡◌};
ghost use Rattle.gate.specs.Number.{number_of};

// Why the gate says neither yes nor no, each by the paper's number.
#[derive(Clone, Copy, PartialEq, Eq, Debug)]
pub enum Refusal {
    Workspace = 18,
    Malformed = 30,
    Length = 31,
}

pub fn number(answer: Result<bool, Refusal>) -> u32
    ensures { result ≡ number_of answer }
{
    match answer {
        Ok(true) => 0,
        Ok(false) => 1,
        Err(refusal) => refusal as u32,
    }
}
