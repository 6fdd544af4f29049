// The slots of the bytes.
ghost use Rattle.std.specs.Prelude.{◌≡◌, get_or};
ghost use Rattle.walk.specs.Counts.{Small};

// A slot for each byte: letters of one slot are alike; slot 0 says nothing. A number and no option, for the counts of a place stand by it.
#[derive(Clone, Copy)]
pub struct Slots {
    pub of: [u8; 256],
    pub ghost small: { Small of },
}

// The slot of a byte, in any table of numbers.
pub fn slot_of(slot: &[u8; 256], b: u8) -> usize
    ensures { result ≡ get_or slot.now b 0 }
{
    usize::from(slot[usize::from(b)])
}

impl Slots {
    // That of a byte.
    pub fn slot(&self, b: u8) -> usize
        ensures { result ≡ get_or self.now.of b 0 }
    {
        slot_of(&self.of, b)
    }
}
