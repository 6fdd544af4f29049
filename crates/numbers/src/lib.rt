// Numbers and marks in a run of bytes, as sheets and cut lists have them: read, and written. Two widths are two functions of a line
// or two each: one over the width would be longer than both.
#![tactic(auto)]

ghost use Rattle.std.specs.Prelude.{◌≡◌, ◌+◌, ◌≤◌, ◌<◌, length, slice_index};
ghost use Rattle.paper.specs.Bytes.{u16_at, u32_at, mark_at, u16, u32};
ghost use Rattle.numbers.specs.Put.{Put};

// The number of two bytes at o.
#[tactic(auto, unfolding(paper::specs::Bytes::u16_at))]
pub fn u16_at(s: &[u8], o: usize) -> usize
    requires { o + 2 ≤ length s.now }
    ensures { (result ≡ u16_at s.now o) × (result < 65536) }
{
    usize::from(u16::from_le_bytes([s[o], s[o + 1]]))
}

// The number of four bytes at o.
#[tactic(auto, unfolding(paper::specs::Bytes::u16_at, paper::specs::Bytes::u32_at))]
pub fn u32_at(s: &[u8], o: usize) -> usize
    requires { o + 4 ≤ length s.now }
    ensures { (result ≡ u32_at s.now o) × (result < 4294967296) }
{
    u32::from_le_bytes([s[o], s[o + 1], s[o + 2], s[o + 3]]) as usize
}

// The four bytes at o are those of the mark.
#[tactic(auto, using(crate::proofs::Marks::mark_is))]
pub fn mark_at(s: &[u8], o: usize, mark: &[u8; 4]) -> bool
    requires { o + 4 ≤ length s.now }
    ensures { result ≡ mark_at s.now o (slice_index mark.now 0) (slice_index mark.now 1) (slice_index mark.now 2) (slice_index mark.now 3) }
{
    s[o..o + 4] == mark[..]
}

// A number's two bytes at o. Each writer hands back where it ended.
#[tactic(auto, using(crate::proofs::Stores::put_same, crate::proofs::Stores::two_bytes))]
pub fn put_u16(list: &mut [u8], o: usize, x: usize) -> usize
    requires { o + 2 ≤ length list.old }
    ensures { Put (u16 x) o list.old list.new result × (result ≡ o + 2) }
{
    put_bytes(list, o, &((x % 65536) as u16).to_le_bytes())
}

// A number's four bytes at o.
#[tactic(auto, using(crate::proofs::Stores::put_same, crate::proofs::Stores::four_bytes))]
pub fn put_u32(list: &mut [u8], o: usize, x: usize) -> usize
    requires { o + 4 ≤ length list.old }
    ensures { Put (u32 x) o list.old list.new result × (result ≡ o + 4) }
{
    put_bytes(list, o, &((x % 4294967296) as u32).to_le_bytes())
}

// The bytes x at o. A loop, for a slice copied whole wants `memmove` of whoever links the library.
pub fn put_bytes(list: &mut [u8], o: usize, x: &[u8]) -> usize
    requires { o + length x.now ≤ length list.old }
    ensures { Put x.now o list.old list.new result }
{
    for (i, b) in x.iter().enumerate() {
        list[o + i] = *b;
    }
    o + x.len()
}
