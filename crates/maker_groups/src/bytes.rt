// Heads and options at a place of the list. Each writer hands back where it ended.
ghost use Rattle.std.specs.Prelude.{◌+◌, ◌≤◌, length};
ghost use Rattle.paper.specs.Cuts.{option_bytes, head_bytes};
ghost use Rattle.numbers.specs.Put.{Put};
ghost use Rattle.maker_groups.specs.Parts.{field_bytes, as_opt};

// How a row's word is made: one byte from a to b; b bytes of the text from offset a on; the first k bytes by row a and the rest by row b;
// or the empty word.
#[derive(Clone, Copy)]
pub enum Opt {
    Byte(usize, usize),
    Stretch(usize, usize),
    Split(u8, usize, usize),
    Nil,
}

// The eight bytes of an option at o: its kind, its fields, and a field that is zero. By numbers, since any kind may be asked for.
pub fn put_fields(list: &mut [u8], o: usize, kind: u8, k: u8, a: usize, b: usize) -> usize
    requires { o + 8 ≤ length list.old }
    ensures { Put (field_bytes kind k a b) o list.old list.new result }
{
    let p = numbers::put_bytes(list, o, &[kind, k]);
    let p = numbers::put_u16(list, p, a);
    let p = numbers::put_u16(list, p, b);
    numbers::put_u16(list, p, 0)
}

// An option at o, by the paper's number of its kind.
#[tactic(auto, unfolding(paper::specs::Cuts::option_bytes, crate::specs::Parts::field_bytes))]
pub fn put_option(list: &mut [u8], o: usize, x: Opt) -> usize
    requires { o + 8 ≤ length list.old }
    ensures { Put (option_bytes (as_opt x)) o list.old list.new result }
{
    match x {
        Opt::Byte(low, high) => put_fields(list, o, 1, 0, low, high),
        Opt::Stretch(off, len) => put_fields(list, o, 2, 0, off, len),
        Opt::Split(k, a, b) => put_fields(list, o, 3, k, a, b),
        Opt::Nil => put_fields(list, o, 4, 0, 0, 0),
    }
}

// A head at o.
pub fn put_head(list: &mut [u8], o: usize, r: usize, m: u8, count: usize) -> usize
    requires { o + 8 ≤ length list.old }
    ensures { Put (head_bytes r m count) o list.old list.new result }
{
    let p = numbers::put_u16(list, o, r);
    let p = numbers::put_bytes(list, p, &[m, 0]);
    numbers::put_u32(list, p, count)
}
