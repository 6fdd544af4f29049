// A row that splits its word into a word of one row and a word of another.
#[derive(Clone, Copy, Default)]
pub struct Pair {
    pub row: u8,
    pub left: u8,
    pub right: u8,
}
