// What was read of a sheet, and where.

// The value of a word, the place of the word's first byte, and where it ended.
#[derive(Clone, Copy)]
pub struct Reading<T> {
    pub value: T,
    pub place: usize,
    pub end: usize,
}
