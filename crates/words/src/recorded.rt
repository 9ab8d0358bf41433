// What several words say.
ghost use Rattle.std.specs.Prelude.{◌≡◌};

use crate::reading::Reading;

// What the words say, and where the last of them ended.
#[derive(Clone, Copy)]
pub struct Recorded<T> {
    pub item: T,
    pub end: usize,
}

// What a single word says.
impl<T> From<Reading<T>> for Recorded<T> {
    ghost from_gives = { λ word r. r ≡ record { item = word.value; end = word.end } };

    fn from(word: Reading<T>) -> Recorded<T> {
        Recorded {
            item: word.value,
            end: word.end,
        }
    }
}
