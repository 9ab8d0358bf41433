// The queues of a street as a state.
ghost use Rattle.std.specs.Prelude.{◌≡◌, ◌+◌, ◌<◌};
ghost use Rattle.model.specs.State.{told};
ghost use Rattle.street.specs.Street.{Bounded};

use crate::Street;
use std::array;

// The queue at each place.
pub fn queues_of<S: Street>(street: &S) -> [u32; 64]
    ensures { result ≡ (S.Street.seen street.now).queues }
{
    array::from_fn(
        |k|
            requires { k < 64 }
            ensures is { result ≡ told (S.Street.seen street.entry.now).queues (k + 1) }
            ensures within { Bounded (S.Model.meaning street.entry.now) (S.Street.seen street.entry.now) }
        { street.queue(k + 1) },
    )
}
