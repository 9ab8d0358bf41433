// How an area is tried: calls against a table, with what each tells and how the area stands after it.
ghost use Rattle.std.specs.Prelude.{◌≡◌};
ghost use Rattle.std.specs.Result.{result_ok};

mod duties;
mod making;
mod shelf;
mod spell;
mod spells;
mod tables;

use area::area::Area;
use lives::fault::AreaFault;
use lives::state::State;
use refusal::Refusal;
use std::process::Abort;
use std::test::Fail;
use street::Street;

// The state, the current row, the envelope and the queues; all numbers beyond those are 0.
pub type Stands = (State, usize, &'static [u32], &'static [u32]);

// What a call tells, with its refusal in place of its fault.
pub(crate) fn told<T>(answer: Result<T, AreaFault>) -> Result<T, Refusal>
    ensures { result_ok result ≡ result_ok answer }
{
    answer.map_err(|fault| fault.into())
}

// The number at a place, counted from 1, or 0. Trials have no crate in common, so streets are tried with one of their own.
pub(crate) fn number_of(numbers: &[u32], place: usize) -> u32 {
    let number = place.checked_sub(1).and_then(|k| numbers.get(k));
    number.copied().unwrap_or(0)
}

// Asks everywhere, and out of range: places 0 and 65 to 69.
pub(crate) fn check_stands<S: Street>(
    rt: &impl Abort,
    area: &Area<S>,
    stands: &Stands,
) -> Result<(), Fail> {
    let (state, row, envelope, queues) = *stands;
    assert_eq!(rt; area.state(), state);
    assert_eq!(rt; area.row(), row);
    for place in 0..70 {
        let most = number_of(envelope, place);
        assert_eq!(rt; area.envelope(place), most, "envelope at {place}");
        let queue = number_of(queues, place);
        assert_eq!(rt; area.queue(place), queue, "queue at {place}");
    }
    Ok(())
}
