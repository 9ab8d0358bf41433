// Code on states and rows that models share.
ghost use Rattle.std.specs.Prelude.{◌≡◌, ◌<◌, min, nat_le, nat_lt, slice_index};
ghost use Rattle.model.specs.State.{capped, fits_row, told, lowest_above};

use std::array;

// The number of a place, counted from 1; 0 out of range.
pub fn number_at(state: &[u32; 64], place: usize) -> u32
    ensures { result ≡ told state.now place }
{
    // place 0 wraps to a place far beyond the last, so that one comparison finds both ends
    let number = state.get(place.wrapping_sub(1));
    number.copied().unwrap_or(0)
}

// Each number of the state, or the bound where it is above that.
// The closure says itself for which places it is asked, since an array asks for each of its own.
pub fn capped_by(bounds: &[u32; 64], state: &[u32; 64]) -> [u32; 64]
    ensures { result ≡ capped bounds.now state.now }
{
    array::from_fn(
        |k|
            requires { k < 64 }
            ensures { result ≡ min (slice_index state.entry.now k) (slice_index bounds.entry.now k) }
        { state[k].min(bounds[k]) },
    )
}

// Whether each signal shows mode 0 or one of its modes, with 0 beyond the last signal.
pub fn fits_modes(modes: &[u8], row: &[u8; 32]) -> bool
    ensures { result ≡ fits_row modes.now row.now }
{
    row.iter().enumerate().all(
        |(j, mode)|
            ensures { result ≡ nat_le mode.entry.now (slice_index modes.entry.now j) }
        { *mode <= modes.get(j).copied().unwrap_or(0) },
    )
}

// The lowest place, counted from 1, where one state is above another.
pub fn lowest_place_above(state: &[u32; 64], other: &[u32; 64]) -> Option<usize>
    ensures { result ≡ lowest_above state.now other.now }
{
    let above = state.iter().zip(other).position(
        |(number, bound)|
            ensures { result ≡ nat_lt bound.entry.now number.entry.now }
        { number > bound },
    );
    above.map(|k| k + 1)
}
