// What an area tells; out of range it tells 0.
ghost use Rattle.std.specs.Prelude.{◌≡◌};
ghost use Rattle.model.specs.State.{told};
ghost use Rattle.area.specs.Code.{area_of};

use crate::area::{Area, Duty};
use lives::state::State;
use model::states::number_at;
use street::Street;

impl<S: Street> Area<S> {
    pub fn state(&self) -> State
        ensures { result ≡ (area_of S.Street.seen self.now).book.state }
    {
        self.book.position.state
    }

    // The current row, counted from 0.
    pub fn row(&self) -> usize
        ensures { result ≡ (area_of S.Street.seen self.now).book.row }
    {
        self.book.position.row
    }

    // The envelope at a place.
    pub fn envelope(&self, place: usize) -> u32
        ensures { result ≡ told (area_of S.Street.seen self.now).book.envelope place }
    {
        number_at(&self.book.position.envelope, place)
    }

    // The street's queue at a place.
    pub fn queue(&self, place: usize) -> u32
        ensures { result ≡ told (area_of S.Street.seen self.now).street.queues place }
    {
        self.street.queue(place)
    }

    // The mode that a signal shows.
    pub fn lamp(&self, signal: usize) -> u8
        ensures { result ≡ told (area_of S.Street.seen self.now).street.lamps signal }
    {
        self.street.lamp(signal)
    }

    // What arrived at a place in the latest step.
    pub fn arrival(&self, place: usize) -> u32
        ensures { result ≡ told (area_of S.Street.seen self.now).street.arrivals place }
    {
        self.street.arrival(place)
    }
}

impl Duty {
    // The number of the area that it is for.
    pub fn area(&self) -> u32
        ensures { result ≡ self.now.area }
    {
        self.area
    }
}
