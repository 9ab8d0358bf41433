// The making of an area.
ghost use Rattle.std.specs.Prelude.{◌≡◌};
ghost use Rattle.area.specs.Code.{Made};
ghost use Rattle.area.specs.Steps.{off_line};

use crate::area::{Area, Book, Position};
use lives::state::State;
use model::Model;
use plan::limits::Limit;
use street::Street;

impl Position {
    // Off line an area is at row 0, and the envelope is the tops.
    pub(crate) fn off_line<M: Model>(model: &M) -> Position
        ensures { result ≡ off_line (M.Model.meaning model.now) }
    {
        let envelope = model.tops();
        Position {
            state: State::OffLine,
            row: 0,
            envelope,
        }
    }
}

impl<S: Street> Area<S> {
    // A fresh area: off line, with nothing on its shelf. Here stand the promises over its whole life.
    pub fn new(street: S, limits: Vec<Limit>, number: u32) -> Self
        ensures { Made S.Model.meaning S.Street.seen street limits.items number result }
    {
        // whatever a street is asked, its answer promises that it keeps the bounds of its model
        let _ = street.queue(1);
        let position = Position::off_line(&street);
        let book = Book {
            shelf: [None; 8],
            limits,
            on: None,
            position,
        };
        Area {
            street,
            number,
            book,
        }
    }
}
