// What a street asks of the controller at the kerb. Whatever it answers, the street keeps its own promise.
ghost use Rattle.std.specs.Prelude.{ℕ, List};
ghost use Rattle.street.specs.declared.Showing.{Showing};

use street::Showing;

pub trait Controller {
    // what `send` may answer to a row, for the controller before and after; where it is left out, anything
    ghost sends: { Self → List ℕ → Showing → Self → Type 0 } = { λ before row answer after. Unit {0} };

    // Sends a row to the lamps, and says whether they show it. A controller that does not take a row is dark.
    fn send(&mut self, row: [u8; 32]) -> Showing
        ensures { sends self.old row result self.new };

    // What the detector at a place counted since the row was sent. Places are numbered from 1.
    fn count(&self, place: usize) -> u32;
}
