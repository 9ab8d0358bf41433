// A controller in its cabinet, which brings a street what its detectors count.
ghost use Rattle.example_street.specs.Answers.{answer_by};

use crate::controller::Controller;
use model::Model;
use std::array;
use street::Showing;
use street::feed::Feed;
use street::groups::Group;

#[derive(Drop)]
pub struct Cabinet<C> {
    pub controller: C,
}

impl<C: Controller> Feed for Cabinet<C> {
    // The row was sent, and the step is marked exactly if the controller answered that it is dark.
    ghost brings = { λ m row before group after. C.Controller.sends before.controller row (answer_by group.dark) after.controller };

    fn bring<M: Model>(&mut self, _model: &M, row: [u8; 32]) -> Group {
        let answer = self.controller.send(row);
        Group {
            arrivals: array::from_fn(|k| self.controller.count(k + 1)),
            dark: answer == Showing::Dark,
        }
    }
}
