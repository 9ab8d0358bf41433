// A street that sends each row to a controller and takes what its detectors count as arrivals.
ghost use Rattle.std.specs.Prelude.{◌≡◌};
ghost use Rattle.street.specs.Standing.{fresh_seen};
ghost use Rattle.street.specs.Fed.{fed_seen};

use crate::cabinet::Cabinet;
use crate::controller::Controller;
use model::Model;
use street::fed::FedStreet;

pub type BoxStreet<M, C> = FedStreet<M, Cabinet<C>>;

// A dark street with these queues.
pub fn new_street<M: Model, C: Controller>(
    model: M,
    queues: [u32; 64],
    controller: C,
) -> BoxStreet<M, C>
    ensures model { M.Model.meaning result.model ≡ M.Model.meaning model }
    ensures seen { fed_seen M.Model.meaning result ≡ fresh_seen (M.Model.meaning model) queues }
    ensures controller { result.feed.controller ≡ controller }
{
    FedStreet::with_feed(model, queues, Cabinet { controller })
}
