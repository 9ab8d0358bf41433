// The places of a linear model.

// The top is the greatest value of the place, the load the most that arrives in a step.
#[derive(Clone, Copy)]
pub struct Place {
    pub top: u32,
    pub load: u32,
}
