// The example street before a controller that does not take every row and counts too much.
use crate::tests::sheets::{corridor, two_modes};
use crate::tests::{Step, check_stands, filled, try_steps};
use example_street::box_street::new_street;
use example_street::controller::Controller;
use std::test::Fail;
use street::Showing::{self, Dark, Shown};

// It does not take a row that begins with mode 2, and counts by the first mode that it was sent.
#[derive(Drop)]
struct Kerb {
    first: u8,
}

impl Controller for Kerb {
    fn send(&mut self, row: [u8; 32]) -> Showing {
        self.first = row[0];
        if row[0] == 2 { Dark } else { Shown }
    }

    fn count(&self, place: usize) -> u32 {
        match self.first {
            0 => 7,
            1 => 3,
            _ => u32::MAX,
        }
    }
}

// From 300 25 10: taken, not taken, illegal, all red.
const NETWORK: [Step; 6] = [
    (&[1, 1], Shown, &[143, 30, 13], &[1, 1], &[3, 0, 3]),
    (&[2, 2], Dark, &[163, 30, 23], &[0, 0], &[20, 0, 10]),
    (&[3, 1], Dark, &[170, 30, 30], &[0, 0], &[7, 0, 7]),
    (&[1, 2], Shown, &[113, 60, 33], &[1, 2], &[3, 0, 3]),
    (&[0, 0], Shown, &[120, 60, 40], &[0, 0], &[7, 0, 7]),
    (&[2, 3], Dark, &[127, 60, 47], &[0, 0], &[7, 0, 7]),
];

// From 15000 30600: taken, not taken, illegal, mode 0.
const LINEAR: [Step; 5] = [
    (&[1], Shown, &[25563, 18303], &[1], &[3, 3]),
    (&[2], Dark, &[25763, 18403], &[0], &[200, 100]),
    (&[3], Dark, &[25770, 18410], &[0], &[7, 7]),
    (&[0], Shown, &[25777, 18417], &[0], &[7, 7]),
    (&[1, 1], Dark, &[25784, 18424], &[0], &[7, 7]),
];

#[test]
fn network_at_the_kerb(rt: HostRuntime) -> Result<(), Fail> {
    let queues = filled(&[300, 25, 10]);
    let mut street = new_street(corridor(rt.alloc())?, queues, Kerb { first: 0 });
    check_stands(&rt, &street, 0, &[200, 25, 10], &[], &[]);
    try_steps(&rt, &mut street, &NETWORK);
    Ok(())
}

#[test]
fn linear_at_the_kerb(rt: HostRuntime) -> Result<(), Fail> {
    let queues = filled(&[15000, 30600]);
    let mut street = new_street(two_modes(rt.alloc())?, queues, Kerb { first: 0 });
    check_stands(&rt, &street, 0, &[15000, 30600], &[], &[]);
    try_steps(&rt, &mut street, &LINEAR);
    Ok(())
}
