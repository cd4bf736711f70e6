//! The result of a run that was not refused.

use check_report::{Attempt, Outcome};

/// What was written. The attempt is the one that it comes from, if several orders were tried and one of them succeeded.
#[derive(Drop, Debug)]
pub enum Done {
    /// The report of a comparison, with its counts. It comes from the cones of the pairs if an order was to be found
    /// and there is no attempt. The bytes are the values of the first pair that differs, as a VCD that is still to be
    /// saved.
    Compared(Outcome, Option<Attempt>, Option<Vec<u8>>),
    /// The order of the variables.
    OrderPrinted(Option<Attempt>),
}
