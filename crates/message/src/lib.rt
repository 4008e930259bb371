// Layouts, the side message, and the two operations on it: writing the message of a row, and reading one back. Contracts cite
// specs/.
#![tactic(auto)]

pub mod chunks;
pub mod layouts;
pub mod reading;
pub mod writing;

#[derive(Clone, Copy)]
pub struct Layout {
    pub l1: usize,
    pub l2: usize,
    pub nc: usize,
    pub r: usize,
}

// The most numbers of a message: l1 + l2 is at most 256 in a legal layout, and r at most 16.
pub const MOST_NUMBERS: usize = 272;
