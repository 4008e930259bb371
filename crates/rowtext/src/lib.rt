// The text of the program rowlist: what stands where in its input, and the lines that it prints. Contracts cite specs/.
#![tactic(auto)]

pub mod input;
pub mod output;
