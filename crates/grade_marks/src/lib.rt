// The outputs of instances, and the rows of the matrix: which vectors mark each fault.
#![tactic(auto)]

pub mod instance;
mod labels;
mod matrix;
