// Grading: for each fault of a circuit the vectors that mark it, its class, and the counts.
#![tactic(auto)]

pub mod grade;
