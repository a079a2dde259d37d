// Inside one module, 64 vectors to a word: which nodes are joined to each rail and in how many rounds, and whether a type is complementary. What that means is in the crate `switch`.
#![tactic(auto)]

pub mod complementary;
mod conduction;
mod edges;
pub mod rails;
mod rounds;
mod settings;

// What switches an edge, its gate, is below this: a label, and 16 more in a p-channel edge.
pub const MOST_GATES: usize = 32;
