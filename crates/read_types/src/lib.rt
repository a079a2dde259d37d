// Module types: the fields with tags 2, 3 and 7 become records of types, each in range and complementary.
#![tactic(auto)]

mod edges;
mod passes;
pub mod types;
