// Reading: any bytes become a circuit or a refusal, stage by stage in file order.
#![tactic(auto)]

mod ending;
pub mod read;
