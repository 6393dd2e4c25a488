// A buyer's own rule, written against the public trait only, layered with the rules of the part.
#![tactic(auto)]

pub mod charging;
pub mod month;
pub mod rulebook;
#[cfg(test)]
mod tests;
pub mod voltage_control;
