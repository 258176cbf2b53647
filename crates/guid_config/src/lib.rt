//! The configuration of a live desk: TOML text, read as the setup that it states.
#![tactic(auto)]

mod colour;
mod guests;
mod law;
mod live;
mod numbers;
mod outputs;
mod pairs;
mod values;

pub use law::{law_of_answers, law_of_pairs};
pub use live::{ConfigFault, Live, read};

#[cfg(test)]
mod tests;
