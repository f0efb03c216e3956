// The two lists of a card: contracts and special events.
#![tactic(auto)]

pub mod list;
mod rules;
pub mod special;
pub mod tally;
