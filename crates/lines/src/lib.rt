// Requests and answers as lines of text: the words of a line, those of an answer, and the requests on single records.
#![tactic(auto)]

pub mod answer;
pub mod bips;
pub mod contract_lists;
pub mod contracts;
pub mod environments;
pub mod events;
pub mod holders;
mod margins;
pub mod scan;
pub mod special_lists;
