// Rules: the types of events and answers, the rules of document 01 as definitions (specs/) and the theorems about them (proofs/). It stands on tables.
#![tactic(auto)]

pub mod answer;
pub mod event;
