// Vradomil: the entry points for a host written in C, on numbers and byte slices. It stands on plans, changes and verdicts.
#![tactic(auto)]

mod answer;
mod buffers;
pub mod call;
pub mod event;
pub mod report;
