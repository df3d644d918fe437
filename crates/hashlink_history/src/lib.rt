//! The theory of caches over traces, and of the nodes that a run needs, with worked examples and theorems.
//! Each function has an empty body: its contract is the theorem.
#![tactic(auto)]

#[tactic(auto, using(crate::proofs::CacheRuns::runs, crate::proofs::Competitive::schedules))]
pub mod history;
#[tactic(auto, using(crate::proofs::CacheRuns::along, crate::proofs::Ends::same_end))]
pub mod inclusion;
#[tactic(auto, using(crate::proofs::Peaks::peaks))]
pub mod peak;
