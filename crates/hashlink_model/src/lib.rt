//! The definitions that the contracts of the containers use, with examples to which they compute, and their
//! laws. Each function has an empty body: its contract is the statement.
#![tactic(auto)]

#[tactic(auto, using(crate::proofs::LazyWalks::lazy_walks, crate::proofs::Members::subsets))]
pub mod algebra;
#[tactic(auto, using(crate::proofs::Caches::caches, crate::proofs::CacheBounds::bounds))]
pub mod cache;
#[tactic(auto, using(crate::proofs::Comparisons::comparisons, crate::proofs::Clones::clone_is_equal))]
pub mod compare;
#[tactic(auto, using(crate::proofs::Cursors::places, crate::proofs::Pops::pops))]
pub mod cursor;
#[tactic(auto, using(crate::proofs::Afterwards::afterwards, crate::proofs::Extends::extends))]
pub mod entries;
#[tactic(auto, using(crate::proofs::Occupied::occupied, crate::proofs::Pops::pops))]
pub mod entry;
pub mod extending;
#[tactic(auto, using(crate::proofs::Retains::retains))]
pub mod retain;
#[tactic(auto, using(crate::proofs::SetSteps::set_steps, crate::proofs::SetElements::elements))]
pub mod sets;
#[tactic(auto, using(crate::proofs::NodeCounts::node_counts, crate::proofs::Pops::pops))]
pub mod states;
#[tactic(auto, using(crate::proofs::Walks::walks, crate::proofs::ByPlace::by_place))]
pub mod walk;
#[tactic(auto, using(crate::proofs::Weighted::weighted, crate::proofs::Puts::unequal))]
pub mod weights;
