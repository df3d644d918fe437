//! Uses of the containers, by the names of `hashlink` only, each with the facts on which its caller may rely.
#![tactic(auto)]

pub mod caches;
pub mod capacities;
pub mod commands;
pub mod curves;
pub mod everyday;
pub mod forms;
pub mod lines;
pub mod lookups;
pub mod maps;
pub mod memo;
pub mod names;
pub mod pages;
pub mod segments;
pub mod sessions;
pub mod sets;
pub mod settings;
pub mod symbols;
pub mod threads;
pub mod topics;
pub mod weighted;
