//! Calls of `hashlink_uses`, and a map whose hasher has a random seed.

mod curves;
mod forms;
mod maps;
mod pages;
mod sections;
mod segments;
mod sessions;
mod symbols;
mod topics;
mod whole_uses;
