//! What a look-up finds after a change, for numbers and for texts that are queried by `&str`. Each caller
//! except one, of a set of texts, is proved without a file of proof.

pub mod caches;
pub mod maps;
pub mod sets;
pub mod weighted;
