//! Tests of what no row of calls covers. For the containers: whether an entry calls its closure, how often a
//! run calls its own, the output of `{:?}` and the messages of errors, loops and iterators of std, the forms
//! in which std's maps are called, items without size, and a program whose input or output fails. Then the
//! table below the map.
#![tactic(auto)]

#[cfg(test)]
mod adapters;
#[cfg(test)]
mod cloning;
#[cfg(test)]
mod commands;
#[cfg(test)]
mod counting;
#[cfg(test)]
mod debug;
#[cfg(test)]
mod entries;
#[cfg(test)]
mod few;
#[cfg(test)]
mod forms;
#[cfg(test)]
mod hashers;
#[cfg(test)]
mod keys;
#[cfg(test)]
mod large;
#[cfg(test)]
mod loops;
#[cfg(test)]
mod lower;
#[cfg(test)]
mod no_size;
#[cfg(test)]
mod rooms;
#[cfg(test)]
mod serving;
pub mod threads;
#[cfg(test)]
mod uses;
#[cfg(test)]
mod values;
