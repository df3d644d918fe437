//! The forms in which std's maps are called: what a lookup accepts as a key, `?`, and std's traits. The tests
//! check that each form compiles, is proved and runs.

mod collect;
mod errors;
mod look_ups;
