//! Tests of calls that neither a schedule, a process nor a script of `test_laboratory` can make: of functions
//! that no program calls so, and of lack of memory. There is a file for each crate that is tested; `messages`
//! and `paths` have what tests of the desk send and expect.
//!
//! They are in a crate of their own, since a crate with tests is proved twice. A test makes its value, lends
//! it to a function with the assertions, and then drops it by name: a large value that is dropped implicitly
//! is dropped field by field at every return, which the prover checks each time. A desk gives its disk back,
//! as a run does.
#![tactic(auto)]

#[cfg(test)]
mod codec;
#[cfg(test)]
mod desk;
#[cfg(test)]
mod disk;
#[cfg(test)]
mod front;
#[cfg(test)]
mod journal;
#[cfg(test)]
mod keeper;
#[cfg(test)]
mod messages;
#[cfg(test)]
mod paths;
#[cfg(test)]
mod waits;
#[cfg(test)]
mod wire;
