//! Tests of the hall: clients in memory, each with two threads, and a thread that stores to a disk in memory.
#![tactic(auto)]

#[cfg(test)]
mod board;
#[cfg(test)]
mod closings;
#[cfg(test)]
mod halves;
#[cfg(test)]
mod memory;
#[cfg(test)]
mod play;
#[cfg(test)]
mod register;
#[cfg(test)]
mod rows;
#[cfg(test)]
mod saying;
#[cfg(test)]
mod stage;
#[cfg(test)]
mod stores;
#[cfg(test)]
mod tests;
