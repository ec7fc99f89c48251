//! Tests that no process can do: of the server's gate, which the program leaves open; and of a client, that
//! its user sees each reply before the next line.
#![tactic(auto)]

#[cfg(test)]
mod gate;
#[cfg(test)]
mod script;
