//! Tests of what runs on threads or is polled: clients of a pool that threads share, one that dies between two word steps, clients as futures that
//! are polled by hand and by an executor, and corpses that go through a morgue.
#![tactic(auto)]

#[cfg(test)]
mod morgue;
#[cfg(test)]
mod polls;
#[cfg(test)]
mod pools;
