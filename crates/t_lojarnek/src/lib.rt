//! Tests of lojarnek: each error, each call on its happy path, commands in pieces, and four threads over all calls.
#![tactic(auto)]

#[cfg(test)]
mod blocks;
#[cfg(test)]
mod checks;
#[cfg(test)]
mod pieces;
#[cfg(test)]
mod tests;
#[cfg(test)]
mod threads;
