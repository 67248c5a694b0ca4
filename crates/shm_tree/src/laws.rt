//! What trees keep when one key is changed, and how high they are.

ghost use Rattle.shm_tree.specs.Trees.{InsertsWell, IsLow, RemovesWell};

/// Of a balanced tree of n keys and height h, 2^h is at most (n + 1)^2.
pub fn trees_are_low()
    ensures { IsLow }
{}

/// A number put at a key leaves a balanced search tree with that map, whose height grows by at most 1.
pub fn insertions_are_changes()
    ensures { InsertsWell }
{}

/// A key taken out leaves a balanced search tree with that map, whose height falls by at most 1.
pub fn removals_are_changes()
    ensures { RemovesWell }
{}
