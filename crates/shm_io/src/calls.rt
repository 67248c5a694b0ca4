//! The numbers of calls, from 1, and lists of those that fail.
ghost use Rattle.std.specs.{Prelude.{◌↔◌, IsTrue}, List.Contains};

// Whether the call of this number stands in the list.
pub(crate) fn is_listed(calls: &[u32], number: u64) -> bool
    ensures { IsTrue result ↔ Contains calls.now number }
{
    calls.iter().any(|&call| u64::from(call) == number)
}
