//! How a shared value stands between two sittings, and a member that may take its seat at it: definitions alone.
#![tactic(auto)]
