//! Members in threads that wait for each other, so that they must run beside each other.
#![tactic(auto)]

#[cfg(test)]
mod meeting;
