//! Members at work: a write on the spool beside another's lock, and threads.
#![tactic(auto)]

#[cfg(test)]
mod beside;
#[cfg(test)]
mod quiet;
#[cfg(test)]
mod shared;
#[cfg(test)]
mod threads;
#[cfg(test)]
mod writing;
