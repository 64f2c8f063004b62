//! Tests of what keeps a session on a disk, where a case as text can't say it: real folders, clocks and streams, and
//! faults that no case can meet. All other cases are text, in `storage_cases`.
#![tactic(auto)]

#[cfg(test)]
mod clocks;
#[cfg(test)]
mod faults;
#[cfg(test)]
mod folders;
#[cfg(test)]
mod real_journals;
#[cfg(test)]
mod sessions;
#[cfg(test)]
mod streams;
