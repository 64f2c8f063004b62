//! Tests of what stands between an issuer and a writer, where no contract says it: that calls of two threads come to an
//! end, and that a number which one side has posted is seen by the other.
#![tactic(auto)]

#[cfg(test)]
mod board;
#[cfg(test)]
mod queue;
