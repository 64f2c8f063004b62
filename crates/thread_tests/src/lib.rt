//! Tests of runs by two threads, where no contract says it: that they come to an end with the files and the output of
//! runs by one thread, that the issuer doesn't wait for the disk, and that what is told is seen before the end.
#![tactic(auto)]

#[cfg(test)]
mod gate_disk;
#[cfg(test)]
mod runs;
#[cfg(test)]
mod workers;
