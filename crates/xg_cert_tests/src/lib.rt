#![tactic(auto)]
//! The tests of certificates: how they are written, read and checked. They stand apart, since a crate with tests is
//! proved twice.

#[cfg(test)]
mod checking;
#[cfg(test)]
mod checking_larger;
#[cfg(test)]
mod checking_versions;
#[cfg(test)]
mod plus_writing;
#[cfg(test)]
mod reading;
#[cfg(test)]
mod writing;
