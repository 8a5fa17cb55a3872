//! Tests of the library on examples whose results follow from the rules.

#![tactic(auto)]

#[cfg(test)]
mod decoding;
#[cfg(test)]
mod playing;
#[cfg(test)]
mod quoting;
#[cfg(test)]
mod tables;
