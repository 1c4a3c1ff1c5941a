//! Tests of what no text of the program shows: failing streams, runs over an air and a clock in memory, two airs over loopback, and
//! calls that the program doesn't make.
#![tactic(auto)]

#[cfg(test)]
mod graphs;
#[cfg(test)]
mod listing;
#[cfg(test)]
mod loopback;
#[cfg(test)]
mod octets;
#[cfg(test)]
mod runs;
#[cfg(test)]
mod streams;
#[cfg(test)]
mod top;
