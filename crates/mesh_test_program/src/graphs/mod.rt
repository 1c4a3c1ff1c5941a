//! Relays and least walks by the calls that the program doesn't make, and what the greedy choice of relays gives.

mod paths;
mod relays;
