//! Tests of routers by the frames that they hear and send, over plain lists, over indexed tables and over tables that hold nothing; of
//! calls that a router doesn't make; and of the tables by drawn calls.
#![tactic(auto)]

#[cfg(test)]
mod calls;
#[cfg(test)]
mod draws;
#[cfg(test)]
mod frames;
#[cfg(test)]
mod runs;
