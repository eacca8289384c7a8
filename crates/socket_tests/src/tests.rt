//! What clients of both servers receive, and when servers end: a file for each group of tests, and for what they share.

mod actions;
mod asking;
mod calls;
mod clients;
mod crowds;
mod grouped;
mod limited;
mod lingering;
mod long_values;
mod loops;
mod meeting;
mod memory;
mod pipelining;
mod plans;
mod servers;
mod serving;
mod stalls;
mod stopping;
mod visits;
mod waiting;
