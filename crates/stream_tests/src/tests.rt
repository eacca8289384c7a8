//! Streams over connections: a file for each group of tests, and for what they share.

mod ahead;
mod bare;
mod calls;
mod closing;
mod compared;
mod demos;
mod ends;
mod faults;
mod flushing;
mod limits;
mod many;
mod ordered;
mod pooled;
mod refusing;
mod runs;
mod slow_key;
mod sources;
mod stops;
mod tables;
mod tellers;
mod threads;
mod values;
mod workers;
