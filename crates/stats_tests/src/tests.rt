//! The page of counters, and its server.

mod groups;
mod lasts;
mod latencies;
mod looks;
mod pages;
mod served;
mod services;
mod worked;
