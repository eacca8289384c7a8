//! Views, sinks, devices, fills, caches and tables.

mod caches;
mod devices;
mod fills;
mod generated;
mod inputs;
mod sinks;
mod tables;
mod views;
