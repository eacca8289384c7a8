//! Pools: that calls succeed, that claims show what the source found, and what is counted.

mod asks;
mod brought;
mod closing;
mod desk;
mod full;
mod gates;
mod halves;
mod numbering;
mod opening;
mod planned;
mod refills;
mod sharded;
mod taken;
mod threads;
