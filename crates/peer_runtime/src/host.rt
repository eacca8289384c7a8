//! What a server needs of the runtime that it is given, each under one name.
//!
//! It stands on the handles of `std` alone. It promises nothing of its own: a type that has the parts has the whole, and a
//! function that asks for the whole may use each part, so it may wait, and what it promises holds where it returns.
use std::net::{Net, TcpListener, TcpStream};
use std::sync::Wait;
use std::thread::Threads;
use std::time::Clock;

/// A runtime that opens sockets, waits for what comes on them, and tells the time.
pub trait Network: Net<Listener = TcpListener, Stream = TcpStream> + Wait + Clock {}

impl<H: Net<Listener = TcpListener, Stream = TcpStream> + Wait + Clock> Network for H {}

/// The same, which also starts threads. They share it.
pub trait Host: Network + Threads + Sync {}

impl<H: Network + Threads + Sync> Host for H {}
