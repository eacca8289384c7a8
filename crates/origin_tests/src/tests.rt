//! Replies, requests and URLs, and the connections in memory that they are tried over.

mod driven;
mod endpoints;
mod replies;
mod requests;
