//! Tests of what no clause says: the replies to whole streams, byte by byte, and that each call succeeds.
mod lines;
mod pipes;
mod words;
