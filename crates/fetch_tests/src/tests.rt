//! A fetch thread beside an origin: what clients ask for and see, a file for each part.

mod asking;
mod clients;
mod lookup;
mod origin;
mod replies;
mod running;
mod scripted;
mod served;
mod slow;
mod waking;
