//! Jobs over a few small files.

mod ahead;
mod calls;
mod kinds;
mod lengths;
mod meeting;
mod reading_ahead;
mod reading_beside;
mod taking;
