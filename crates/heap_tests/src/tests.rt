//! The tests, by what they test; `support` has what they share.
mod heaps;
mod machines;
mod regions;
mod replays;
mod slots;
mod support;
mod traces;
