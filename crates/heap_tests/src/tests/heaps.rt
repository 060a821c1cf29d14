//! The heap: worked traces as calls, with the tags that are drawn.
mod accesses;
mod calls;
mod filling;
mod reallocs;
mod requests;
mod reuse;
