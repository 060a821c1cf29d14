//! The machine: worked examples of its rules, and accesses at every edge.
mod accesses;
mod calls;
mod draws;
mod tags;
