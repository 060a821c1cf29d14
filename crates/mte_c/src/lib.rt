//! The library for C: the commands over inputs in memory, `score`, `tune` and `check` over arrays, and the heap by a handle; and the functions
//! that C calls, in `exports`. `library/pointers.c` looks for null pointers and numbers out of range before it calls them, and
//! `include/mte_tool.h` declares that.
#![tactic(auto)]

pub mod arrays;
pub mod commands;
mod exports;
pub mod heap;
