//! `mte_tool`: size-class tables, and a heap with memory tags, on what a program really allocates. It runs the call that the words of its
//! command line mean (`command_words`) by the call's engine (`mte_engine`), from standard input to standard output.
#![tactic(auto)]

mod end;
mod laws;
mod lines;
mod program;
mod running;

use crate::end::End;
use mte_engine::{StreamSink, StreamSource};
use std::io::{Input, IsTerminal, writer};

fn main(rt: HostRuntime) -> End {
    let stderr = rt.stderr();
    let mut source = StreamSource::new(rt.reader());
    let mut sink = StreamSink::new(writer(&rt));
    let mut errors = StreamSink::new(writer(&stderr));
    program::run(
        rt.alloc(),
        program::words(&rt),
        rt.stdin().is_terminal(),
        &mut source,
        &mut sink,
        &mut errors,
    )
}
