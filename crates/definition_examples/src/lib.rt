//! Definitions of tables, footprints, timelines and verdicts at worked examples, which the kernel computes (in `proofs/`). It computes nothing.
#![tactic(auto)]
