//! Tests of each call that takes memory. With ample memory it answers. Where one growth is refused, the call reports that, what stands
//! then is as its contract says, and the same call answers the next time. `scripts/refuse_memory` refuses each growth in turn.
mod ample;
mod engines;
mod fits;
mod heaps;
mod histories;
mod profiles;
mod sheets;
mod support;
mod traces;
