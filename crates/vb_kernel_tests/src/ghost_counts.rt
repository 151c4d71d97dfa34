//! A count that contracts alone see.
use crate::compared::equal;
use std::mem::size_of;
use vb_count::GhostCount;

#[test]
fn takes_no_bytes(rt: HostRuntime) {
    equal(&rt, size_of::<GhostCount>(), 0);
    equal(&rt, size_of::<(GhostCount, u64)>(), 8);
}
