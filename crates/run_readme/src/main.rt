#![tactic(auto)]

use anyhow::Result;
use vortex_buffer::BitBufferMut;

fn main(rt: HostRuntime) -> Result<()> {
    let mut rows = BitBufferMut::new_set(rt.alloc(), 4)?;
    rows.append(false)?;
    let shared = rows.freeze()?;
    println!(rt; "first unset row: {:?}", shared.select_unset(0))?;
    drop(shared);
    Ok(())
}
