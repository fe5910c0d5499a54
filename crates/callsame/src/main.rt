// Reads the call file on standard input, writes it again, and says on standard output whether the bytes are the same.
#![tactic(auto)]

use anyhow::anyhow;
use listing::rewriting::rewriting;
use std::io::Read;

// Reading and printing stand here as in callplay: a function for both could promise nothing, since no contract speaks of input and output.
fn main(rt: HostRuntime) -> anyhow::Result<()> {
    let mut file = Vec::new(rt.alloc());
    rt.stdin().read_to_end(&mut file)?;
    let text = rewriting(rt.alloc(), &file).map_err(|_| anyhow!("no memory for the copy"))?;
    rt.print(text)?;
    Ok(())
}
