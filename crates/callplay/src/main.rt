// Plays the call file on standard input and writes its listing to standard output.
#![tactic(auto)]

use anyhow::anyhow;
use listing::playing::listing;
use std::io::Read;

// Reading and printing stand here as in callsame: a function for both could promise nothing, since no contract speaks of input and output.
fn main(rt: HostRuntime) -> anyhow::Result<()> {
    let mut file = Vec::new(rt.alloc());
    rt.stdin().read_to_end(&mut file)?;
    let text = listing(rt.alloc(), &file).map_err(|_| anyhow!("no memory for the listing"))?;
    rt.print(text)?;
    Ok(())
}
