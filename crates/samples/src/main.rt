// Writes of each sample file, by the names in the file list.txt, its listing and what comes of writing it again.
#![tactic(auto)]

use anyhow::anyhow;
use listing::playing::listing;
use listing::rewriting::rewriting;
use std::fs;

fn list_sample(rt: &HostRuntime, name: &str) -> anyhow::Result<()> {
    let path = format!(in rt.alloc(); "{name}.calls")?;
    let file = fs::read(rt, &path)?;
    let text = listing(rt.alloc(), &file).map_err(|_| anyhow!("no memory for the listing"))?;
    let copied = rewriting(rt.alloc(), &file).map_err(|_| anyhow!("no memory for the copy"))?;
    println!(rt; "== {name}")?;
    rt.print(text)?;
    rt.print(copied)?;
    Ok(())
}

fn main(rt: HostRuntime) -> anyhow::Result<()> {
    let names = fs::read_to_string(&rt, "list.txt")?;
    for name in names.lines() {
        list_sample(&rt, name)?;
    }
    Ok(())
}
