#![tactic(auto)]

mod agree;
mod compare;
mod copies;
mod entry;
mod four;
mod kind;
mod order;
mod orders;
mod script;
mod scripts;
mod show;
mod source;
mod stop;
#[cfg(test)]
mod tests;

use anyhow::anyhow;
use compare::compare;
use network::table::MOST_PIPES;
use script::Script;
use scripts::read_script;
use show::{show_calls, show_refusal};
use std::io::Read;
use stop::Stop;
use writing::sheet_lines::MOST_SHEET;

// Carries out a script, and shows the answers and whether they agree.
fn compare_engines(rt: &HostRuntime, script: &Script) -> anyhow::Result<()> {
    let (four, difference) = compare(rt.alloc(), script)?;
    show_calls(rt, script, &four)?;
    match difference {
        None => println!(rt; "all agree")?,
        Some(call) => println!(rt; "THE ENGINES DIFFER at call {call}")?,
    }
    Ok(())
}

fn main(rt: HostRuntime) -> anyhow::Result<()> {
    let mut text = Vec::new(rt.alloc());
    rt.stdin().read_to_end(&mut text)?;
    let space = vec![in rt.alloc(); b' '; MOST_SHEET]?;
    let row = vec![in rt.alloc(); 0u32; MOST_PIPES]?;
    match read_script(rt.alloc(), &text, &space, &row) {
        Ok(script) => compare_engines(&rt, &script),
        Err(Stop::Unread(refusal)) => {
            show_refusal(&rt, &refusal)?;
            Err(anyhow!("refused"))
        }
        Err(Stop::Memory) => Err(anyhow!("no memory")),
    }
}
