#![tactic(auto)]

mod rated;

use anyhow::anyhow;
use rated::rate_text;
use rating::page::MOST_PAGE;
use std::io;
use std::io::{Read, Write};
use writing::page::fail_line;

// The program takes so many bytes; the longest right text is shorter.
const MOST_TEXT: u64 = 65_536;

// Standard input, up to its end or as much as the program takes.
fn read_text(rt: &HostRuntime) -> io::Result<Vec<u8>> {
    let mut text = Vec::new(rt.alloc());
    rt.stdin().take(MOST_TEXT).read_to_end(&mut text)?;
    Ok(text)
}

fn main(rt: HostRuntime) -> anyhow::Result<()> {
    let text = read_text(&rt)?;
    let mut page = vec![in rt.alloc(); 0u8; MOST_PAGE]?;
    let mut output = rt.stdout();
    match rate_text(&text, &mut page) {
        Ok(length) => {
            page.truncate(length);
            output.write_all(&page)?;
            Ok(())
        }
        Err(refusal) => {
            output.write_all(&fail_line(&refusal))?;
            Err(anyhow!("refused"))
        }
    }
}
