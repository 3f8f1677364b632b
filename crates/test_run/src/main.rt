//! Rows of runs, read from standard input: each is carried out, and those that come out otherwise are written.
#![tactic(auto)]

mod answers;
mod folder_answers;
mod folders;
mod hosts;
mod readings;
mod runs;
mod stops;

use crate::answers::Runs;
use pv_io::{StdSource, read_all};
use test_sheet::report;

fn main(rt: HostRuntime) -> anyhow::Result<()> {
    let alloc = rt.alloc();
    let text = read_all(alloc, &mut StdSource::new(rt.stdin()))?;
    let report = report(alloc, str::from_utf8(&text)?, &Runs)?;
    print!(rt; "{report}")?;
    Ok(())
}
