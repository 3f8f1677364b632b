//! Rows of single calls over texts, read from standard input: each is carried out, and those that come out otherwise are
//! written.
#![tactic(auto)]

mod marks;
mod texts;

use crate::texts::Texts;
use pv_io::{StdSource, read_all};
use test_sheet::report;

fn main(rt: HostRuntime) -> anyhow::Result<()> {
    let alloc = rt.alloc();
    let text = read_all(alloc, &mut StdSource::new(rt.stdin()))?;
    let report = report(alloc, str::from_utf8(&text)?, &Texts)?;
    print!(rt; "{report}")?;
    Ok(())
}
