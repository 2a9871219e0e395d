//! `mte_host --frames N SCRIPT FILE...`: runs a script of tenants and prints its report.
#![tactic(auto)]

mod blocks;
mod command_line;
mod system;

use blocks::Hot;
use command_line::read_command_line;
use mte_session::{Ending, StreamSink, conclude, finish};
use std::io::BufWriter;
use std::process::ExitCode;
use system::SystemFiles;

fn main(rt: HostRuntime) -> ExitCode {
    let files = &mut SystemFiles(&rt);
    let err = &mut StreamSink(rt.stderr());
    let Ok(blocks) = BufWriter::new(rt.alloc(), rt.stdout()) else {
        return ExitCode::from(finish(&Ending::Memory, err));
    };
    let mut out = StreamSink(blocks);
    let invocation = read_command_line(&rt);
    let status = conclude::<_, _, _, Hot>(rt.alloc(), &invocation, files, &mut out, err);
    if status != 0 {
        out.abandon();
        return ExitCode::from(status);
    }
    match out.finish() {
        Ok(_) => ExitCode::from(0),
        Err(_) => ExitCode::from(finish(&Ending::Write, err)),
    }
}
