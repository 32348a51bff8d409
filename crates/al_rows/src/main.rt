//! Runs cases that are data through the program's commands, over a disk, a source, a sink and a clock in memory.
#![tactic(auto)]

mod constants;
mod each;
mod escapes;
mod fault;
mod lines;
mod messages;
mod phrase;
mod row;
mod runner;
mod trial;

use fault::Fault;
use runner::Runner;
use std::process::ExitCode;
use std::rt::{Env, Files};
use std::{env, fs};

fn main(rt: HostRuntime) -> ExitCode {
    let mut runner = Runner::new(rt.alloc());
    match run_files(&rt, &mut runner) {
        Ok(()) => {
            let _ = rt.print(runner.report());
            let rows = runner.rows();
            let wrong = runner.wrong();
            let _ = println!(rt; "{rows} rows, {wrong} wrong");
            ExitCode::from(u8::from(wrong != 0))
        }
        Err(_) => {
            let row = runner.row_name();
            let line = runner.line();
            let _ = println!(rt; "not read: row {row}, line {line} of its file");
            ExitCode::from(1)
        }
    }
}

/// Runs the rows of the files that the words name.
fn run_files<R: Env + Files + AllocGlobal>(rt: &R, runner: &mut Runner) -> Result<(), Fault> {
    let Ok(mut names) = env::args(rt) else {
        return Err(Fault::Form);
    };
    let _program = names.next();
    for name in names {
        run_file(rt, runner, name.as_str())?;
    }
    Ok(())
}

fn run_file<R: Files + AllocGlobal>(rt: &R, runner: &mut Runner, name: &str) -> Result<(), Fault> {
    let Ok(text) = fs::read_to_string(rt, name) else {
        return Err(Fault::Form);
    };
    runner.take_file(text.as_str())
}
