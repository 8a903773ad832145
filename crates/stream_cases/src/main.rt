//! Worked cases of AMQP's streams: methods, frames, commands and sessions. Each line of a file of cases is one case; its name
//! and what the public calls answered are printed, so that the expected answers of all cases are this program's expected
//! output.
#![tactic(auto)]

mod case;
mod commands;
mod frames;
mod methods;
mod session;

use case::{Case, lines_of};
use std::fs;

fn main(rt: HostRuntime) -> anyhow::Result<()> {
    for file in ["amqp_methods", "amqp_frames", "amqp_content", "session"] {
        println!(rt; "# {file}")?;
        let text = fs::read_to_string(&rt, file)?;
        for line in lines_of(rt.alloc(), text.as_str())? {
            let case = Case::read(rt.alloc(), line)?;
            run(&rt, file, &case)?;
        }
    }
    laws();
    Ok(())
}

/// Does a case of a file.
fn run(rt: &(impl Print + AllocGlobal), file: &str, case: &Case<'_>) -> anyhow::Result<()> {
    match file {
        "amqp_methods" => methods::run(rt, case),
        "amqp_frames" => frames::run(rt, case),
        "amqp_content" => commands::run(rt, case),
        _ => session::run(rt, case),
    }
}

/// The functions whose contracts are laws.
fn laws() {
    amqp_content::commands_are_one();
    amqp_content::parts_are_no_commands();
    amqp_content::parts_begin_commands();
    amqp_frames::faults_are_one();
    amqp_frames::frames_are_apart();
    amqp_frames::frames_are_one();
    amqp_frames::parts_are_short();
    amqp_frames::parts_have_no_fault();
    amqp_methods::rows_are_methods();
    amqp_methods::rows_are_once();
}
