//! Worked cases of what reads definitions, values and policies, and of the links that definitions ask for. Each line of a
//! file of cases is one case; what the public calls answered is printed, so that the expected answers of all cases are this
//! program's expected output.
#![tactic(auto)]

mod case;
mod files;
mod links;
mod objects;
mod parameters;
mod policies;
mod values;

use case::{Case, lines_of};
use std::fs;

fn main(rt: HostRuntime) -> anyhow::Result<()> {
    for file in ["exports", "kept", "refused", "values", "policies", "links"] {
        println!(rt; "# {file}")?;
        let text = fs::read_to_string(&rt, file)?;
        for line in lines_of(rt.alloc(), text.as_str())? {
            run(&rt, file, &Case::read(line)?)?;
        }
    }
    Ok(())
}

/// Does a case of a file.
fn run(rt: &HostRuntime, file: &str, case: &Case<'_>) -> anyhow::Result<()> {
    match file {
        "exports" => files::tell_file(rt, case),
        "kept" => files::tell_kept(rt, case),
        "refused" => files::tell_refusal(rt, case),
        "values" => values::run(rt, case),
        "policies" => policies::run(rt, case),
        _ => links::run(rt, case),
    }
}
