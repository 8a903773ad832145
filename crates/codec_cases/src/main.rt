//! Worked cases of AMQP's tables, headers, matches and URIs. Each line of a file of cases is one case; its name and what the
//! public calls answered are printed, so that the expected answers of all cases are this program's expected output.
#![tactic(auto)]

mod bindings;
mod case;
mod headers;
mod hops;
mod links;
mod tables;
mod uris;

use case::{Case, lines_of};
use std::fs;

fn main(rt: HostRuntime) -> anyhow::Result<()> {
    for file in [
        "field_tables",
        "binding_match",
        "amqp_props",
        "hop_headers",
        "amqp_uri",
    ] {
        println!(rt; "# {file}")?;
        let text = fs::read_to_string(&rt, file)?;
        for line in lines_of(rt.alloc(), text.as_str())? {
            let case = Case::read(rt.alloc(), line)?;
            run(&rt, file, &case)?;
        }
    }
    laws();
    Ok(())
}

/// Does a case of a file.
fn run(rt: &(impl Print + AllocGlobal), file: &str, case: &Case<'_>) -> anyhow::Result<()> {
    match file {
        "field_tables" => tables::run(rt, case),
        "binding_match" => bindings::run(rt, case),
        "amqp_props" => headers::run(rt, case),
        "hop_headers" => hops::run(rt, case),
        _ => uris::run(rt, case),
    }
}

/// The functions whose contracts are laws.
fn laws() {
    amqp_props::headers_are_one();
    field_tables::tables_are_apart();
    field_tables::values_are_apart();
    hop_headers::gates_decide();
    hop_headers::propagation_goes_on();
    hop_headers::results_have_spellings();
    hop_headers::stamps_name_the_place();
}
