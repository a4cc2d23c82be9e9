//! Layouts of stabby types, computed at run time: the program.
#![tactic(auto)]

mod answer;
mod command;
#[cfg(test)]
mod edit_tests;
mod failed;
mod fault;
#[cfg(test)]
mod fault_tests;
#[cfg(test)]
mod form_tests;
mod job_error;
#[cfg(test)]
mod key_tests;
#[cfg(test)]
mod layout_tests;
#[cfg(test)]
mod library_tests;
mod made_outcome;
#[cfg(test)]
mod made_tests;
mod made_text;
mod mem_sink;
mod mem_source;
mod outcome;
#[cfg(test)]
mod plan_tests;
#[cfg(test)]
mod primitive_tests;
mod read_all;
#[cfg(test)]
mod read_tests;
mod reading;
#[cfg(test)]
mod refused_tests;
mod reply;
#[cfg(test)]
mod report_tests;
mod report_text;
mod run_document;
mod run_made;
mod sink;
mod source;
mod std_sink;
mod std_source;
mod sum_text;
#[cfg(test)]
mod target_tests;
#[cfg(test)]
mod tests;
mod text;
mod tool;
mod value_text;
mod write_all;
#[cfg(test)]
mod written_tests;

use abi_num::Text;
use std::env;
use std::io::{Error, ErrorKind};
use std::process::ExitCode;
use std_sink::StdSink;
use std_source::StdSource;

fn main(rt: HostRuntime) -> ExitCode {
    match words_of(&rt) {
        Ok(words) => {
            let mut source = StdSource::new(rt.stdin());
            let mut sink = StdSink::new(rt.stdout());
            ExitCode::from(tool::tool(rt.alloc(), &words, &mut source, &mut sink))
        }
        Err(error) if error.kind() == ErrorKind::OutOfMemory => ExitCode::from(8),
        Err(_) => ExitCode::from(1),
    }
}

// The words after the program's name.
fn words_of(rt: &HostRuntime) -> Result<Vec<Text>, Error> {
    let mut words = Vec::new(rt.alloc());
    for word in env::args(rt)?.skip(1) {
        words.push(Text::from(word))?;
    }
    Ok(words)
}
