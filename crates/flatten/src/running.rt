// The program over a runtime.
use crate::answering::Answer;
use crate::options::Options;
use clap::error::ErrorKind;
use std::process::ExitCode;
use std::rt::Env;
use std::{env, io};

// The status where the arguments are not understood.
const MISUSE: u8 = 2;

// The words of the command line; none where one of them is no text.
fn words<R: Env + AllocGlobal>(rt: &R) -> anyhow::Result<Option<Vec<String>>> {
    match env::args(rt) {
        Ok(words) => Ok(Some(words.collect(rt.alloc())?)),
        Err(error) if error.kind() == io::ErrorKind::InvalidData => Ok(None),
        Err(error) => Err(error.into()),
    }
}

// Prints what is wrong with the arguments, or the help that they ask for.
fn explain<R: Print + Eprint>(rt: &R, error: &clap::Error) -> anyhow::Result<ExitCode> {
    if error.kind() == ErrorKind::OutOfMemory {
        anyhow::bail!("out of memory");
    }
    error.print(rt)?;
    Ok(ExitCode::from(error.exit_code() as u8))
}

// Reads the file, and prints the answer.
fn print_answer<R: Input + Print + AllocGlobal>(
    rt: &R,
    options: Options,
) -> anyhow::Result<ExitCode> {
    let answer = Answer::to(rt.alloc(), rt.reader(), options)?;
    print!(rt; "{}", answer.text)?;
    Ok(ExitCode::from(options.status(answer.refused)))
}

/// Runs the program: its arguments, its standard input and what it prints are the runtime's.
pub fn run<R: Env + Input + Print + Eprint + AllocGlobal>(rt: &R) -> anyhow::Result<ExitCode> {
    let Some(words) = words(rt)? else {
        eprintln!(rt; "error: an argument is no text: it is not valid UTF-8")?;
        return Ok(ExitCode::from(MISUSE));
    };
    match Options::parse(rt.alloc(), &words) {
        Ok(options) => print_answer(rt, options),
        Err(error) => explain(rt, &error),
    }
}
