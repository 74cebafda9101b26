//! The program: a schedule on standard input, what its turns did on standard output. After the argument `--explain`
//! refused turns and a malformed line are explained on standard error. After `--turns` and `--words` the output
//! is what each turn did, and what stands after it.
#![tactic(auto)]

mod shown;

use schedule::arguments::{is_given, unread};
use schedule::explained::run_and_explain;
use schedule::run_and_tell;
use shown::run_and_show;
use std::io;
use std::process::ExitCode;

/// What is printed.
#[derive(Clone, Copy)]
enum Form {
    Told,
    Explained,
    /// The output tells turn by turn, with all words where this is true.
    Turns(bool),
}

/// Which form the argument asks for, the only one that is given. None where it is another.
fn form_asked(rt: &HostRuntime) -> io::Result<Option<Form>> {
    match is_given(rt, "--explain")? {
        Some(true) => Ok(Some(Form::Explained)),
        Some(false) => Ok(Some(Form::Told)),
        None => turns_asked(rt),
    }
}

/// Whether `--turns` or `--words` is given.
fn turns_asked(rt: &HostRuntime) -> io::Result<Option<Form>> {
    if is_given(rt, "--turns")?.is_some() {
        return Ok(Some(Form::Turns(false)));
    }
    if is_given(rt, "--words")?.is_some() {
        return Ok(Some(Form::Turns(true)));
    }
    Ok(None)
}

/// Reads a schedule from standard input, and runs it in the form that the argument asks for. It exits with
/// the status of the run.
fn main(rt: HostRuntime) -> io::Result<ExitCode> {
    let form = match form_asked(&rt) {
        Ok(Some(form)) => form,
        Ok(None) => {
            eprintln!(rt; "usage: schedule [--explain | --turns | --words] <SCHEDULE")?;
            return Ok(ExitCode::from(2));
        }
        Err(error) => return unread(error, &mut rt.stderr()),
    };
    let (reader, output, errors) = (&mut rt.stdin(), &mut rt.stdout(), &mut rt.stderr());
    let exit = match form {
        Form::Told => run_and_tell(rt.alloc(), rt.alloc(), reader, output, errors),
        Form::Explained => run_and_explain(rt.alloc(), reader, output, errors),
        Form::Turns(has_words) => run_and_show(rt.alloc(), has_words, reader, output, errors),
    };
    Ok(ExitCode::from(exit))
}
