// A session with the store of a barometer: each line on standard input is a command, each line on
// standard output its answer, given at once.
#![tactic(auto)]

use session::exchanges::{AnswerError, answer_all, unless_closed};
use session::requests::{Request, request_of, show_usage};
use session::sessions::Session;
use std::env;
use std::io::BufReader;
use std::process::ExitCode;

fn answer_lines(rt: &HostRuntime) -> anyhow::Result<ExitCode> {
    let mut input = BufReader::new(rt.alloc(), rt.stdin())?;
    let mut session = Session::blank(rt.alloc())?;
    let done = answer_all(rt.alloc(), &mut session, &mut input, &mut rt.stdout());
    let _ = session.finish();
    unless_closed(done)?;
    Ok(ExitCode::SUCCESS)
}

fn show(rt: &HostRuntime, request: Request) -> anyhow::Result<ExitCode> {
    let shown = show_usage(request, &mut rt.stdout(), &mut rt.stderr());
    unless_closed(shown.map_err(AnswerError::Write))?;
    Ok(if request == Request::Unknown {
        ExitCode::FAILURE
    } else {
        ExitCode::SUCCESS
    })
}

fn request(rt: &HostRuntime) -> anyhow::Result<Request> {
    // an argument that is no text is none that the program has
    let Ok(arguments) = env::args(rt) else {
        return Ok(Request::Unknown);
    };
    let arguments: Vec<String> = arguments.skip(1).collect(rt.alloc())?;
    Ok(request_of(&arguments))
}

fn run(rt: &HostRuntime) -> anyhow::Result<ExitCode> {
    match request(rt)? {
        Request::Lines => answer_lines(rt),
        request => show(rt, request),
    }
}

fn main(rt: HostRuntime) -> anyhow::Result<ExitCode> {
    run(&rt)
}
