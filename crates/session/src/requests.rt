// The arguments of the program, and its usage.
ghost use Rattle.std.specs.Prelude.{◌≡◌, map, string_bytes};
ghost use Rattle.session.specs.Requests.{is_help, request_of, Shows};

use lines::outputs::write_through;
use std::io;
use std::io::Write;

const USAGE: &str = "\
    usage: barometer < LINES\n\
    Answers each line of standard input on standard output, on a store whose flash is in memory:\n\
    format, recover, begin, put NAME v, commit, abandon, get NAME, temp v, press v, plan c r p.\n\
    --help, -h  show this\n";

/// What the arguments ask for.
#[derive(Clone, Copy, PartialEq, Eq, Debug)]
pub enum Request {
    /// lines are answered
    Lines,
    /// the usage is shown
    Usage,
    /// nothing that the program has
    Unknown,
}

fn is_help(argument: &str) -> bool
    ensures { result ≡ is_help argument.now }
{
    matches!(argument, "--help" | "-h")
}

/// What the arguments ask for, given without the program's name.
pub fn request_of(arguments: &[String]) -> Request
    ensures { result ≡ request_of (map string_bytes arguments.now) }
{
    match arguments {
        [] => Request::Lines,
        [argument] if is_help(argument.as_str()) => Request::Usage,
        _ => Request::Unknown,
    }
}

/// Shows the usage where it is asked for, or where the arguments ask for nothing that there is.
pub fn show_usage<O: Write, E: Write>(
    request: Request,
    output: &mut O,
    errors: &mut E,
) -> io::Result<()>
    ensures { Shows USAGE.now request (O.contents output.old) (O.contents output.new)
        (E.contents errors.old) (E.contents errors.new) result }
{
    match request {
        Request::Lines => Ok(()),
        Request::Usage => write_through(output, USAGE.as_bytes()),
        Request::Unknown => write_through(errors, USAGE.as_bytes()),
    }
}
