// The list of prices on the input, the help text, and how a program ends.
ghost use Rattle.std.specs.Prelude.{◌≡◌, ◌≤◌, IfOk};
ghost use Rattle.console.specs.Status.{exit_status};

use anyhow::bail;
use prices::parse;
use std::env;
use std::io::Read;
use std::process::ExitCode;

// What the arguments ask for.
enum Request {
    Work,
    Help,
    Unknown,
}

// Runs the work on the list from standard input, and ends as it came out. What is read no contract can say.
pub fn start<F: FnOnce(&[u32]) -> anyhow::Result<()>>(
    rt: &HostRuntime,
    name: &str,
    help: &str,
    work: F,
) -> anyhow::Result<ExitCode>
    requires { F.IsAlwaysCallable work }
    ensures { IfOk result (λ code. code.status ≤ 1) }
{
    end(rt, name, answer(rt, help, work))
}

// Ends a program whose work came out so: status 0 where it was done, and else 1, with what went wrong after the program's name.
pub fn end(rt: &HostRuntime, name: &str, done: anyhow::Result<()>) -> anyhow::Result<ExitCode>
    ensures { IfOk result (λ code. code.status ≡ exit_status done) }
{
    match done {
        Ok(()) => Ok(ExitCode::SUCCESS),
        Err(error) => {
            eprintln!(rt; "{name}: {error:#}")?;
            Ok(ExitCode::FAILURE)
        }
    }
}

// The work where no argument is given, the help text for `--help`, and an error for any other argument.
fn answer<F: FnOnce(&[u32]) -> anyhow::Result<()>>(
    rt: &HostRuntime,
    help: &str,
    work: F,
) -> anyhow::Result<()>
    requires { F.IsAlwaysCallable work }
{
    match asked(rt)? {
        Request::Work => work(&read_list(rt)?),
        Request::Help => Ok(println!(rt; "{help}")?),
        Request::Unknown => {
            eprintln!(rt; "{help}")?;
            bail!("no argument is known but --help")
        }
    }
}

fn asked(rt: &HostRuntime) -> anyhow::Result<Request> {
    let mut arguments = env::args(rt)?.skip(1);
    let Some(first) = arguments.next() else {
        return Ok(Request::Work);
    };
    if first.as_str() == "--help" && arguments.next().is_none() {
        return Ok(Request::Help);
    }
    Ok(Request::Unknown)
}

// The list of prices on standard input.
fn read_list(rt: &HostRuntime) -> anyhow::Result<Vec<u32>> {
    let heap = rt.alloc();
    let mut text = Vec::new(heap);
    rt.stdin().read_to_end(&mut text)?;
    Ok(parse(heap, &text)?)
}
