// The release program: judges the pairs of files that its arguments name, prints each verdict's line with the job's name, and the release
// sheet as its last line.
#![tactic(auto)]

ghost use Rattle.std.specs.Prelude.{◌≡◌, ◌≤◌, length, take};

use loading::load;
use sheet::report;
use std::env::FillError;
use std::io;
use std::rt::{Env, Files};
use tally::Tally;
use telling::put_line;
use verdict::Verdict;

// How many arguments there are, the program's name among them: each is there up to the first that is not.
fn argument_count(rt: &impl Env) -> usize {
    let mut start = [0u8; 1];
    for i in 0..usize::MAX {
        if let Err(FillError::NotPresent) = rt.arg(i, &mut start) {
            return i;
        }
    }
    usize::MAX
}

// Puts an argument at the start of a buffer and gives its length, or 0 where it is missing or longer than the buffer.
fn argument(rt: &impl Env, i: usize, name: &mut [u8]) -> usize
    ensures in_buffer { result ≤ length name.new }
    ensures prefix { result ≡ length (take result name.new) }
{
    rt.arg(i, name).unwrap_or(0)
}

// The verdict on the pair of files that two arguments name, the job's and then the certificate's, printed with the job's name.
fn judge_pair(
    rt: &(impl Env + Files + Print),
    job_argument: usize,
    certificate_argument: usize,
) -> io::Result<Verdict> {
    let mut name = [0u8; 4096];
    let mut job = [0u8; 65537];
    let mut cert = [0u8; 65537];
    let mut line = [0u8; 128];
    let certificate_named = argument(rt, certificate_argument, &mut name);
    let c = load(rt, &name[..certificate_named], &mut cert);
    let named = argument(rt, job_argument, &mut name);
    let j = load(rt, &name[..named], &mut job);
    let judged = checker::check(&job[..j], &cert[..c]);
    let length = put_line(judged, &mut line);
    rt.write_all(&name[..named])?;
    rt.write_all(b": ")?;
    rt.write_all(&line[..length])?;
    rt.write_all(b"\n")?;
    Ok(judged)
}

// The tally after a verdict, or the same where it is full, which is told.
fn taken_in(rt: &impl Eprint, mut tally: Tally, judged: Verdict) -> io::Result<Tally> {
    if tally.take_in(judged).is_err() {
        eprintln!(rt; "the tally is full: this verdict is not in it")?;
    }
    Ok(tally)
}

// Prints the release sheet.
fn print_sheet(rt: &impl Print, tally: Tally) -> io::Result<()> {
    let mut text = [0u8; 56];
    let length = report(tally.verdicts, tally.accepted, tally.covers, &mut text).unwrap();
    rt.write_all(&text[..length])?;
    rt.write_all(b"\n")
}

// Judges each pair that the arguments name.
fn main(rt: HostRuntime) -> io::Result<()> {
    let arguments = argument_count(&rt);
    if arguments < 3 || arguments % 2 == 0 {
        return eprintln!(&rt; "usage: release JOB CERTIFICATE [JOB CERTIFICATE ...]");
    }
    let mut tally = Tally::new();
    let pairs = arguments / 2;
    for i in 0..pairs {
        let judged = judge_pair(&rt, 2 * i + 1, 2 * i + 2)?;
        tally = taken_in(&rt, tally, judged)?;
    }
    print_sheet(&rt, tally)
}
