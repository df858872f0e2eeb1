// The bench program: reads job.bin and cert.bin in the folder that it runs in and prints the verdict in one line.
#![tactic(auto)]

use loading::load;
use std::io;
use telling::put_line;

// Judges the two files.
fn main(rt: HostRuntime) -> io::Result<()> {
    let mut job = [0u8; 65537];
    let mut cert = [0u8; 65537];
    let j = load(&rt, b"job.bin", &mut job);
    let c = load(&rt, b"cert.bin", &mut cert);
    let mut line = [0u8; 128];
    let length = put_line(checker::check(&job[..j], &cert[..c]), &mut line);
    rt.write_all(&line[..length])?;
    rt.write_all(b"\n")
}
