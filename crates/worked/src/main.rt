// Document 01, "Threads to pull on": each case, with what the code answers. P5 to P11 are put as jobs whose covers show them.
#![tactic(auto)]

use number::{Numeral, Unreadable, WriteRefusal};
use place::Place;
use std::io;
use stepper::Heap64;
use verdict::{Counts, Refused};

// Prints the verdict on a case.
fn judge(rt: &impl Print, name: &str, job: &[u8], cert: &[u8]) -> io::Result<()> {
    match checker::check(job, cert) {
        Ok(
            Counts {
                bads,
                members,
                covers,
                links,
            },
        ) => println!(rt;
            "{name}accepted bads {bads} members {members} covers {covers} links {links}"
        ),
        Err(refused) => say_refusal(rt, name, refused),
    }
}

// Prints what is told of a refused pair.
fn say_refusal(rt: &impl Print, name: &str, refused: Refused) -> io::Result<()> {
    let Refused { refusal, place } = refused;
    let number = verdict::refusal_number(refusal);
    match (verdict::rule_number(refusal), verdict::rule_name(refusal)) {
        (0, _) => println!(rt; "{name}refused {number} at {place}"),
        (rule, of) => println!(rt; "{name}refused {number} at {place} rule {rule} of {of}"),
    }
}

// Prints what is read at the start of some bytes.
fn read(rt: &impl Print, name: &str, bytes: &[u8]) -> io::Result<()> {
    match number::read_number(bytes, 0) {
        Ok(Numeral { value, next }) => println!(rt; "{name}number {value} next {next}"),
        Err(Unreadable { at }) => println!(rt; "{name}refused 3 at {at}"),
    }
}

// Prints what writing a list answers.
fn write(rt: &impl Print, name: &str, numbers: &[u64]) -> io::Result<()> {
    let mut bytes = [0u8; 4];
    match number::write_numbers(numbers, &mut bytes) {
        Ok(k) => println!(rt; "{name}filled {k}"),
        Err(WriteRefusal::TooLarge(i)) => println!(rt; "{name}refused 11 at {i}"),
        Err(WriteRefusal::TooShort(k)) => println!(rt; "{name}refused 12 at {k}"),
    }
}

// J: state 0, new of variable 1, state 1; forbidden there: variable 1 at #.
fn verdicts(rt: &impl Print) -> io::Result<()> {
    let j = [1u8, 1, 2, 0, 1, 0, 6, 1, 0, 1, 1, 1, 0, 1];
    let k = [1u8, 1, 2, 0, 1, 0, 3, 1, 0, 1, 1, 1, 0, 1];
    judge(rt, "P1 ", &j, &[1u8, 1, 1, 0, 1, 0])?;
    judge(rt, "P2 ", &j, &[1u8, 1, 1, 0, 2, 0])?;
    judge(rt, "P3 ", &k, &[1u8, 1, 1, 0, 1, 0])?;
    judge(rt, "P4 ", &k, &[1u8, 2, 1, 0, 1, 0, 0, 0, 0])?;
    judge(
        rt,
        "J and one byte more ",
        &[1u8, 1, 2, 0, 1, 0, 6, 1, 0, 1, 1, 1, 0, 1, 0],
        &[1u8, 1, 1, 0, 1, 0],
    )
}

// One transition from state 0 to state 1, start state 2, and a member at state 0 that everything satisfies: each predecessor is one cover.
fn predecessors(rt: &impl Print) -> io::Result<()> {
    let none = [1u8, 2, 1, 0, 0, 0, 0, 0, 0, 0, 0, 1, 1, 1];
    judge(
        rt,
        "P5 three predecessors: ",
        &[1u8, 2, 3, 2, 1, 0, 2, 1, 2, 1, 1, 1, 0, 0, 0],
        &none,
    )?;
    judge(
        rt,
        "P6 two predecessors: ",
        &[1u8, 2, 3, 2, 1, 0, 1, 1, 2, 1, 1, 1, 0, 0, 0],
        &none[..13],
    )
}

// The same with one variable and one member more at state 0.
fn removals(rt: &impl Print) -> io::Result<()> {
    judge(
        rt,
        "P7 one predecessor: ",
        &[1u8, 1, 3, 2, 1, 0, 4, 1, 1, 1, 1, 1, 0, 1],
        &[1u8, 2, 1, 0, 1, 0, 0, 0, 0, 1],
    )?;
    judge(
        rt,
        "P8 none: ",
        &[1u8, 1, 3, 2, 1, 0, 6, 1, 0, 1, 1, 1, 1, 3, 3],
        &[1u8, 1, 1, 1, 3, 3, 0, 0],
    )?;
    judge(
        rt,
        "P9 one, without cells: ",
        &[1u8, 1, 3, 2, 1, 0, 6, 1, 0, 1, 1, 1, 1, 3, 2],
        &[1u8, 2, 1, 1, 3, 2, 0, 0, 0, 0, 0, 1],
    )
}

// No transitions: the one cover is of the forbidden shape, four cells with links from 0 to 2, 1 to 2, 2 to 3.
fn embeddings(rt: &impl Print) -> io::Result<()> {
    let fork = [1u8, 1, 1, 0, 0, 1, 0, 4, 0, 5, 5, 6, 0];
    judge(
        rt,
        "P10 shared path: ",
        &fork,
        &[1u8, 1, 0, 3, 0, 5, 5, 0, 0, 0, 1, 3],
    )?;
    judge(rt, "P11 embeds: ", &fork, &[1u8, 1, 0, 2, 0, 4, 0, 0, 0, 3])
}

// Shapes of 12 and of 13 cells.
fn sizes(rt: &impl Print) -> io::Result<()> {
    judge(
        rt,
        "12 cells in the job: ",
        &[
            1u8, 1, 1, 0, 0, 1, 0, 12, 0, 0, 0, 0, 0, 0, 0, 0, 0, 0, 0, 0, 0,
        ],
        &[1u8, 1, 0, 0, 1],
    )?;
    judge(
        rt,
        "13 cells in the job: ",
        &[
            1u8, 1, 1, 0, 0, 1, 0, 13, 0, 0, 0, 0, 0, 0, 0, 0, 0, 0, 0, 0, 0, 0,
        ],
        &[1u8, 1, 0, 0, 1],
    )?;
    judge(
        rt,
        "12 cells in the certificate: ",
        &[1u8, 1, 1, 0, 0, 1, 0, 0, 1],
        &[1u8, 1, 0, 12, 0, 0, 0, 0, 0, 0, 0, 0, 0, 0, 0, 0, 0, 0],
    )?;
    judge(
        rt,
        "13 cells in the certificate: ",
        &[1u8, 1, 1, 0, 0, 1, 0, 0, 1],
        &[1u8, 1, 0, 13, 0, 0, 0, 0, 0, 0, 0, 0, 0, 0, 0, 0, 0, 0, 0],
    )
}

// Prints what becomes of a step of that kind, both operands variable 1.
fn say_step(rt: &impl Print, name: &str, heap: Heap64, kind: u32) -> io::Result<()> {
    let outcome = stepper::outcome_code(heap.step(kind, 1, 1, 0).outcome);
    println!(rt; "{name}{outcome}")
}

// Variable 1 at the one used cell, which is linked to * and has no value: kind 4 finds b's link at *, kind 8 no value.
fn blocked(rt: &impl Print) -> io::Result<()> {
    let mut vars = [Place::NOWHERE; 8];
    let mut used = [false; 64];
    let mut links = [Place::NOWHERE; 64];
    let values = [0u32; 64];
    vars[0] = Place::cell(0);
    used[0] = true;
    links[0] = Place::DANGLING;
    let heap = Heap64 {
        variables: 1,
        vars,
        used,
        links,
        values,
    };
    say_step(rt, "b's link at *, step 4 ", heap, 4)?;
    say_step(rt, "no value, step 8 ", heap, 8)
}

// All cases, in the order of the rules.
fn main(rt: HostRuntime) -> io::Result<()> {
    verdicts(&rt)?;
    predecessors(&rt)?;
    removals(&rt)?;
    embeddings(&rt)?;
    sizes(&rt)?;
    read(&rt, "P12 ", &[128u8, 0])?;
    read(&rt, "65,536 ", &[128u8, 128, 4])?;
    read(&rt, "65,535 ", &[255u8, 255, 3])?;
    write(&rt, "no numbers ", &[])?;
    write(&rt, "127 128 ", &[127u64, 128])?;
    write(&rt, "65,536 ", &[1u64, 65536])?;
    write(&rt, "five bytes ", &[128u64, 128, 1])?;
    blocked(&rt)
}
