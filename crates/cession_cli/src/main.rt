// The program: the table from programme.txt in the current folder, the events from standard input, and on standard
// output the statement of a year opened for them, or the refusal.
#![tactic(auto)]

use engine::run;
use events::rule;
use programme::contract::Programme;
use std::fs::File;
use std::io::Read;
use year::Standing;

// Bytes to standard output. What cannot be written there is let go: the program goes on. No clause can tell
// what is printed, so that a crate for these lines would promise nothing: each program has its own.
fn words(rt: &impl Print, text: &[u8]) {
    let _ = rt.write_all(text);
}

// A number in decimal, likewise.
fn decimal(rt: &impl Print, n: u64) {
    let _ = rt.print(n);
}

// A refusal and its second number, as a line.
fn refuse(rt: &impl Print, refusal: u64, number: u64) {
    words(rt, b"(refused ");
    decimal(rt, refusal);
    words(rt, b" ");
    decimal(rt, number);
    words(rt, b")\n");
}

// A table of 8,192 bytes is accepted: one byte more is read, so that a longer one is refused and not cut.
fn run_file(rt: &(impl Print + Input), mut file: impl Read + Drop) {
    let mut table = [0u8; table::TABLE_BYTES + 1];
    let read = input_text::fill(&mut file, &mut table);
    drop(file);
    match read {
        Ok(size) => run_table(rt, &table[..size]),
        Err(_) => refuse(rt, 0, 0),
    }
}

// A year opened for a table's programme.
fn run_table(rt: &(impl Print + Input), table: &[u8]) {
    let reading = cession::cession_read(table);
    if reading.refusal != 0 {
        refuse(rt, reading.refusal, reading.line);
        return;
    }
    let opening = cession::cession_open(reading.programme);
    if opening.refusal != 0 {
        refuse(rt, opening.refusal, opening.number);
        return;
    }
    run_year(rt, reading.programme, opening.standing);
}

// Events of 65,536 bytes are accepted: one byte more is read here too.
fn run_year(rt: &(impl Print + Input), programme: Programme, standing: Standing) {
    let mut events = [0u8; rule::EVENTS_BYTES + 1];
    match input_text::fill(&mut rt.reader(), &mut events) {
        Ok(size) => run_events(rt, programme, standing, &events[..size]),
        Err(_) => refuse(rt, 0, 0),
    }
}

// The statement of a run, or its refusal. The run is the one by value below `cession_run`: no standing is lent here.
fn run_events(rt: &impl Print, programme: Programme, standing: Standing, events: &[u8]) {
    let mut statement = [0u8; 65536];
    let ran = run::run(programme, standing, events, &mut statement);
    let answer = ran.answer;
    if answer.refusal != 0 {
        refuse(rt, answer.refusal, answer.number);
        return;
    }
    words(rt, &statement[..answer.number as usize]);
}

fn main(rt: HostRuntime) {
    match File::open(&rt, "programme.txt") {
        Ok(file) => run_file(&rt, file),
        Err(_) => refuse(&rt, 0, 0),
    }
}
