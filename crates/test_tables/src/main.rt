// Tables typed by hand, read and written: a line a case, held to an output that is made from document 01 alone.
// The cases are on standard input, as `list` takes them; those with bytes that no text file should hold are in
// `bytes`.
#![tactic(auto)]

mod bytes;
mod change;
mod length;
mod list;
mod show;
mod task;
mod write;

fn main(rt: HostRuntime) {
    let mut input = [0u8; 65536];
    let (Ok(size) | Err(size)) = input_text::fill(&mut rt.reader(), &mut input);
    let next = list::cases(&rt, &input[..size], 0);
    bytes::cases(&rt);
    list::cases(&rt, &input[..size], next);
}
