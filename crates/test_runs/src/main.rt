// Runs tried at their boundaries: a line a case, and after it the statement of an accepted run. They are held to an
// output that is made from documents 01 and 02 alone. The cases are on standard input, at most 131,072 bytes, as
// `list::cases` takes them.
#![tactic(auto)]

mod case;
mod list;
mod show;

fn main(rt: HostRuntime) {
    let mut text = [0u8; 131072];
    let (Ok(size) | Err(size)) = input_text::fill(&mut rt.reader(), &mut text);
    list::cases(&rt, &text[..size]);
}
