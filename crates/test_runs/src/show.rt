// Words, numbers and standings on standard output.
use year::Standing;

// What cannot be written is let go: the program goes on. No clause can tell
// what is printed, so that a crate for these lines would promise nothing: each program has its own.
pub fn words(rt: &impl Print, text: &[u8]) {
    let _ = rt.write_all(text);
}

pub fn number(rt: &impl Print, n: u64) {
    words(rt, b" ");
    let _ = rt.print(n);
}

fn numbers(rt: &impl Print, numbers: &[u64]) {
    for n in numbers {
        number(rt, *n);
    }
}

// All thirty-three numbers, so that a missing layer's are seen too.
pub fn standing(rt: &impl Print, standing: &Standing) {
    words(rt, b" day");
    number(rt, standing.day);
    words(rt, b" risk");
    numbers(rt, &standing.risk);
    words(rt, b" cat");
    numbers(rt, &standing.cat);
    words(rt, b" timed risk");
    numbers(rt, &standing.risk_timed);
    words(rt, b" cat");
    numbers(rt, &standing.cat_timed);
}
