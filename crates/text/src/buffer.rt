// Writing into a lent buffer, of bytes or of numbers. A writer stores only below the buffer's length and always answers
// the next place, so that it measures on an empty part of the buffer and writes on the whole of it. One that asks for
// room stores without a test. Buffer and place go side by side: a struct of both would make each contract say besides
// that its field still holds the same reference.
ghost use Rattle.std.specs.Prelude.{◌+◌, ◌^◌, ◌<◌, ◌≤◌, [], ◌∷◌, length};
ghost use Rattle.text.specs.Buffer.{Put};

// One element.
pub fn put<T: Copy>(out: &mut [T], at: usize, element: T) -> usize
    requires { at < 2 ^ 63 }
    ensures { Put out.old at (element ∷ []) out.new result }
{
    if at < out.len() {
        out[at] = element;
    }
    at + 1
}

// Some elements, where there is room for them.
pub fn put_within<T: Copy>(out: &mut [T], at: usize, elements: &[T]) -> usize
    requires { at + length elements.now ≤ length out.old }
    ensures { Put out.old at elements.now out.new result }
{
    for (i, element) in elements.iter().enumerate() {
        out[at + i] = *element;
    }
    at + elements.len()
}

// Some elements as far as there is room.
pub fn put_all<T: Copy>(out: &mut [T], at: usize, elements: &[T]) -> usize
    requires { at + length elements.now < 2 ^ 63 }
    ensures { Put out.old at elements.now out.new result }
{
    let mut next = at;
    for element in elements {
        next = put(out, next, *element);
    }
    next
}
