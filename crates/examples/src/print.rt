// Names and numbers on a line of standard output. `print!` would need the runtime passed through every function.

// The descriptor of standard output.
const STDOUT: i32 = 1;

pub(crate) fn name(text: &[u8]) {
    io::write_all(STDOUT, text);
}

// A number after a space.
pub(crate) fn number<T: Into<u64>>(x: T) {
    io::write_all(STDOUT, b" ");
    io::print_decimal(STDOUT, x.into());
}

pub(crate) fn numbers<T: Copy + Into<u64>>(xs: &[T]) {
    for x in xs {
        number(*x);
    }
}

pub(crate) fn end() {
    io::write_all(STDOUT, b"\n");
}

pub(crate) fn bad_case() {
    io::write_all(STDOUT, b"bad case");
}
