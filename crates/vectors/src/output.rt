// Standard output, as what `write!` writes to.
use std::fmt;

// The descriptor.
const STDOUT: i32 = 1;

#[derive(Clone, Copy)]
pub struct Stdout;

impl Stdout {
    // No contract can say what became of the bytes: the answer is whether all were taken.
    pub fn write_bytes(&mut self, bytes: &[u8]) -> bool {
        io::write_all(STDOUT, bytes)
    }
}

impl fmt::Write for Stdout {
    fn write_str(&mut self, s: &str) -> fmt::Result {
        if self.write_bytes(s.as_bytes()) {
            Ok(())
        } else {
            Err(fmt::Error)
        }
    }
}
