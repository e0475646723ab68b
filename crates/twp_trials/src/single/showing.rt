use std::io;
use std::io::Write;

/// The line for a call that succeeded.
pub const ANSWERED: &str = "answered";

/// The line for a call that ran out of memory.
pub const OUT_OF_MEMORY: &str = "out of memory";

/// Prints that everything is made, and that the call is next.
pub fn start(rt: &HostRuntime) -> io::Result<()> {
    rt.println("calling")
}

/// Prints the answer of a call, and after it the bytes that it made or left.
pub fn explain(rt: &HostRuntime, answer: &str, bytes: &[u8]) -> io::Result<()> {
    rt.println(answer)?;
    io::writer(rt).write_all(bytes)
}
