use std::io::{self, Read};
use twp_read::Description;

/// Reads standard input as a description, and prints how many items it names, or why it is not one.
pub fn read_text(rt: &HostRuntime) -> io::Result<()> {
    let mut text = Vec::new(rt.alloc());
    let mut reader = rt.reader();
    let mut piece = [0; 4_096];
    for _ in 0..256 {
        let count = reader.read(&mut piece)?;
        if count == 0 {
            break;
        }
        text.extend_from_slice(&piece[..count])?;
    }
    match Description::read(rt.alloc(), text.as_slice()) {
        Ok(description) => rt.println(description.items().len()),
        Err(fault) => rt.println(fault),
    }
}
