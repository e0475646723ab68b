//! Calls that explain why a file is refused.

use crate::single::showing::{OUT_OF_MEMORY, start};
use std::io;
use std::io::Write;
use twp_diagnose::Given;
use twp_explain::explain_lots;

/// Explains why a lot table is refused, and prints the refusal and the explanation, or that it is accepted.
pub fn explain_table(rt: &HostRuntime, text: &[u8]) -> io::Result<()> {
    let given = Given {
        name: "lots.csv",
        bytes: text,
        first_line: 1,
    };
    start(rt)?;
    match explain_lots(rt.alloc(), &given) {
        Ok(Some(explained)) => {
            let refusal = explained.refusal;
            rt.println(format_args!("refused {} at {}", refusal.number, refusal.at))?;
            io::writer(rt).write_all(explained.text.as_bytes())
        }
        Ok(None) => rt.println("accepted"),
        Err(_) => rt.println(OUT_OF_MEMORY),
    }
}
