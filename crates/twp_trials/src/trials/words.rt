//! Command lines. The first word is the program's name.

use std::alloc::AllocError;
use std::io;
use twp_plat::Account;
use twp_program::{Name, Task, TaskFault, read_task};

/// Words separated by single spaces.
static COMMAND_LINES: [&str; 10] = [
    "township",
    "township --help",
    "township acres n.csv d.txt",
    "township acres --account plat n.csv d.txt",
    "township acres --account exact n.csv d.txt",
    "township acres --account deed n.csv d.txt",
    "township acres n.csv",
    "township plat n.csv",
    "township normal n.csv d.txt",
    "township report n.csv t.csv",
];

/// Prints the task that each command line asks for.
pub fn try_words(rt: &HostRuntime) -> io::Result<()> {
    for line in COMMAND_LINES.iter() {
        rt.print("read_task(")?;
        rt.print(line)?;
        rt.print("): ")?;
        let words = words_of(rt, line)?;
        match read_task(rt.alloc(), words) {
            Ok(task) => print_task(rt, &task)?,
            Err(fault) => rt.println(name_of(&fault))?,
        }
    }
    Ok(())
}

/// The words of a command line.
fn words_of(rt: &HostRuntime, line: &str) -> Result<Vec<String>, AllocError> {
    let mut words = Vec::new(rt.alloc());
    for word in line.split(' ') {
        words.push(String::from_str(rt.alloc(), word)?)?;
    }
    Ok(words)
}

/// The name of a fault, without its text.
fn name_of(fault: &TaskFault) -> &'static str {
    match fault {
        TaskFault::Usage { .. } => "Usage",
        TaskFault::Help { .. } => "Help",
        TaskFault::Memory => "Memory",
    }
}

/// Prints a task and its files.
fn print_task(rt: &HostRuntime, task: &Task) -> io::Result<()> {
    match task {
        Task::Plat { notes } => print_files(rt, "Plat of ", notes, None),
        Task::Acres {
            notes,
            description,
            account,
        } => {
            let lead = match account {
                Account::Exact => "Acres, Exact, of ",
                Account::Plat => "Acres, Plat, of ",
            };
            print_files(rt, lead, notes, Some(description))
        }
        Task::Normal { notes, description } => print_files(
            rt,
            "Normal of ",
            notes,
            Some(description),
        ),
        Task::Report { notes, tracts } => print_files(rt, "Report of ", notes, Some(tracts)),
    }
}

/// Prints the file of the notes, and the second file, if there is one.
fn print_files(
    rt: &HostRuntime,
    lead: &str,
    notes: &Name,
    second: Option<&Name>,
) -> io::Result<()> {
    rt.print(lead)?;
    rt.print(notes.text())?;
    if let Some(second) = second {
        rt.print(" and ")?;
        rt.print(second.text())?;
    }
    rt.println("")
}
