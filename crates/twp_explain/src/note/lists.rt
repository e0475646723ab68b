//! What a note says of several numbers after a word in the singular.
use crate::note::said::NotePiece::{Number, Numbers, Words};
use crate::note::said::{say, text_of};
use crate::note::sentence::Doubtful;
use crate::note::span::{after_word, end_of_list, number_from, second_number, section_at};
use crate::note::spelled::between;
use std::alloc::{AllocError, Global};
use twp_grammar::{Kind, Tokens};

/// The numbers after a word.
#[derive(Clone, Copy)]
struct List<'a> {
    /// All of them.
    numbers: &'a [u8],
    /// The first.
    number: u16,
    /// Those after the first, unless they are a range.
    others: Option<&'a [u8]>,
}

/// The numbers after the word at a doubtful place.
fn list_at<'a>(doubtful: &Doubtful<'a>) -> List<'a> {
    let bytes = doubtful.bytes;
    let first = after_word(bytes, doubtful.at);
    let end = end_of_list(bytes, first);
    let others = if is_range(bytes, first) {
        None
    } else {
        Some(between(bytes, second_number(bytes, first), end))
    };
    List {
        numbers: between(bytes, first, end),
        number: number_from(bytes, first).unwrap_or(0),
        others,
    }
}

/// Appends what is said of several sections.
pub(crate) fn write_sections(
    alloc: Global,
    doubtful: &Doubtful<'_>,
    out: &mut String,
) -> Result<(), AllocError> {
    let List {
        numbers,
        number,
        others,
    } = list_at(doubtful);
    let land = text_of(alloc, &[Words("secs. "), Numbers(numbers)])?;
    let read = Words(" is read as ");
    say(
        &[Words("sec. "), Numbers(numbers), read, Words(land.as_str())],
        out,
    )?;
    doubtful.write_acres(alloc, land.as_str(), out)?;
    match others {
        Some(others) => write_section_and_lots(alloc, doubtful, number, others, out),
        None => {
            let alone = Words(" alone was meant, write sec. ");
            say(
                &[
                    Words("; if section "),
                    Number(number),
                    alone,
                    Number(number),
                ],
                out,
            )
        }
    }
}

/// Appends how a section is written whose lots have the other numbers.
fn write_section_and_lots(
    alloc: Global,
    doubtful: &Doubtful<'_>,
    section: u16,
    lots: &[u8],
    out: &mut String,
) -> Result<(), AllocError> {
    let (word, verb) = if is_one(lots) {
        ("lot ", " was meant, write ")
    } else {
        ("lots ", " were meant, write ")
    };
    let lots = text_of(alloc, &[Words(word), Numbers(lots)])?;
    let land = format!(in alloc; "sec. {section}, {lots}")?;
    let of = Words(" of section ");
    say(
        &[Words("; if "), Words(lots.as_str()), of, Number(section)],
        out,
    )?;
    say(&[Words(verb), Words(land.as_str())], out)?;
    doubtful.write_acres(alloc, land.as_str(), out)
}

/// Appends what is said of several lots.
pub(crate) fn write_lots(
    alloc: Global,
    doubtful: &Doubtful<'_>,
    out: &mut String,
) -> Result<(), AllocError> {
    let List {
        numbers,
        number,
        others,
    } = list_at(doubtful);
    let section = section_at(doubtful.bytes, doubtful.at).unwrap_or(0);
    let lots = Words(", lots ");
    let land = text_of(
        alloc,
        &[Words("sec. "), Number(section), lots, Numbers(numbers)],
    )?;
    let read = Words(" is read as lots ");
    say(
        &[Words("lot "), Numbers(numbers), read, Numbers(numbers)],
        out,
    )?;
    doubtful.write_acres(alloc, land.as_str(), out)?;
    match others {
        Some(others) => write_lot_and_sections(alloc, doubtful, section, number, others, out),
        None => {
            let alone = Words(" alone was meant, write lot ");
            say(
                &[Words("; if lot "), Number(number), alone, Number(number)],
                out,
            )
        }
    }
}

/// Appends how a lot of a section is written, and sections that have the other numbers.
fn write_lot_and_sections(
    alloc: Global,
    doubtful: &Doubtful<'_>,
    section: u16,
    lot: u16,
    sections: &[u8],
    out: &mut String,
) -> Result<(), AllocError> {
    let word = if is_one(sections) { "sec. " } else { "secs. " };
    let sections = text_of(alloc, &[Words(word), Numbers(sections)])?;
    let mut land = String::new(alloc);
    write!(land, "sec. {section}, lot {lot}; ")?;
    land.push_str(sections.as_str())?;
    write!(out, "; if lot {lot} and ")?;
    let write = Words(" were meant, write ");
    say(
        &[Words(sections.as_str()), write, Words(land.as_str())],
        out,
    )?;
    doubtful.write_acres(alloc, land.as_str(), out)
}

/// Whether a list is one number.
fn is_one(list: &[u8]) -> bool {
    let mut tokens = Tokens::new(list);
    tokens.next();
    tokens.next().is_none()
}

/// Whether the first number from a place on begins a range.
fn is_range(bytes: &[u8], at: usize) -> bool {
    let mut tokens = Tokens::after(bytes, at.min(bytes.len()));
    tokens.next();
    match tokens.next() {
        Some(join) => join.kind == Kind::To,
        None => false,
    }
}
