//! Tokens as they are usually written.
use std::alloc::AllocError;
use twp_grammar::{Kind, Tokens};
use twp_grid::{Corner, EastWest, NorthSouth};

/// The bytes from a place up to another.
pub(crate) fn between(bytes: &[u8], from: usize, to: usize) -> &[u8] {
    bytes.get(from..to).unwrap_or(b"")
}

/// Appends the steps of a part as they are usually written.
pub(crate) fn write_steps(bytes: &[u8], out: &mut String) -> Result<(), AllocError> {
    let mut tokens = Tokens::new(bytes);
    while let Some(token) = tokens.next() {
        out.push_str(step_text(token.kind))?;
    }
    Ok(())
}

/// Appends a part as it is usually written, with its `of`.
pub(crate) fn write_part(bytes: &[u8], out: &mut String) -> Result<(), AllocError> {
    let mut tokens = Tokens::new(bytes);
    while let Some(token) = tokens.next() {
        match token.kind {
            Kind::Of => out.push_str(" of ")?,
            kind => out.push_str(step_text(kind))?,
        }
    }
    Ok(())
}

/// How a token of a step is usually written. Nothing for `of` and `the`.
fn step_text(kind: Kind) -> &'static str {
    match kind {
        Kind::NorthSouth(NorthSouth::N) => "N",
        Kind::NorthSouth(NorthSouth::S) => "S",
        Kind::EastWest(EastWest::E) => "E",
        Kind::EastWest(EastWest::W) => "W",
        Kind::Corner(Corner::NE) => "NE",
        Kind::Corner(Corner::NW) => "NW",
        Kind::Corner(Corner::SW) => "SW",
        Kind::Corner(Corner::SE) => "SE",
        Kind::Half => "1/2",
        Kind::Quarter => "1/4",
        _ => "",
    }
}

/// Appends the numbers of a list, and what joins them, as they are usually written.
pub(crate) fn write_numbers(bytes: &[u8], out: &mut String) -> Result<(), AllocError> {
    let mut tokens = Tokens::new(bytes);
    let mut is_after_comma = false;
    while let Some(token) = tokens.next() {
        match token.kind {
            Kind::Number(number) => write!(out, "{number}")?,
            Kind::Comma => out.push_str(", ")?,
            Kind::And if is_after_comma => out.push_str("and ")?,
            Kind::And => out.push_str(" and ")?,
            Kind::To => out.push_str(" to ")?,
            Kind::Inclusive if is_after_comma => out.push_str("inclusive")?,
            Kind::Inclusive => out.push_str(" inclusive")?,
            _ => {}
        }
        is_after_comma = token.kind == Kind::Comma;
    }
    Ok(())
}
