//! Laws of plain tables. Each law is a contract, and its function does nothing.
ghost use Rattle.twp_plat.specs.PlainTableLaws.{OnePlainTable, PlainTablesStay, PlainOfPlain};
ghost use Rattle.twp_plat.specs.PlainTableLaws.{LineEndsStay};

/// A text has only one plain table.
pub fn one_plain_table()
    ensures { OnePlainTable }
{}

/// A text whose lines are all plain rows is its own plain table, byte for byte.
pub fn plain_tables_stay()
    ensures { PlainTablesStay }
{}

/// The plain table of a plain table is that plain table.
pub fn plain_of_plain()
    ensures { PlainOfPlain }
{}

/// A plain table has the line ends of its text, so it has as many lines.
pub fn line_ends_stay()
    ensures { LineEndsStay }
{}
