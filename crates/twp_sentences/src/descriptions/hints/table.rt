//! The table of hints.

/// The rows, of which the first that fits is taken. Their columns are separated by `|`:
///
/// ```text
/// the refused sign | the signs before it | what is expected | the signs after it | the hint
/// ```
///
/// A column of signs lists what each may be (`signs`), and has `;` between one sign and the next; `+` asks of
/// the sign before the refused one that nothing is between them. After the refused sign, commas and periods
/// are passed over. What is expected is one of some names (`signs::names_of`). A hint that begins with `write`,
/// or with `delete` and a sign in backticks, says what to do, and nothing else: it is shown only if the reading
/// does so. All others say what is not allowed, and what is. A hint never names land that the text may not
/// mean.
///
/// The rows are text and not data of their own type: each pointer of a static table is set at every start of
/// the program.
pub(crate) const HINTS: &str = "
\u{FEFF} | <nothing> | character | | save the file as UTF-8 without a byte order mark
<byte-BD> | | character | | save the file as UTF-8: this byte is the ½ of Windows-1252
<byte-BC> | | character | | save the file as UTF-8: this byte is the ¼ of Windows-1252
<byte-FF> | <nothing> | character | <byte-FE> | save the file as UTF-8, not as UTF-16
<byte-FE> | <nothing> | character | <byte-FF> | save the file as UTF-8, not as UTF-16
\0 | <nothing> <word> | character | <word> \0 | save the file as UTF-8, not as UTF-16
\u{A0} \u{2007} \u{2009} \u{202F} \u{3000} <byte-A0> | | character | | replace it with a space
\" \u{201C} \u{201D} \u{201E} | | character | | delete the quotation marks
' \u{2018} \u{2019} \u{201A} | <nothing> , <semicolon> : | character | | delete the quotation marks
' \u{2019} | gov | character | t;<lot> | a government lot is written as a lot: lot 1
( ) | | character | | parentheses are not allowed: leave out what only repeats the land before them, or gives its acres
\u{A7} | | character | | write sec.
& | | character | | write and
<slash> | <side> | character | 2 | write {before}1/2
<slash> | <corner> | character | 4 | write {before}1/4
/ | 1 | character | 2 4 | type 1/{next} without spaces
<slash> | 1 | character | 2 4 | type a plain slash: 1/{next}
% \u{B9} | +<side> | character | | write {before}1/2
% \u{B9} | +<corner> | character | | write {before}1/4
\\ | | character | | delete the backslash
<dash> | <number> | character | <number>;<north-south>;<dash> R | a section of a township is written as in T. 2 N., R. 3 W., sec. 14
<dash> | <number> | character | <number>;<north-south>;<number>;E W | a section of a township is written as in T. 2 N., R. 3 W., sec. 14
<dash> | <number> | character | T | a section of a township is written as in T. 2 N., R. 3 W., sec. 14
<dash> | <north-south> | character | <number> R | a township and range are written as in T. 2 N., R. 3 W.
<dash> | <number> | character | <number> | write thru
north | | north-south | | write N.
south | | north-south | | write S.
NR SR | | north-south | | type a space before the R
east | | east-west | | write E.
west | | east-west | | write W.
range rge rng rg | | range | | write R.
<meridian> | | heading-end section-end | | delete the meridian
B P M | | heading-end section-end | M P | delete the meridian
<number> | | heading-end | th st nd rd principal | delete the meridian
<word> | | heading-end section-end | <meridian> P | delete the meridian
<word> | | heading-end section-end | county co | delete the county
<state> | | heading-end section-end | | delete the state
township twp tp | | beginning heading-end | | a township and range are written as in T. 2 N., R. 3 W.
T | | section-end part number | <number> | the township and range come first, as in T. 2 N., R. 3 W., sec. 14
<nothing> | <semicolon> | heading-end | | delete the final semicolon
. | <semicolon> | heading-end | <nothing> | delete the final semicolon
<number> | <semicolon> | heading-end | : | write sec. {at}
<number> | <semicolon> | heading-end | | a section's number has sec. before it
<land> <side-word> <corner-word> the all | <semicolon> | heading-end | | each section's land follows its number, with commas between its parts: sec. 14, .., ..; sec. 15, ..
S | | beginning heading-end | <above-2> |
the | | beginning heading-end | <land> <side-word> <corner-word> | each section's land follows its number: sec. 14, ..; sec. 15, ..
<land> <side-word> <corner-word> | | beginning heading-end | <any> | each section's land follows its number: sec. 14, ..; sec. 15, ..
all | | beginning heading-end | of | each section's land follows its number: sec. 14, ..; sec. 15, ..
<section> | , | section-end part number | | a semicolon, not a comma, goes between sections: sec. 14, ..; sec. 15, ..
<section> | . | end | | a semicolon, not a period, goes between sections: sec. 14, ..; sec. 15, ..
<section> | | section-end part number | | a semicolon goes between sections: sec. 14, ..; sec. 15, ..
. | . | end | <nothing> | one period ends a description
; | . | end | <nothing> | delete `{at}`
<land> | . | end | | a comma goes between the parts of a section: a period ends the description
<except> | | section-end part end | | exceptions are not supported: describe the remaining land
containing comprising | | section-end part number end heading-end | <number> | a description contains no acreage
<number> | | section-end part | <acres> | a description contains no acreage
<number> | | section-end part | <number>;<acres> | a description contains no acreage
<acres> | <number> | section-end part | | a description contains no acreage
<land> <side-word> <corner-word> the | | all | | the land is repeated for each section, as in sec. 14, W1/2; sec. 23, W1/2
2 | <lot>;<number>;, and;+<side> | half | | a half has a fraction, as in {before}1/2, and a lot has its word, as in lot 2
2 | <number>;, and;<number>;, and;+<side> | half | | a half has a fraction, as in {before}1/2, and a lot has its word, as in lot 2
2 | +<side> | half | | write {before}1/2
half | <side> | half | | write {before}1/2
. | <side> | half | <half> | write {before}1/2
one | <side> | half | half | write {before}1/2
. | N S | half | E W;<quarter> | write {before}{next}1/4
4 | +<corner> | quarter | | write {before}1/4
<quarter> | <corner> | quarter | | write {before}1/4
. | <corner> | quarter | <quarter> | write {before}1/4
one | <corner> | quarter | <quarter> | write {before}1/4
, . ; <nothing> and | <corner> | quarter | | a quarter has a fraction, as in {before}1/4
north | | part steps step | half <half> one | write N1/2
south | | part steps step | half <half> one | write S1/2
east | | part steps step | half <half> one | write E1/2
west | | part steps step | half <half> one | write W1/2
northeast | | part steps step | <quarter> one | write NE1/4
northwest | | part steps step | <quarter> one | write NW1/4
southwest | | part steps step | <quarter> one | write SW1/4
southeast | | part steps step | <quarter> one | write SE1/4
<quarters> | +<half> +<quarter> | steps | | write {quarters}
<quarters> | | part step | | write {quarters}
<number-word> | | number | | numbers are written in digits
. | . | number | <number> | delete the second period
the | | part step | | delete `{at}`
government govt gov | | part number | <lot> | delete `{at}`
L | | part number section-end | <number> | write lot {next}
lts | | part number section-end | <number> | write lots
aliq aliquot | | part section-end | <land> | delete `{at}`
incl inc | | inclusive | | write inclusive
";
