//! Statements about programs. After the words come the lines of a program, without the last line end, a line `---`, and what
//! `segtool compile` tells of it.
//!
//!     $ errors        the errors: the line and column of each, its message, and after `/` its hint or `-`; no lines without an error
//!     $ warnings      the warnings, in the same way
//!     $ told          all that is told, as it is printed for a file `p.lez`
//!     $ nested N A B  the errors in the words of `let x = ` and an expression: the first A bytes N times, the middle, the last B bytes N times

use crate::printed::{ALL, Printed};
use std::alloc::{AllocError, Global};
use std::fmt::Write;
use std::str;
use std::test::Fail;
use support_data::Stored;

/// Tests what is told of a program, if this is the first word of a statement about programs.
pub(crate) fn tells(alloc: Global, word: &str, words: &str, lines: &str) -> Result<bool, Fail> {
    let head = match word {
        "errors" | "nested" => ": error: ",
        "warnings" => ": warning: ",
        "told" => "",
        _ => return Ok(false),
    };
    let (program, wanted) = lines.split_once("\n---\n").ok_or("no line `---`")?;
    let mut files = Stored::new(alloc);
    match word {
        "nested" => files.add("p.lez", nested(alloc, program, words)?.as_bytes())?,
        _ => files.add("p.lez", program.as_bytes())?,
    }
    let words = ["segtool", "compile", "p.lez", "saved"];
    let printed = Printed::by(alloc, &words, &mut files, ALL);
    let told = str::from_utf8(printed.err.as_slice())?;
    let found = match head {
        "" => String::from_str(alloc, told)?,
        _ => reports(alloc, told, head)?,
    };
    if found.as_str().trim_end() == wanted.trim_end() {
        return Ok(true);
    }
    Err(Fail::new(format_args!("{word} of\n{program}\nare\n{found}\nand not\n{wanted}")))
}

/// The position and the message of each report with this head, and its hint.
fn reports(alloc: Global, told: &str, head: &str) -> Result<String, AllocError> {
    let mut lines = String::new(alloc);
    for report in told.split("p.lez:") {
        if let Some((position, words)) = report.split_once(head) {
            let message = words.split_once('\n').map_or(words, |parts| parts.0);
            let hint = words.split_once("\nhint: ").map_or("-", |parts| parts.1);
            let hint = hint.trim_end();
            writeln!(lines, "{position}: {message} / {hint}")?;
        }
    }
    Ok(lines)
}

/// `let x = ` and the expression of a statement `nested`, which is given in words.
fn nested(alloc: Global, expression: &str, words: &str) -> Result<String, Fail> {
    let mut numbers = words.split_whitespace().skip(1);
    let mut number = || numbers.next().unwrap_or("").parse::<usize>();
    let (times, before, after) = (number()?, number()?, number()?);
    let middle = expression.len().checked_sub(after).ok_or("too short")?;
    let front = expression.get(..before).ok_or("too short")?;
    let back = expression.get(middle..).ok_or("too short")?;
    let inside = expression.get(before..middle).ok_or("too short")?;
    let mut program = String::from_str(alloc, "let x = ")?;
    program.push_str(front.repeat(alloc, times)?.as_str())?;
    program.push_str(inside)?;
    program.push_str(back.repeat(alloc, times)?.as_str())?;
    Ok(program)
}
