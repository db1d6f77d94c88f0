use std::alloc::Global;
use std::test::Fail;

/// A statement, and the lines below it: the statement's text, or the output that it must have.
#[derive(Clone, Copy)]
pub struct Statement<'a> {
    pub words: &'a str,
    pub lines: &'a str,
}

/// The statements of a text, each after a `$`.
pub fn statements(alloc: Global, text: &str) -> Result<Vec<Statement<'_>>, Fail> {
    let (_, rest) = text.split_once('$').ok_or("no statement")?;
    let mut statements = Vec::new(alloc);
    for part in rest.split('$') {
        let (words, lines) = part.split_once('\n').unwrap_or((part, ""));
        statements.push(Statement { words, lines })?;
    }
    Ok(statements)
}
