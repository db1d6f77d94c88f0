//! Follows the statements of cases, each after a `$`. A statement is a command, which must print the lines after it:
//!
//!     $ segtool check image
//!     ok
//!
//! If the command should fail, its status follows the `$`, and the lines are the error output. `Printed::is` tells more. The other
//! statements make files, change what the next commands meet, and test files. The file `output` is what the last command printed.
//!
//!     $ file FILE             a file with the lines after the statement
//!     $ client FILE           the client that the lines assemble to
//!     $ example FILE CLIENT   the client with this name in the file of texts
//!     $ program FILE PROGRAM  the program with this name in the file of texts
//!     $ increment FILE        the client of `examples/increment.text`, byte by byte
//!     $ counter FILE ..       the counter's image, with these changes
//!     $ image FILE TEXT       the image that a text of this name describes: its length, and changes of the counter's image
//!     $ contents              the lines are such a text, for the images `changed`
//!     $ changed FILE ..       the image of the last `contents`, with these changes; `;` begins a comment
//!     $ damaged FILE N AT BYTE  the increment client, cut to N bytes, with this byte at AT
//!     $ zeros FILE N          a file of zeros
//!     $ copy NAME FILE        a file with the bytes of another one
//!     $ dump NAME FILE        a file with the dump of an image
//!     $ cut FILE N            cuts the file to this length
//!     $ link NAME FILE        another name of a file
//!     $ fail read N           the read with this number fails, or the write after `write`
//!     $ fail FILE PROBLEM     the file can't be read or written
//!     $ output A B            the output takes A bytes at a time and B in all, each a number or `all`
//!     $ saved FILE N          the file is the counter's image as it is saved, with this number
//!     $ same FILE OTHER       the two files have the same bytes
//!     $ alike FILE OTHER      the two files have the same bytes after their first lines
//!     $ size FILE N           the file has this many bytes
//!     $ begins FILE ..        the file begins with these bytes
//!     $ ends FILE             the file ends with the lines
//!     $ has FILE ..           the file contains these bytes
//!     $ count FILE N ..       the file contains these bytes this many times
//!     $ absent FILE           there is no such file
//!     $ writes N              the number of writes so far
//!     $ faults                each line: changes of the counter's image, ` => `, and the fault of `check`; `;` begins a comment
//!     $ plays IMAGE INPUT ..  runs each program on the image, and prints the lines
//!     $ explains COMMAND MAKE ..  the command `check`, `print`, `asm` or `verify` explains its failure with the lines: of the file that
//!                                 `$ MAKE FILE ..` makes, from the lines before `---` if there are some
//!
//! and statements about programs, which `programs.rt` lists.

use crate::cases::{MARK, Turn, first_statement};
use crate::printed::{ALL, Printed, Taken};
use crate::programs::tells;
use cli_host::FileProblem;
use lezgauri::assemble;
use std::alloc::{AllocError, Global};
use std::str;
use std::test::Fail;
use support_data::{
    INCREMENT_FILE, Stored, change, counter, counter_saved, counter_where, front, write,
};

/// Plays a case.
#[derive(Drop)]
pub(crate) struct Player<'a> {
    alloc: Global,
    /// Texts of clients, programs and images by their names, each after a mark.
    texts: &'a str,
    turn: Turn,
    files: Stored,
    taken: Taken,
    /// The text of the images `changed`.
    contents: &'a str,
}

impl<'a> Player<'a> {
    pub(crate) fn new(alloc: Global, texts: &'a str, turn: Turn) -> Player<'a> {
        Player {
            alloc,
            texts,
            turn,
            files: Stored::new(alloc),
            taken: ALL,
            contents: "",
        }
    }

    /// Follows the statements of a text.
    pub(crate) fn follow(&mut self, text: &'a str) -> Result<(), Fail> {
        let mut rest = text;
        for _ in 0..text.len() {
            let Some((statement, following)) = first_statement(rest) else {
                break;
            };
            self.perform(statement)?;
            rest = following;
        }
        Ok(())
    }

    fn perform(&mut self, statement: &'a str) -> Result<(), Fail> {
        let (words, lines) = statement.split_once('\n').unwrap_or((statement, ""));
        match words.split_once(' ') {
            Some((status, command)) if command.starts_with("segtool ") => {
                self.runs(status, command, lines)
            }
            Some(("", words)) => self.meets(words, lines),
            Some(_) | None => Err(Fail::new(format_args!("no statement: {words}"))),
        }
    }

    /// Runs a command and tests what it prints.
    fn runs(&mut self, status: &str, command: &str, lines: &str) -> Result<(), Fail> {
        let words = words_of(self.alloc, self.turn, command)?;
        let printed = Printed::by(self.alloc, words.as_slice(), &mut self.files, self.taken);
        if !printed.is(status, lines) {
            let shown = printed.shown();
            return Err(Fail::new(format_args!("{command}\nprints\n{shown}\nand not\n{lines}")));
        }
        Ok(self.files.add("output", printed.out.as_slice())?)
    }

    /// Follows a statement that is no command.
    fn meets(&mut self, words: &'a str, lines: &'a str) -> Result<(), Fail> {
        let (word, rest) = words.split_once(' ').unwrap_or((words, ""));
        let (name, rest) = rest.split_once(' ').unwrap_or((rest, ""));
        match word {
            "contents" => self.contents = lines,
            "explains" => self.explains(name, rest, lines)?,
            "output" => {
                self.taken = Taken {
                    at_a_time: amount(name)?,
                    in_all: amount(rest)?,
                }
            }
            "fail" => self.fails(name, rest)?,
            "link" => self.files.link(name, rest)?,
            "faults" => return finds(self.alloc, lines),
            "plays" => return self.plays(name, rest, lines),
            _ => return self.makes(words, lines),
        }
        Ok(())
    }

    /// Follows a statement that makes a file, or tests something.
    fn makes(&mut self, words: &str, lines: &str) -> Result<(), Fail> {
        let (word, rest) = words.split_once(' ').unwrap_or((words, ""));
        let (name, rest) = rest.split_once(' ').unwrap_or((rest, ""));
        if tells(self.alloc, word, words, lines)? {
            return Ok(());
        }
        match self.made(word, name, rest, lines)? {
            Some(bytes) => Ok(self.files.add(name, bytes.as_slice())?),
            None => self.holds(words, lines),
        }
    }

    /// The bytes of a file that a statement makes, if it makes one.
    fn made(
        &mut self,
        word: &str,
        name: &str,
        rest: &str,
        lines: &str,
    ) -> Result<Option<Vec<u8>>, Fail> {
        let alloc = self.alloc;
        Ok(Some(match word {
            "file" => Vec::from_slice(alloc, lines.as_bytes())?,
            "client" => assemble(alloc, lines.as_bytes())?,
            "example" => assemble(alloc, named(self.texts, rest)?.as_bytes())?,
            "program" => Vec::from_slice(alloc, named(self.texts, rest)?.as_bytes())?,
            "increment" => Vec::from_slice(alloc, &INCREMENT_FILE)?,
            "counter" => counter_where(alloc, rest)?,
            "image" => image_of(alloc, named(self.texts, rest)?, "")?,
            "changed" => image_of(alloc, self.contents, rest)?,
            "damaged" => damaged(alloc, rest)?,
            "zeros" => Vec::from_elem(alloc, 0, rest.parse()?)?,
            "copy" => Vec::from_slice(alloc, self.files.get(rest))?,
            "cut" => Vec::from_slice(alloc, front(self.files.get(name), rest.parse()?))?,
            "dump" => {
                let words = ["segtool", "dump", rest];
                Printed::by(alloc, &words, &mut self.files, ALL).out
            }
            _ => return Ok(None),
        }))
    }

    /// Tests how a command explains its failure on a file that is made.
    fn explains(&mut self, command: &str, words: &str, lines: &str) -> Result<(), Fail> {
        let (given, wanted) = lines.split_once("---\n").unwrap_or(("", lines));
        let (word, rest) = words.split_once(' ').unwrap_or((words, ""));
        let made = self.made(word, "it", rest, given)?.ok_or("no file")?;
        self.files.add("it", made.as_slice())?;
        self.tells_why(command_on_it(command), wanted)
    }

    /// Tests what a command prints after the line of its fault.
    fn tells_why(&mut self, command: &str, wanted: &str) -> Result<(), Fail> {
        let words = words_of(self.alloc, self.turn, command)?;
        let printed = Printed::by(self.alloc, words.as_slice(), &mut self.files, ALL);
        let found = printed.explanation();
        if found == wanted {
            return Ok(());
        }
        Err(Fail::new(format_args!("{command} prints\n{found}\nand not\n{wanted}")))
    }

    /// Runs programs one after the other on an image, and tests what they print.
    fn plays(&mut self, image: &str, words: &str, lines: &str) -> Result<(), Fail> {
        let (input, programs) = words.split_once(' ').ok_or("no program")?;
        let mut printed = Vec::new(self.alloc);
        for program in programs.split(' ') {
            let words = ["segtool", "run", image, image, program, "--input", input];
            let ran = Printed::by(self.alloc, &words, &mut self.files, ALL);
            if ran.status != 0 {
                return Err(Fail::new(format_args!("{program}: {}", ran.shown())));
            }
            printed.extend_from_slice(ran.out.as_slice())?;
        }
        if printed.as_slice() == lines.as_bytes() {
            return Ok(());
        }
        let printed = str::from_utf8(printed.as_slice()).unwrap_or("no text");
        Err(Fail::new(format_args!("{programs} print\n{printed}\nand not\n{lines}")))
    }

    fn fails(&mut self, name: &str, rest: &str) -> Result<(), Fail> {
        match name {
            "read" => self.files.failing_read = rest.parse()?,
            "write" => self.files.failing_write = rest.parse()?,
            _ => self.files.fail(name, problem(rest)?)?,
        }
        Ok(())
    }

    /// Fails unless a statement about a file is true.
    fn holds(&self, words: &str, lines: &str) -> Result<(), Fail> {
        match self.is_true(words, lines)? {
            true => Ok(()),
            false => Err(Fail::new(format_args!("this isn't so: {words}"))),
        }
    }

    fn is_true(&self, words: &str, lines: &str) -> Result<bool, Fail> {
        let (word, rest) = words.split_once(' ').ok_or("no statement")?;
        let (name, rest) = rest.split_once(' ').unwrap_or((rest, ""));
        let (files, bytes) = (&self.files, self.files.get(name));
        Ok(match word {
            "saved" => bytes == counter_saved(self.alloc, rest.parse()?)?.as_slice(),
            "same" => files.has(name) && bytes == files.get(rest),
            "alike" => after_line(bytes) == after_line(files.get(rest)),
            "size" => bytes.len() == rest.parse()?,
            "begins" => bytes.starts_with(rest.as_bytes()),
            "ends" => bytes.ends_with(lines.as_bytes()),
            "has" => str::from_utf8(bytes)?.contains(rest),
            "count" => {
                let (count, text) = rest.split_once(' ').ok_or("no text")?;
                str::from_utf8(bytes)?.matches(text).count() == count.parse()?
            }
            "absent" => !files.has(name),
            "writes" => files.writes == name.parse()?,
            _ => return Err(Fail::new(format_args!("no statement: {words}"))),
        })
    }
}

/// The command line on the file of a statement `explains`.
fn command_on_it(command: &str) -> &'static str {
    match command {
        "check" => "segtool check it --explain",
        "print" => "segtool print it --explain",
        "asm" => "segtool asm it saved --explain",
        _ => "segtool verify saved it --explain",
    }
}

/// The words of a command line. A word with spaces is in single quotation marks.
fn words_of<'a>(alloc: Global, turn: Turn, command: &'a str) -> Result<Vec<&'a str>, AllocError> {
    let mut words = Vec::new(alloc);
    let mut rest = command;
    for _ in 0..command.len() {
        let Some((word, following)) = first_word(rest) else {
            break;
        };
        words.push(match word {
            "ALG" => turn.allocator,
            "INDEX" => turn.index,
            word => word,
        })?;
        rest = following;
    }
    Ok(words)
}

/// The first word, and what follows it.
fn first_word(text: &str) -> Option<(&str, &str)> {
    let text = text.trim_start();
    if text.is_empty() {
        return None;
    }
    match text.strip_prefix('\'') {
        Some(text) => text.split_once('\''),
        None => Some(text.split_once(' ').unwrap_or((text, ""))),
    }
}

/// The text with this name.
fn named<'a>(texts: &'a str, name: &str) -> Result<&'a str, Fail> {
    for part in texts.split(MARK) {
        if let Some((other, text)) = part.split_once('\n') {
            if other == name {
                return Ok(text);
            }
        }
    }
    Err(Fail::new(format_args!("no text {name}")))
}

/// A number of bytes, or all.
fn amount(word: &str) -> Result<usize, Fail> {
    match word {
        "all" => Ok(usize::MAX),
        _ => Ok(word.parse()?),
    }
}

fn problem(word: &str) -> Result<FileProblem, Fail> {
    match word {
        "folder" => Ok(FileProblem::Folder),
        "unreadable" => Ok(FileProblem::Unreadable),
        "unwritable" => Ok(FileProblem::Unwritable),
        "nospace" => Ok(FileProblem::NoSpace),
        "system" => Ok(FileProblem::System),
        _ => Err(Fail::new(format_args!("no problem: {word}"))),
    }
}

/// The bytes after the first line.
fn after_line(bytes: &[u8]) -> &[u8] {
    match bytes.iter().position(|byte| *byte == b'\n') {
        Some(end) => bytes.get(end..).unwrap_or(&[]),
        None => &[],
    }
}

/// The counter's image with the length that a text begins with, the changes that follow in the text, and these.
fn image_of(alloc: Global, text: &str, changes: &str) -> Result<Vec<u8>, Fail> {
    let (len, contents) = text.split_once('\n').ok_or("no length")?;
    let changes = changes.split_once(';').map_or(changes, |parts| parts.0);
    let mut image = counter(alloc)?;
    let len = len.parse()?;
    image.resize(len, 0)?;
    let bytes = image.as_mut_slice();
    change(bytes, contents).ok_or("no contents")?;
    change(bytes, changes).ok_or("no changes")?;
    Ok(image)
}

/// The increment client, cut to a length, with one other byte: the length, the byte's position and the byte are given.
fn damaged(alloc: Global, words: &str) -> Result<Vec<u8>, Fail> {
    let (len, changed) = words.split_once(' ').ok_or("no position")?;
    let (at, byte) = changed.split_once(' ').ok_or("no byte")?;
    let (len, at, byte) = (len.parse()?, at.parse()?, byte.parse()?);
    let mut file = INCREMENT_FILE;
    write(&mut file, at, &[byte]);
    Ok(Vec::from_slice(alloc, front(&file, len))?)
}

/// Tests the fault that `check` prints for each line's changes of the counter's image.
fn finds(alloc: Global, lines: &str) -> Result<(), Fail> {
    for line in lines.lines() {
        let case = line.split_once(';').map_or(line, |parts| parts.0);
        if case.trim().is_empty() {
            continue;
        }
        let (changes, fault) = case.split_once(" => ").ok_or("no case")?;
        if !has_fault(alloc, changes, fault.trim())? {
            return Err(Fail::new(format_args!("not so: {line}")));
        }
    }
    Ok(())
}

fn has_fault(alloc: Global, changes: &str, fault: &str) -> Result<bool, Fail> {
    let mut files = Stored::new(alloc);
    files.add("image", counter_where(alloc, changes)?.as_slice())?;
    let printed = Printed::by(alloc, &["segtool", "check", "image"], &mut files, ALL);
    Ok(printed.is_fault(fault))
}
