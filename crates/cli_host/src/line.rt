use clap::builder::{ValueParser, ValueRange};
use clap::{Arg, ArgAction, ArgMatches, Command, value_parser};
use std::alloc::{AllocError, Global};

/// A command with its arguments, in order.
pub struct CommandRow {
    pub name: &'static str,
    pub about: &'static str,
    pub arguments: &'static [Argument],
    /// The end of the command's help.
    pub examples: &'static str,
}

/// An argument: its id, which is also its name in the help, what it takes, and its help.
pub struct Argument {
    pub id: &'static str,
    pub takes: Takes,
    pub help: &'static str,
}

/// What an argument takes. All but options and `Optional` are required.
pub enum Takes {
    Word,
    /// A word that may be a negative number.
    Value,
    /// An argument that may be left out.
    Optional,
    Words,
    OneOf(&'static [&'static str]),
    Bytes,
    /// An option without a value.
    Flag,
    /// An option with a file.
    File,
    /// An option with a text, which has this name in the help.
    Text(&'static str),
    /// An option with a number of bytes.
    Number,
}

/// The parser of a command.
pub fn parser<'a>(alloc: Global, line: &'static CommandRow) -> Result<Command<'a>, AllocError> {
    let mut command = Command::new(alloc, line.name)
        .about(line.about)
        .after_help(line.examples);
    for argument in line.arguments {
        command = command.arg(parser_of(alloc, argument))?;
    }
    Ok(command)
}

/// The parser of an argument.
pub fn parser_of<'a>(alloc: Global, argument: &'static Argument) -> Arg<'a> {
    let plain = Arg::new(alloc, argument.id).help(argument.help);
    let named = match argument.takes {
        Takes::Optional => plain,
        Takes::Flag | Takes::File | Takes::Text(_) | Takes::Number => plain.long(argument.id),
        _ => plain.required(true),
    };
    match argument.takes {
        Takes::Word | Takes::Optional => named,
        Takes::Value => named.allow_negative_numbers(true),
        Takes::Words => named.num_args(ValueRange::new(1..)),
        Takes::OneOf(words) => named.value_parser(ValueParser::Names(words)),
        Takes::Bytes => named.value_parser(value_parser!(u32)),
        Takes::Flag => named.action(ArgAction::SetTrue),
        Takes::File => named.value_name("FILE"),
        Takes::Text(name) => named.value_name(name),
        Takes::Number => named.value_name("N").value_parser(value_parser!(u32)),
    }
}

/// The argument with this id, of a command that requires it.
pub fn word<'a>(arguments: &ArgMatches<'a>, id: &str) -> &'a str {
    arguments.get_str(id).unwrap_or("")
}

/// The number with this id, or 0 if it is left out.
pub fn number(arguments: &ArgMatches, id: &str) -> u32 {
    arguments.get_one(id).unwrap_or(0)
}
