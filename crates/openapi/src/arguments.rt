//! The words of the command line.
use crate::check::CheckOptions;
use crate::listing::ListFormat;
use crate::normalize::NormalizeOptions;
use crate::output::Format;
use crate::target::Target;
use clap::builder::ValueParser;
use clap::{Arg, ArgAction, ArgMatches, Command};
use openapi_normalize::{Object, Task};
use std::alloc::{AllocError, Global};

/// The version of this program, and of the Rust crate that it ports.
const VERSION: &str = "0.1.0 (openapiv3 2.2.0)";

/// What `--help` prints below the arguments of `check`.
const CHECK_HELP: &str = "\
Exit status:
  0  there is no error
  1  there are errors, or warnings with --deny-warnings
  2  a file is no JSON, or the arguments are wrong
  3  reading, writing or memory failed

Example:
  openapi check --deny-warnings api.json";

/// What `--help` prints below the arguments of `clean`.
const CLEAN_HELP: &str = "\
Exit status:
  0  all is clean
  1  a file would change with --check
  2  a file is no JSON, or the arguments are wrong
  3  reading, writing or memory failed

Example:
  openapi clean --write api.json";

/// What `--help` prints below the arguments of `normalize`.
const NORMALIZE_HELP: &str = "\
Exit status:
  0  all is normalized
  1  a file breaks a rule, or would change with --check
  2  a file is no JSON, or the arguments are wrong
  3  reading, writing or memory failed

Example:
  openapi normalize --sort -o sorted.json api.json";

/// What `--help` prints below the arguments of `operations`.
const OPERATIONS_HELP: &str = "\
Exit status:
  0  all is listed
  1  a file breaks a rule
  2  a file is no JSON, or the arguments are wrong
  3  reading, writing or memory failed

Example:
  openapi operations api.json";

/// What `--help` prints below the arguments of `references`.
const REFERENCES_HELP: &str = "\
Exit status:
  0  all is listed
  2  a file is no JSON, or the arguments are wrong
  3  reading, writing or memory failed

Example:
  openapi references --format json api.json";

/// By how many spaces a level may be indented.
const MOST_SPACES: u64 = 16;

/// Returns the command line.
///
/// # Errors
///
/// Returns [`AllocError`] if an allocation fails.
pub fn command_line<'a>(alloc: Global) -> Result<Command<'a>, AllocError> {
    Command::new(alloc, "openapi")
        .version(VERSION)
        .about("Checks, rewrites and lists OpenAPI 3.0 documents in JSON")
        .after_help("Example:\n  openapi check api.json")
        .subcommand_required(true)
        .arg_required_else_help(true)
        .subcommand(check_command(alloc)?)?
        .subcommand(clean_command(alloc)?)?
        .subcommand(normalize_command(alloc)?)?
        .subcommand(list_command(
            alloc,
            "operations",
            "Prints the method and the path of each operation of documents",
            OPERATIONS_HELP,
        )?)?
        .subcommand(list_command(
            alloc,
            "references",
            "Prints where the references of documents are, and to what they lead",
            REFERENCES_HELP,
        )?)
}

/// Returns the argument of the files that are read.
fn files_argument<'a>(alloc: Global) -> Arg<'a> {
    Arg::new(alloc, "FILE").num_args(0..).help(
        "Files in JSON; standard input is `-`, and is read if there is none",
    )
}

/// Returns an argument without a value.
fn flag<'a>(alloc: Global, name: &'a str, help: &'a str) -> Arg<'a> {
    Arg::new(alloc, name)
        .long(name)
        .action(ArgAction::SetTrue)
        .help(help)
}

/// Returns the command line of `check`.
fn check_command<'a>(alloc: Global) -> Result<Command<'a>, AllocError> {
    let formats: &'a [&'a str] = &["text", "json", "github"];
    Command::new(alloc, "check")
        .about("Prints everything that is wrong with documents, and what has no effect in them")
        .after_help(CHECK_HELP)
        .arg(
            Arg::new(alloc, "format")
                .long("format")
                .value_name("FORMAT")
                .value_parser(ValueParser::Names(formats))
                .default_value("text")
                .help(
                    "How findings are printed: for people, as a line of JSON, or as a workflow command of GitHub",
                ),
        )?
        .arg(flag(alloc, "deny-warnings", "Exits with 1 if there are warnings"))?
        .arg(files_argument(alloc))
}

/// Returns the command line of `clean`.
fn clean_command<'a>(alloc: Global) -> Result<Command<'a>, AllocError> {
    let command = Command::new(alloc, "clean")
        .about("Removes from documents what has no effect, and leaves every other byte as it is")
        .after_help(CLEAN_HELP);
    target_arguments(alloc, command)?.arg(files_argument(alloc))
}

/// Returns the command line of `normalize`.
fn normalize_command<'a>(alloc: Global) -> Result<Command<'a>, AllocError> {
    let command = Command::new(alloc, "normalize")
        .about(
            "Prints documents without what has no effect, and with the members of objects in the order of OpenAPI",
        )
        .after_help(NORMALIZE_HELP);
    let command = layout_arguments(alloc, command)?;
    let command = target_arguments(alloc, command)?;
    command.arg(files_argument(alloc))
}

/// Adds the arguments that define what is read, and how it is printed.
fn layout_arguments<'a>(alloc: Global, command: Command<'a>) -> Result<Command<'a>, AllocError> {
    let objects: &'a [&'a str] = &["document", "schema", "tag"];
    command
        .arg(
            Arg::new(alloc, "as")
                .long("as")
                .value_name("OBJECT")
                .value_parser(ValueParser::Names(objects))
                .default_value("document")
                .help("What a file is: a whole document, a Schema Object, or a Tag Object"),
        )?
        .arg(flag(
            alloc,
            "settle",
            "Normalizes twice, so that normalizing the output again changes nothing",
        ))?
        .arg(flag(
            alloc,
            "sort",
            "Prints the members of each object in the order of their names",
        ))?
        .arg(flag(alloc, "compact", "Prints one line without spaces"))?
        .arg(
            Arg::new(alloc, "indent")
                .long("indent")
                .value_name("N")
                .value_parser(ValueParser::Unsigned(0, MOST_SPACES))
                .conflicts_with("compact")?
                .help("Indents each level by N spaces, 2 if left out"),
        )
}

/// Adds the arguments that define where the text goes.
fn target_arguments<'a>(alloc: Global, command: Command<'a>) -> Result<Command<'a>, AllocError> {
    command
        .arg(
            Arg::new(alloc, "output")
                .short('o')
                .long("output")
                .value_name("OUTPUT")
                .help("Writes the text to this file"),
        )?
        .arg(flag(alloc, "write", "Replaces each file that changes").conflicts_with("output")?)?
        .arg(
            flag(
                alloc,
                "check",
                "Writes nothing, and exits with 1 if a file would change",
            )
            .conflicts_with("output")?
            .conflicts_with("write")?,
        )
}

/// Returns the command line of a command that lists.
fn list_command<'a>(
    alloc: Global,
    name: &'a str,
    about: &'a str,
    help: &'a str,
) -> Result<Command<'a>, AllocError> {
    let formats: &'a [&'a str] = &["text", "json"];
    Command::new(alloc, name)
        .about(about)
        .after_help(help)
        .arg(
            Arg::new(alloc, "format")
                .long("format")
                .value_name("FORMAT")
                .value_parser(ValueParser::Names(formats))
                .default_value("text")
                .help("How each is printed: for people, or as a line of JSON"),
        )?
        .arg(files_argument(alloc))
}

/// Returns how `check` is to run.
pub fn check_options(matches: &ArgMatches<'_>) -> CheckOptions {
    CheckOptions {
        format: matches.get_one::<Format>("format").unwrap_or(Format::Text),
        deny_warnings: matches.get_flag("deny-warnings"),
    }
}

/// Returns how `normalize` is to run.
pub fn normalize_options<'a>(matches: &ArgMatches<'a>) -> NormalizeOptions<'a> {
    let indent = if matches.get_flag("compact") {
        None
    } else {
        Some(matches.get_one::<usize>("indent").unwrap_or(2))
    };
    let task = Task {
        object: matches.get_one::<Object>("as").unwrap_or(Object::Document),
        settle: matches.get_flag("settle"),
        sort: matches.get_flag("sort"),
        indent,
    };
    NormalizeOptions {
        task,
        target: target_of(matches),
    }
}

/// Returns where the text is to go.
pub fn target_of<'a>(matches: &ArgMatches<'a>) -> Target<'a> {
    if let Some(file) = matches.get_str("output") {
        Target::File(file)
    } else if matches.get_flag("write") {
        Target::InPlace
    } else if matches.get_flag("check") {
        Target::Check
    } else {
        Target::Output
    }
}

/// Returns how a command that lists prints.
pub fn list_format(matches: &ArgMatches<'_>) -> ListFormat {
    matches
        .get_one::<ListFormat>("format")
        .unwrap_or(ListFormat::Text)
}
