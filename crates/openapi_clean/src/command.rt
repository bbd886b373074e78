//! The commands of the program.
ghost use Rattle.std.specs.Prelude.{◌≡◌, map, string_bytes};
ghost use Rattle.openapi_clean.specs.Commands.{usage_line, AreWordsOf};

use std::str::FromStr;

/// The command of the program, which is its one argument.
#[derive(Clone, Copy, Debug, PartialEq, Eq)]
pub enum Command {
    /// `tag`: reads a Tag Object (OpenAPI 3.0.3, section 4.7.22) and writes it cleaned.
    Tag,
    /// `schema`: reads a Schema Object (OpenAPI 3.0.3, section 4.7.24) and writes it cleaned.
    Schema,
    /// `document`: reads an OpenAPI Object (OpenAPI 3.0.3, section 4.7.1), a whole document, and writes it cleaned.
    Document,
    /// `settle`: reads a whole document and writes it settled: cleaned twice, after which cleaning changes nothing.
    Settle,
    /// `operations`: reads a whole document and writes a line for each of its operations: the method, a space, the path.
    Operations,
}

impl Command {
    /// Returns the command of a command line. The words are the name of the program and one word behind it, which is
    /// that of the command. `None` for any other words.
    pub fn of_words(words: &[String]) -> Option<Command>
        ensures { AreWordsOf (map string_bytes words.now) result }
    {
        match words {
            [_program, word] => word.as_str().parse::<Command>().ok(),
            _ => None,
        }
    }

    /// Returns the line that standard error shows for wrong arguments, without a line feed.
    pub fn usage() -> &'static str
        ensures { result.now ≡ usage_line }
    {
        "usage: openapi_clean tag|schema|document|settle|operations"
    }
}

impl FromStr for Command {
    type Err = ();

    ghost use Rattle.openapi_clean.specs.Commands.{IsCommandOf};

    ghost from_str_gives = { IsCommandOf };

    /// Returns the command of a word.
    ///
    /// # Errors
    ///
    /// Returns `()` for any other word.
    fn from_str(word: &str) -> Result<Command, ()> {
        match word {
            "tag" => Ok(Command::Tag),
            "schema" => Ok(Command::Schema),
            "document" => Ok(Command::Document),
            "settle" => Ok(Command::Settle),
            "operations" => Ok(Command::Operations),
            _ => Err(()),
        }
    }
}
