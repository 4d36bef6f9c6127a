ghost use Rattle.std.specs.Prelude.{◌≡◌, map, string_bytes};
ghost use Rattle.plan_picture.specs.Outcome.{command_of};

use plan_top::number_up_to;

/// What the words after the program's name ask for.
#[derive(Clone, Copy, Debug, PartialEq, Eq)]
pub enum Command {
    /// The picture of the query of this number, from 1 to 64, with its reply.
    Query(u16),
    /// The picture of a certificate with its verdict.
    Check,
}

// The greatest number of a query.
const MOST_QUERIES: u16 = 64;

/// The command of the words after the program's name, where they have one of the two forms.
pub fn command_of(words: &[String]) -> Option<Command>
    ensures { result ≡ command_of (map string_bytes words.now) }
{
    match words {
        [word] if word.as_str() == "check" => Some(Command::Check),
        [word] => {
            let number = number_up_to(MOST_QUERIES, word.as_str())?;
            Some(Command::Query(number))
        }
        _ => None,
    }
}
