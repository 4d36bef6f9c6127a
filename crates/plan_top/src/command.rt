ghost use Rattle.std.specs.Prelude.{◌≡◌, ◌≤◌, [], ◌∷◌, map, option_and_then, string_bytes};
ghost use Rattle.plan_top.specs.Command.{IsInRange, at_most, command_of, number_up_to, with_digits};

/// What the words after the program's name ask for.
#[derive(Clone, Copy, Debug, PartialEq, Eq)]
pub enum Command {
    /// Plans for one document, with this number of workers.
    Plan(u16),
    /// Answers a session of edits and queries, with this number of workers.
    Session(u16),
    /// Checks a certificate.
    Check,
    /// Plans for the generated document of this number, with this number of workers.
    Demo(u16, u16),
}

// The greatest number of workers.
const MOST_WORKERS: u16 = 16;

// The greatest number of a generated document.
const MOST_DEMOS: u16 = 1000;

/// The command of the words after the program's name, where they have one of the four forms.
pub fn command_of(words: &[String]) -> Option<Command>
    ensures command { result ≡ command_of (map string_bytes words.now) }
    ensures range { IsInRange result }
{
    match words {
        [verb] if verb.as_str() == "check" => Some(Command::Check),
        [verb, workers] => with_workers(verb.as_str(), workers.as_str()),
        [verb, number, workers] if verb.as_str() == "demo" => {
            let number = number_up_to(MOST_DEMOS, number.as_str())?;
            let workers = number_up_to(MOST_WORKERS, workers.as_str())?;
            Some(Command::Demo(number, workers))
        }
        _ => None,
    }
}

// The command of a verb and a number of workers.
fn with_workers(verb: &str, workers: &str) -> Option<Command>
    ensures command { result ≡ command_of (verb.now ∷ workers.now ∷ []) }
    ensures range { IsInRange result }
{
    match verb {
        "plan" => {
            let count = number_up_to(MOST_WORKERS, workers)?;
            Some(Command::Plan(count))
        }
        "session" => {
            let count = number_up_to(MOST_WORKERS, workers)?;
            Some(Command::Session(count))
        }
        _ => None,
    }
}

/// The number that the word writes in decimal digits, without sign or leading zero, from 1 to the limit.
pub fn number_up_to(limit: u16, word: &str) -> Option<u16>
    requires { limit ≤ 1000 }
    ensures { result ≡ number_up_to limit word.now }
{
    match word.as_bytes() {
        [] | [b'0', ..] => None,
        digits => value_up_to(limit, digits),
    }
}

// The number that the digits write, where it is at most the limit.
fn value_up_to(limit: u16, digits: &[u8]) -> Option<u16>
    requires { limit ≤ 1000 }
    ensures { result ≡ option_and_then (at_most limit) (with_digits 0 digits.now) }
{
    let mut number = 0;
    for digit in digits {
        if !digit.is_ascii_digit() {
            return None;
        }
        number = 10 * number + u16::from(*digit - b'0');
        if number > limit {
            return None;
        }
    }
    Some(number)
}
