ghost use Rattle.std.specs.Prelude.{◌≡◌, map};
ghost use Rattle.std.specs.Option.{option_map};
ghost use Rattle.command.specs.Told.{told};
ghost use Rattle.command.specs.Words.{command_of};

use std::convert::AsStr;

// What the handheld is told to do.
#[derive_where(Clone, Copy)]
#[derive(PartialEq, Eq, Debug)]
pub enum Command<'a, S> {
    // --help
    Help,
    // visit TAPE REQUEST...
    Visit { tape: &'a str, requests: &'a [S] },
}

// The command that the words of a command line give, or nothing.
pub fn command_of<S: AsStr>(words: &[S]) -> Option<Command<'_, S>>
    ensures { option_map (told S.text) result ≡ command_of (map S.text words.now) }
{
    match words {
        [first] if first.as_str() == "--help" => Some(Command::Help),
        [first, tape, requests @ ..] if first.as_str() == "visit" => Some(Command::Visit {
            tape: tape.as_str(),
            requests,
        }),
        _ => None,
    }
}
