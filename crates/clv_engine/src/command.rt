//! The words of the command line.

ghost use Rattle.std.specs.Prelude.{◌≡◌, map, string_bytes, IfSome, IfNone, option_map};
ghost use Rattle.clv_engine.specs.Command.{is_file_word, IsCommand, Command as Asked};
ghost use Rattle.clv_engine.specs.Asking.{asked_by, asked_of};

/// What the words of a command line ask for, with the files that they name.
#[derive(Clone, Copy)]
pub enum Command<'a> {
    /// Compiles a source to a module.
    Compile { source: &'a str, target: &'a str },
    /// Compiles a source in memory and runs its module on a launch.
    Run { source: &'a str, launch: &'a str },
}

// A word that names a file is not empty and does not begin with `-`, as an option does.
fn is_file_word(word: &str) -> bool
    ensures { result ≡ is_file_word word.now }
{
    match word.as_bytes() {
        [] => false,
        [first, ..] => *first != b'-',
    }
}

/// What the words ask for: `compile SOURCE MODULE` or `run SOURCE LAUNCH`. None exactly where they are
/// no such command.
pub fn command_of<'a>(words: &'a [String]) -> Option<Command<'a>>
    ensures command { IfSome result (λ c. IsCommand (map string_bytes words.now) (asked_by c)) }
    ensures other { IfNone result ((c : Asked) → IsCommand (map string_bytes words.now) c → ⊥) }
{
    let [name, first, second] = words else {
        return None;
    };
    let first = first.as_str();
    let second = second.as_str();
    if !is_file_word(first) || !is_file_word(second) {
        return None;
    }
    named(name.as_str(), first, second)
}

// The command of a name, with two files.
fn named<'a>(name: &str, first: &'a str, second: &'a str) -> Option<Command<'a>>
    ensures { option_map asked_by result ≡ asked_of name.now first.now second.now }
{
    if name == "compile" {
        return Some(Command::Compile {
            source: first,
            target: second,
        });
    }
    if name == "run" {
        return Some(Command::Run {
            source: first,
            launch: second,
        });
    }
    None
}
