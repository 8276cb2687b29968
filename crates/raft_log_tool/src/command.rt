//! What the arguments ask for.
ghost use Rattle.std.specs.Prelude.{◌≡◌, ◌≢◌, [], ◌∷◌, IfOk, IfErr, IfSome, IsNone, map, string_bytes};
ghost use Rattle.raft_log_tool.specs.Command.{IsNoMode, IsWrong, mode_text, verb_text, words_of};

use raft_log_files::RecoveryMode;
use thiserror::Error;

/// What the program is asked for, on a directory of log files (own).
#[derive(Clone, Copy)]
pub enum Command<'a> {
    /// Usage and statuses.
    Help,
    /// Each item of each file.
    Dump(&'a str),
    /// Holes and faults.
    Check(&'a str),
    /// The files of each queue.
    Span(&'a str),
    /// Bytes by group.
    Sizes(&'a str),
    /// A copy of what an opening finds.
    Copy {
        directory: &'a str,
        target: &'a str,
    },
    /// A copy that is cut as an opening by this mode would cut it.
    Repair {
        directory: &'a str,
        target: &'a str,
        mode: RecoveryMode,
    },
}

/// Why arguments ask for nothing (own).
#[derive(Clone, Copy, Debug, Error)]
pub enum CommandError {
    /// There is no argument.
    #[error("a command is missing")]
    NoCommand,
    /// The first one is no command's name.
    #[error("no such command")]
    Unknown,
    /// Behind the command no directory is named.
    #[error("a directory is missing")]
    NoDirectory,
    /// Behind the directory no target is named.
    #[error("a target is missing")]
    NoTarget,
    /// Behind the target no mode is named.
    #[error("a mode is missing")]
    NoMode,
    /// The last one is no mode's name.
    #[error("no such mode")]
    UnknownMode,
    /// More stands behind what a command needs.
    #[error("there are too many arguments")]
    TooMany,
}

/// A command without what it is about (own).
#[derive(Clone, Copy)]
pub(crate) enum Verb {
    Help,
    Dump,
    Check,
    Span,
    Sizes,
    Copy,
    Repair,
}

fn verb_in(word: &str) -> Option<Verb>
    ensures some { IfSome result (λ verb. verb_text verb ≡ word.now) }
    ensures none { IsNone result → (verb : Verb) → verb_text verb ≢ word.now }
{
    match word {
        "--help" => Some(Verb::Help),
        "dump" => Some(Verb::Dump),
        "check" => Some(Verb::Check),
        "span" => Some(Verb::Span),
        "sizes" => Some(Verb::Sizes),
        "copy" => Some(Verb::Copy),
        "repair" => Some(Verb::Repair),
        _ => None,
    }
}

// The mode of a name, as the settings spell it.
fn mode_in(word: &str) -> Option<RecoveryMode>
    ensures some { IfSome result (λ mode. mode_text mode ≡ word.now) }
    ensures none { IsNone result → IsNoMode word.now }
{
    match word {
        "absolute-consistency" => Some(RecoveryMode::AbsoluteConsistency),
        "tolerate-corrupted-tail-records" => Some(RecoveryMode::TolerateTailCorruption),
        "tolerate-any-corruption" => Some(RecoveryMode::TolerateAnyCorruption),
        _ => None,
    }
}

// The command of a verb with nothing behind it.
fn alone<'a>(verb: Verb) -> Result<Command<'a>, CommandError>
    ensures ok { IfOk result (λ command. words_of command ≡ verb_text verb ∷ []) }
    ensures err { IfErr result (λ why. IsWrong why (verb_text verb ∷ [])) }
{
    match verb {
        Verb::Help => Ok(Command::Help),
        _ => Err(CommandError::NoDirectory),
    }
}

// The command of a verb with a directory behind it.
fn of_directory(verb: Verb, directory: &str) -> Result<Command<'_>, CommandError>
    ensures ok { IfOk result (λ command. words_of command ≡ verb_text verb ∷ directory.now ∷ []) }
    ensures err { IfErr result (λ why. IsWrong why (verb_text verb ∷ directory.now ∷ [])) }
{
    match verb {
        Verb::Help => Err(CommandError::TooMany),
        Verb::Dump => Ok(Command::Dump(directory)),
        Verb::Check => Ok(Command::Check(directory)),
        Verb::Span => Ok(Command::Span(directory)),
        Verb::Sizes => Ok(Command::Sizes(directory)),
        Verb::Copy | Verb::Repair => Err(CommandError::NoTarget),
    }
}

// The command of a verb with a directory and a target behind it.
fn of_both<'a>(verb: Verb, directory: &'a str, target: &'a str) -> Result<Command<'a>, CommandError>
    ensures ok { IfOk result (λ command. words_of command ≡ verb_text verb ∷ directory.now ∷ target.now ∷ []) }
    ensures err { IfErr result (λ why. IsWrong why (verb_text verb ∷ directory.now ∷ target.now ∷ [])) }
{
    match verb {
        Verb::Copy => Ok(Command::Copy { directory, target }),
        Verb::Repair => Err(CommandError::NoMode),
        _ => Err(CommandError::TooMany),
    }
}

// The command of a verb with a directory, a target and a mode behind it.
fn of_mode<'a>(
    verb: Verb,
    directory: &'a str,
    target: &'a str,
    word: &str,
) -> Result<Command<'a>, CommandError>
    ensures ok { IfOk result (λ command. words_of command ≡ verb_text verb ∷ directory.now ∷ target.now ∷ word.now ∷ []) }
    ensures err { IfErr result (λ why. IsWrong why (verb_text verb ∷ directory.now ∷ target.now ∷ word.now ∷ [])) }
{
    match verb {
        Verb::Repair => match mode_in(word) {
            Some(mode) => Ok(Command::Repair {
                directory,
                target,
                mode,
            }),
            None => Err(CommandError::UnknownMode),
        },
        _ => Err(CommandError::TooMany),
    }
}

/// The command that arguments ask for (own): just the one that is spelled so.
pub fn read_command(words: &[String]) -> Result<Command<'_>, CommandError>
    ensures ok { IfOk result (λ command. words_of command ≡ map string_bytes words.now) }
    ensures err { IfErr result (λ why. IsWrong why (map string_bytes words.now)) }
{
    let [word, rest @ ..] = words else {
        return Err(CommandError::NoCommand);
    };
    let Some(verb) = verb_in(word.as_str()) else {
        return Err(CommandError::Unknown);
    };
    match rest {
        [] => alone(verb),
        [directory] => of_directory(verb, directory.as_str()),
        [directory, target] => of_both(verb, directory.as_str(), target.as_str()),
        [directory, target, mode] => {
            of_mode(verb, directory.as_str(), target.as_str(), mode.as_str())
        }
        _ => Err(CommandError::TooMany),
    }
}
