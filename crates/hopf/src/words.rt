//! The words of the command line.
ghost use Rattle.std.specs.Prelude.{◌≡◌, map, string_bytes};
ghost use Rattle.hopf.specs.Words.{is_command as is_command_of};

/// Whether the words after the program's name are a command: `run` is the one. It takes no memory.
pub fn is_command(words: &[String]) -> bool
    ensures { result ≡ is_command_of (map string_bytes words.now) }
{
    match words {
        [word] => word.as_str() == "run",
        _ => false,
    }
}
