ghost use Rattle.std.specs.Prelude.{◌≡◌, option_map};
ghost use Rattle.es_top.specs.Words.{system_in, names_system};

// Whether a word names a system.
fn is_system(word: &str) -> bool
    ensures { result ≡ names_system word.now }
{
    match word.as_bytes() {
        [] => false,
        [first, ..] => *first != b'-',
    }
}

/// The name of the system that the words ask for, where they are `run` and such a name.
pub fn system_word(words: &[String]) -> Option<&str>
    ensures { option_map (λ name. name.now) result ≡ system_in words.now }
{
    match words {
        [mode, system] => {
            if mode.as_str() == "run" && is_system(system.as_str()) {
                Some(system.as_str())
            } else {
                None
            }
        }
        _ => None,
    }
}
