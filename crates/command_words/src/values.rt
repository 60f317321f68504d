//! The values of single arguments. No public clause cites this module.
ghost use Rattle.std.specs.Prelude.{◌≡◌};
ghost use Rattle.std.specs.Char.{is_ascii_digit};
ghost use Rattle.std.specs.List.{list_all};
ghost use Rattle.command_words.specs.Words.{is_seed, names_file, seed_of, workers_of};

/// Whether the argument names a file.
pub(crate) fn names_file(word: &str) -> bool
    ensures { result ≡ names_file word.now }
{
    !word.is_empty()
}

/// The number of workers that the argument gives.
pub(crate) fn worker_count(word: &str) -> Option<u32>
    ensures { result ≡ workers_of word.now }
{
    match word {
        "1" => Some(1),
        "2" => Some(2),
        "3" => Some(3),
        "4" => Some(4),
        _ => None,
    }
}

/// Whether the argument consists of decimal digits.
fn is_number(word: &str) -> bool
    ensures { result ≡ list_all is_ascii_digit word.now }
{
    word.bytes().all(|byte| byte.is_ascii_digit())
}

/// Whether the argument is a seed.
fn is_seed(word: &str) -> bool
    ensures { result ≡ is_seed word.now }
{
    !word.is_empty() && word.len() <= 19 && is_number(word)
}

/// The seed that the argument gives.
pub(crate) fn seed(word: &str) -> Option<u64>
    ensures { result ≡ seed_of word.now }
{
    if is_seed(word) {
        word.parse().ok()
    } else {
        None
    }
}
