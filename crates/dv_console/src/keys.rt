// The keys of settings, and what they are set to.
ghost use Rattle.std.specs.Prelude.{◌≡◌, ◌≢◌, ◌^◌, ◌≤◌, is_some, map, nat_lt, string_bytes, if◌then◌else◌, option_and_then, option_map, IfOk, IfSome};
ghost use Rattle.std.specs.List.{list_any};
ghost use Rattle.dv_console.specs.Words.{Reads, are_of, text_behind, greatest, key_text, least, number_in, setting, value_in};

use crate::command::WordError;
use itoa::Buffer;

/// A key of a setting KEY=VALUE.
#[derive(Clone, Copy, PartialEq, Eq, Debug)]
pub enum Key {
    Workers,
    Seed,
    Budget,
    Heap,
    Log,
    Number,
    Classes,
    Threads,
}

impl Key {
    /// The key as it is written, with `=`.
    fn text(self) -> &'static str
        ensures { result.now ≡ key_text self }
    {
        match self {
            Key::Workers => "workers=",
            Key::Seed => "seed=",
            Key::Budget => "budget=",
            Key::Heap => "heap=",
            Key::Log => "log=",
            Key::Number => "number=",
            Key::Classes => "classes=",
            Key::Threads => "threads=",
        }
    }

    /// The least number that the key may be set to.
    fn least(self) -> u64
        ensures { result ≡ least self }
    {
        match self {
            Key::Workers | Key::Budget | Key::Classes | Key::Threads => 1,
            Key::Heap => 64,
            Key::Seed | Key::Log | Key::Number => 0,
        }
    }

    /// The greatest number that the key may be set to.
    fn greatest(self) -> u64
        ensures { result ≡ greatest self }
    {
        match self {
            Key::Workers => 8,
            Key::Budget => 50_000_000,
            Key::Heap => 8_388_608,
            Key::Classes => 1_000,
            Key::Threads => 60,
            Key::Seed | Key::Log | Key::Number => u64::MAX,
        }
    }
}

/// The number that a text writes as it is printed, where it has 64 bits at most.
fn number(text: &str) -> Option<u64>
    ensures { result ≡ option_and_then (λ n. if nat_lt n (2 ^ 64) then Some n else None) (number_in text.now) }
{
    let n = text.parse::<u64>().ok()?;
    if Buffer::new().format(n) == text {
        Some(n)
    } else {
        None
    }
}

/// What a key's text says: a number in the key's range, or `yes` of `log`, which counts as 1.
fn value(key: Key, text: &str) -> Option<u64>
    ensures exact { result ≡ value_in key text.now }
    ensures in_range { IfSome result (λ n. n ≤ greatest key) }
{
    match key {
        Key::Log => { if text == "yes" { Some(1) } else { None } }
        _ => {
            let n = number(text)?;
            if key.least() <= n && n <= key.greatest() {
                Some(n)
            } else {
                None
            }
        }
    }
}

/// What stands in a word behind a key.
fn text_behind(key: Key, word: &str) -> Option<&str>
    ensures { option_map (λ t. t.now) result ≡ text_behind key word.now }
{
    word.strip_prefix(key.text())
}

/// Whether a word sets one of these keys.
fn is_of(keys: &[Key], word: &str) -> bool
    ensures { result ≡ list_any (λ k. is_some (text_behind k word.now)) keys.now }
{
    keys.iter().any(|key| text_behind(*key, word).is_some())
}

/// Whether each word sets one of these keys.
pub fn are_of(keys: &[Key], words: &[String]) -> bool
    ensures { result ≡ are_of keys.now (map string_bytes words.now) }
{
    words.iter().all(|word| is_of(keys, word))
}

/// What words set a key to, where they set it. It takes no memory.
///
/// # Errors
///
/// The words set the key twice, or to what it can't be set to.
pub fn setting(key: Key, words: &[String]) -> Result<Option<u64>, WordError>
    ensures exact { Reads (λ v. v) result (setting key (map string_bytes words.now)) }
    ensures in_range { IfOk result (λ v. IfSome v (λ n. n ≤ greatest key)) }
    ensures no_memory { result ≢ Err WordError.Memory }
{
    let mut found = None;
    for word in words {
        if let Some(text) = text_behind(key, word) {
            if found.is_some() {
                return Err(WordError::Usage);
            }
            found = Some(value(key, text).ok_or(WordError::Usage)?);
        }
    }
    Ok(found)
}
