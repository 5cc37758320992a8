ghost use Rattle.std.specs.Prelude.{◌≡◌, ◌-◌, ◌^◌, ◌<◌, ◌≤◌, [], length, map, option_map, string_bytes, IfSome};
ghost use Rattle.std.specs.Char.{is_ascii_digit};
ghost use Rattle.std.specs.List.{list_all, list_any};
ghost use Rattle.bfm_lexer.specs.Numbers.{natural_of};
ghost use Rattle.bfm_cli.specs.Keys.{key_of, switch_of};
ghost use Rattle.bfm_cli.specs.Words.{first_wrong, given, given_by, gives_first, is_on, is_right, number_for, sets_first, state_in, switched, switched_by, value_of, within};

/// A key of a job, whose word is `key=number`: its name, the range of its number, and the number
/// that it has where no word gives one.
#[derive(Clone, Copy)]
pub struct Key {
    pub name: &'static str,
    pub least: u64,
    pub greatest: u64,
    pub usual: Option<u64>,
}

/// A key of a job that is on or off, whose word is `key=word`: its name, and the words for on and for
/// off. It is off where no word switches it.
#[derive(Clone, Copy)]
pub struct Switch {
    pub name: &'static str,
    pub on: &'static str,
    pub off: &'static str,
}

/// A whole number in decimal digits, where it is at most 2^64 - 1.
fn whole_number(digits: &str) -> Option<u64>
    ensures { result ≡ within 0 (2 ^ 64 - 1) (natural_of digits.now) }
{
    if !are_digits(digits.as_bytes()) {
        return None;
    }
    digits.parse::<u64>().ok()
}

fn are_digits(text: &[u8]) -> bool
    ensures { result ≡ list_all is_ascii_digit text.now }
{
    text.iter().all(|byte| byte.is_ascii_digit())
}

/// What a word `name=value` says of this name: its value.
fn value_of<'a>(name: &str, word: &'a str) -> Option<&'a str>
    ensures { option_map (λ value. value.now) result ≡ value_of name.now word.now }
{
    let (before, value) = word.split_once('=')?;
    if before == name { Some(value) } else { None }
}

/// The number that a word gives a key.
fn given(key: &Key, word: &str) -> Option<u64>
    ensures number { result ≡ given (key_of key.now) word.now }
    ensures range { IfSome result (λ n. (key.now.least ≤ n) × (n ≤ key.now.greatest)) }
{
    let (least, greatest) = (key.least, key.greatest);
    let number = whole_number(value_of(key.name, word)?)?;
    if least <= number && number <= greatest {
        Some(number)
    } else {
        None
    }
}

/// The number that the first of the words which give one gives a key.
fn given_by(key: &Key, words: &[String]) -> Option<u64>
    ensures number { result ≡ given_by (key_of key.now) (map string_bytes words.now) }
    ensures range { IfSome result (λ n. (key.now.least ≤ n) × (n ≤ key.now.greatest)) }
{
    for word in words {
        let number = given(key, word.as_str());
        if number.is_some() {
            return number;
        }
    }
    None
}

/// Whether a word switches a switch on, or off.
fn switched(switch: &Switch, word: &str) -> Option<bool>
    ensures { result ≡ switched (switch_of switch.now) word.now }
{
    state_in(switch, value_of(switch.name, word)?)
}

/// What a value says of a switch: that it is on, or that it is off.
fn state_in(switch: &Switch, value: &str) -> Option<bool>
    ensures { result ≡ state_in (switch_of switch.now) value.now }
{
    if value == switch.on {
        Some(true)
    } else if value == switch.off {
        Some(false)
    } else {
        None
    }
}

/// Whether the first of the words that switch a switch sets it on, or off.
fn switched_by(switch: &Switch, words: &[String]) -> Option<bool>
    ensures { result ≡ switched_by (switch_of switch.now) (map string_bytes words.now) }
{
    for word in words {
        let state = switched(switch, word.as_str());
        if state.is_some() {
            return state;
        }
    }
    None
}

/// Whether a word gives one of the keys a number, or one of the switches a state, that no word
/// before it gives that key or switch.
fn is_right(keys: &[Key], switches: &[Switch], before: &[String], word: &str) -> bool
    ensures { result ≡ is_right (map key_of keys.now) (map switch_of switches.now) (map string_bytes before.now) word.now }
{
    gives_one(keys, before, word) || sets_one(switches, before, word)
}

/// Whether a word gives one of the keys a number that no word before it gives that key.
fn gives_one(keys: &[Key], before: &[String], word: &str) -> bool
    ensures { result ≡ list_any (λ key. gives_first (map string_bytes before.now) word.now (key_of key)) keys.now }
{
    keys.iter().any(|key| gives_first(key, before, word))
}

/// Whether a word gives one of the switches a state that no word before it gives that switch.
fn sets_one(switches: &[Switch], before: &[String], word: &str) -> bool
    ensures { result ≡ list_any (λ switch. sets_first (map string_bytes before.now) word.now (switch_of switch)) switches.now }
{
    switches
        .iter()
        .any(|switch| sets_first(switch, before, word))
}

/// Whether a word gives a key a number that no word before it gives.
fn gives_first(key: &Key, before: &[String], word: &str) -> bool
    ensures { result ≡ gives_first (map string_bytes before.now) word.now (key_of key.now) }
{
    given(key, word).is_some() && given_by(key, before).is_none()
}

/// Whether a word gives a switch a state that no word before it gives.
fn sets_first(switch: &Switch, before: &[String], word: &str) -> bool
    ensures { result ≡ sets_first (map string_bytes before.now) word.now (switch_of switch.now) }
{
    switched(switch, word).is_some() && switched_by(switch, before).is_none()
}

/// The first of the words that is not right for these keys and switches, by how many words stand
/// before it.
pub fn first_wrong(keys: &[Key], switches: &[Switch], words: &[String]) -> Option<u64>
    ensures place { result ≡ first_wrong (map key_of keys.now) (map switch_of switches.now) [] (map string_bytes words.now) }
    ensures within { IfSome result (λ before. before < length words.now) }
{
    for (before, word) in words.iter().enumerate() {
        if !is_right(keys, switches, &words[..before], word.as_str()) {
            return Some(before as u64);
        }
    }
    None
}

/// The number of a key: a word gives it, or it is the usual one.
pub fn number_for(key: &Key, words: &[String]) -> Option<u64>
    ensures number { result ≡ number_for (key_of key.now) (map string_bytes words.now) }
    ensures range { IfSome key.now.usual (λ n. (key.now.least ≤ n) × (n ≤ key.now.greatest))
        → IfSome result (λ n. (key.now.least ≤ n) × (n ≤ key.now.greatest)) }
{
    given_by(key, words).or(key.usual)
}

/// Whether a switch is on: a word switches it on.
pub fn is_on(switch: &Switch, words: &[String]) -> bool
    ensures { result ≡ is_on (switch_of switch.now) (map string_bytes words.now) }
{
    switched_by(switch, words).unwrap_or(false)
}
