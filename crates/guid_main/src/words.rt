// The words behind the program's name, and the forms that they may have.
ghost use Rattle.std.specs.Prelude.{◌≡◌, ◌↔◌, ℕ, slice_index, IsTrue, SomeIff, IfSome, IsNone};
ghost use Rattle.std.specs.Str.Parse.{digits_value};
ghost use Rattle.guid_main.specs.WordForms.{IsReplay, IsRounds, IsMake, HasForm, HasNoForm};

// How many digits a number of rounds has at most.
const MOST_DIGITS: usize = 7;

// How many rounds a made record has at most.
const MOST_ROUNDS: u32 = 1_000_000;

/// What the words ask for.
#[derive(Clone, Copy, Debug, PartialEq, Eq)]
pub enum Words {
    /// A record is read from the input, and replayed.
    Replay,
    /// The record of so many rounds, at most 1,000,000, is written.
    Make { rounds: u32 },
}

// Whether they are the one word `replay`.
fn is_replay(words: &Vec<String>) -> bool
    ensures { IsTrue result ↔ IsReplay words.now.items }
{
    words.len() == 1 && words[0].as_str() == "replay"
}

// Whether a text has a plus in front, which a number of rounds has not.
fn has_plus(text: &str) -> bool
    ensures { IsTrue result ↔ (slice_index text.now 0 ≡ 43) }
{
    match text.as_bytes() {
        [first, ..] => *first == b'+',
        [] => false,
    }
}

// The number of rounds that a word names.
fn rounds_of(word: &str) -> Option<u32>
    ensures { SomeIff result (IsRounds word.now) (digits_value 10 word.now) }
{
    if word.len() > MOST_DIGITS || has_plus(word) {
        return None;
    }
    match word.parse::<u32>() {
        Ok(rounds) if rounds <= MOST_ROUNDS => Some(rounds),
        _ => None,
    }
}

// The number of rounds, where they are the word `make` and this number.
fn make_of(words: &Vec<String>) -> Option<u32>
    ensures some { IfSome result (λ rounds. IsMake words.now.items rounds) }
    ensures none { IsNone result → (rounds : ℕ) → IsMake words.now.items rounds → ⊥ }
{
    if words.len() != 2 || words[0].as_str() != "make" {
        return None;
    }
    rounds_of(words[1].as_str())
}

/// What the words ask for: the one word `replay`, or `make` and a number of rounds, which has one to seven
/// decimal digits and is at most 1,000,000. `None` where they have neither form.
pub fn words_of(words: &Vec<String>) -> Option<Words>
    ensures some { IfSome result (λ form. HasForm words.now.items form) }
    ensures none { IsNone result → HasNoForm words.now.items }
{
    if is_replay(words) {
        return Some(Words::Replay);
    }
    match make_of(words) {
        Some(rounds) => Some(Words::Make { rounds }),
        None => None,
    }
}
