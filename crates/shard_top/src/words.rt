//! The words with which the program is called.

ghost use Rattle.std.specs.Prelude.{◌≡◌, ℕ, List, [], ◌∷◌, Ok, Err, map, codes, MatchResult, IfOk};
ghost use Rattle.std.specs.Str.{bytes_eq};
ghost use Rattle.std.specs.Option.{option_copied};
ghost use Rattle.shard_top.specs.declared.words.Asked.TheVariants as asks;
ghost use Rattle.shard_top.specs.Words.{without_dashes, first_word, second_word, alone, step_reading, gen_reading, words_reading, HasFewRounds};

use script_commands::read_within;

/// What is asked of the program.
#[derive(Clone, Copy)]
pub enum Asked {
    /// To play the script that the source gives, and to print the answers.
    Step,
    /// To play it, and to print the history.
    History,
    /// To play a rehearsal of so many rounds, and to print what is said of it.
    Gen { rounds: u64 },
}

/// The most rounds of a rehearsal.
const MOST_ROUNDS: u64 = 1000;

fn is_step(word: &[u8]) -> bool
    ensures { result ≡ bytes_eq word.now (codes "step") }
{
    word == b"step".as_slice()
}

fn is_gen(word: &[u8]) -> bool
    ensures { result ≡ bytes_eq word.now (codes "gen") }
{
    word == b"gen".as_slice()
}

fn is_history(word: &[u8]) -> bool
    ensures { result ≡ bytes_eq word.now (codes "--history") }
{
    word == b"--history".as_slice()
}

fn is_dashes(word: &[u8]) -> bool
    ensures { result ≡ bytes_eq word.now (codes "--") }
{
    word == b"--".as_slice()
}

/// The first of the words, without the first that is `--`.
fn first_word(words: &[Vec<u8>]) -> Option<&[u8]>
    ensures { option_copied result ≡ first_word (without_dashes (map (λ w. w.items) words.now)) }
{
    match words {
        [] => None,
        [first] => {
            if is_dashes(first) {
                None
            } else {
                Some(first.as_slice())
            }
        }
        [first, second, ..] => {
            if is_dashes(first) {
                Some(second.as_slice())
            } else {
                Some(first.as_slice())
            }
        }
    }
}

/// The second of two words, without the first that is `--`.
fn second_of_two<'a>(first: &'a Vec<u8>, second: &'a Vec<u8>) -> Option<&'a [u8]>
    ensures { option_copied result ≡ second_word (without_dashes (first.now.items ∷ second.now.items ∷ [])) }
{
    if is_dashes(first) {
        None
    } else if is_dashes(second) {
        None
    } else {
        Some(second.as_slice())
    }
}

/// The second of three words or more, without the first that is `--`.
fn second_of_three<'a>(
    first: &'a Vec<u8>,
    second: &'a Vec<u8>,
    third: &'a Vec<u8>,
) -> Option<&'a [u8]>
    ensures { (more : List (List ℕ)) → option_copied result ≡ second_word (without_dashes (first.now.items ∷ second.now.items ∷ third.now.items ∷ more)) }
{
    if is_dashes(first) {
        Some(third.as_slice())
    } else if is_dashes(second) {
        Some(third.as_slice())
    } else {
        Some(second.as_slice())
    }
}

/// The second of the words, without the first that is `--`.
fn second_word(words: &[Vec<u8>]) -> Option<&[u8]>
    ensures { option_copied result ≡ second_word (without_dashes (map (λ w. w.items) words.now)) }
{
    match words {
        [] => None,
        [_] => None,
        [first, second] => second_of_two(first, second),
        [first, second, third, ..] => second_of_three(first, second, third),
    }
}

/// The first of the words.
fn any_word(words: &[Vec<u8>]) -> Option<&[u8]>
    ensures { option_copied result ≡ first_word (map (λ w. w.items) words.now) }
{
    match words.first() {
        None => None,
        Some(word) => Some(word.as_slice()),
    }
}

/// What is asked by `step`, if no further word stands there.
fn step_alone(further: Option<&[u8]>) -> Result<Asked, &[u8]>
    ensures reading { MatchResult result (λ asked. alone asks.Step (option_copied further.entry) ≡ Ok asked) (λ word. alone asks.Step (option_copied further.entry) ≡ Err word.now) }
    ensures few { IfOk result HasFewRounds }
{
    match further {
        None => Ok(Asked::Step),
        Some(word) => Err(word),
    }
}

/// What is asked by `step --history`, if no further word stands there.
fn history_alone(further: Option<&[u8]>) -> Result<Asked, &[u8]>
    ensures reading { MatchResult result (λ asked. alone asks.History (option_copied further.entry) ≡ Ok asked) (λ word. alone asks.History (option_copied further.entry) ≡ Err word.now) }
    ensures few { IfOk result HasFewRounds }
{
    match further {
        None => Ok(Asked::History),
        Some(word) => Err(word),
    }
}

/// What the words behind `step` ask, or the first that fits no reading.
#[tactic(auto, unfolding(crate::specs::Words::step_reading))]
fn step_reading(words: &[Vec<u8>]) -> Result<Asked, &[u8]>
    ensures reading { MatchResult result (λ asked. step_reading (map (λ w. w.items) words.now) ≡ Ok asked)
        (λ word. step_reading (map (λ w. w.items) words.now) ≡ Err word.now) }
    ensures few { IfOk result HasFewRounds }
{
    let Some((first, further)) = words.split_first() else {
        return Ok(Asked::Step);
    };
    if is_history(first) {
        history_alone(first_word(further))
    } else if is_dashes(first) {
        step_alone(any_word(further))
    } else {
        Err(first.as_slice())
    }
}

/// What the words behind `gen` ask, or the first that fits no reading, or `incomplete`.
#[tactic(auto, using(crate::proofs::WordLemmas::few_rounds), unfolding(crate::specs::Words::gen_reading))]
fn gen_reading(words: &[Vec<u8>]) -> Result<Asked, &[u8]>
    ensures reading { MatchResult result (λ asked. gen_reading (without_dashes (map (λ w. w.items) words.now)) ≡ Ok asked)
        (λ word. gen_reading (without_dashes (map (λ w. w.items) words.now)) ≡ Err word.now) }
    ensures few { IfOk result HasFewRounds }
{
    let Some(number) = first_word(words) else {
        return Err(b"incomplete");
    };
    let Some(rounds) = read_within(number, 1, MOST_ROUNDS) else {
        return Err(number);
    };
    match second_word(words) {
        Some(word) => Err(word),
        None => Ok(Asked::Gen { rounds }),
    }
}

/// What the words ask, or the first that fits no reading, or `incomplete`.
#[tactic(auto, unfolding(crate::specs::Words::words_reading))]
pub(crate) fn words_reading(words: &[Vec<u8>]) -> Result<Asked, &[u8]>
    ensures reading { MatchResult result (λ asked. words_reading (map (λ w. w.items) words.now) ≡ Ok asked)
        (λ word. words_reading (map (λ w. w.items) words.now) ≡ Err word.now) }
    ensures few { IfOk result HasFewRounds }
{
    let Some((first, further)) = words.split_first() else {
        return Err(b"incomplete");
    };
    if is_step(first) {
        step_reading(further)
    } else if is_gen(first) {
        gen_reading(further)
    } else {
        Err(first.as_slice())
    }
}
