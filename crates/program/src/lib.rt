// What all programs share, decided: what a program is asked by its arguments.
//
// No public function has a `requires`: each answers every argument, as an equation with a definition of program_model says. Nothing is
// read or written here.
#![tactic(auto)]

ghost use Rattle.std.specs.Prelude.{◌≡◌};
ghost use Rattle.lines.specs.Text.{same};
ghost use Rattle.program_model.specs.declared.Asked.TheVariants.{Input};
ghost use Rattle.program_model.specs.Arguments.{dashed, word_of, by_file, by_value_or_file, by_count, by_only, asked};

use decimal::all_digits;
use program_model::{Asked, Word};

// What is asked of a program that takes at least so many values, and more of them or exactly those, by `count` arguments of which `last` is
// the last; that is empty where there is none.
#[tactic(auto, unfolding(program_model::specs::Arguments::asked))]
pub fn asked(least: usize, more: bool, count: usize, last: &[u8]) -> Asked
    ensures { result ≡ asked least more count last.now }
{
    let word = word_of(last);
    let asked = by_count(least, more, count, word);
    if count == 1 {
        by_only(word, asked)
    } else {
        asked
    }
}

// What an argument is.
#[tactic(auto, unfolding(program_model::specs::Arguments::word_of, decimal_model::specs::Ascii::ascii))]
fn word_of(bytes: &[u8]) -> Word
    ensures { result ≡ word_of bytes.now }
{
    if is(bytes, b"--help") {
        Word::Help
    } else if is(bytes, b"--version") {
        Word::Version
    } else if is(bytes, b"-") {
        Word::Dash
    } else if begins_with_dash(bytes) {
        Word::Dashed
    } else if all_digits(bytes) {
        Word::Digits
    } else {
        Word::Other
    }
}

// Whether it is this word.
fn is(bytes: &[u8], word: &[u8]) -> bool
    ensures { result ≡ same bytes.now word.now }
{
    bytes == word
}

// Whether its first byte is `-`.
#[tactic(auto, unfolding(program_model::specs::Arguments::dashed))]
fn begins_with_dash(bytes: &[u8]) -> bool
    ensures { result ≡ dashed bytes.now }
{
    matches!(bytes, [b'-', ..])
}

// What is asked by so many arguments, where the last is no word that stands alone.
#[tactic(auto, unfolding(program_model::specs::Arguments::by_count))]
fn by_count(least: usize, more: bool, count: usize, last: Word) -> Asked
    ensures { result ≡ by_count least more count last }
{
    if count < least {
        Asked::Unclear
    } else if count == least {
        input(false, count)
    } else if more {
        by_value_or_file(count, count - 1, last)
    } else if count - 1 == least {
        by_file(least, last)
    } else {
        Asked::Unclear
    }
}

// What is asked where the only argument is such a word.
#[tactic(auto, unfolding(program_model::specs::Arguments::by_only))]
fn by_only(word: Word, other: Asked) -> Asked
    ensures { result ≡ by_only word other }
{
    match word {
        Word::Help => Asked::Usage,
        Word::Version => Asked::Version,
        Word::Dash | Word::Dashed | Word::Digits | Word::Other => other,
    }
}

// The last argument stands behind all values that the program takes.
#[tactic(auto, unfolding(program_model::specs::Arguments::by_file))]
fn by_file(values: usize, last: Word) -> Asked
    ensures { result ≡ by_file values last }
{
    match last {
        Word::Help | Word::Version | Word::Dashed => Asked::Unclear,
        Word::Dash => input(false, values),
        Word::Digits | Word::Other => input(true, values),
    }
}

// The last argument is a further value, or the name of a file.
#[tactic(auto, unfolding(program_model::specs::Arguments::by_value_or_file))]
fn by_value_or_file(count: usize, before: usize, last: Word) -> Asked
    ensures { result ≡ by_value_or_file count before last }
{
    match last {
        Word::Dash => input(false, before),
        Word::Digits => input(false, count),
        Word::Help | Word::Version | Word::Dashed | Word::Other => input(true, before),
    }
}

// To read the input of a program that is given so many values.
fn input(named: bool, values: usize) -> Asked
    ensures { result ≡ Input named values }
{
    Asked::Input { named, values }
}
