// The word that a line of `inspect` begins with. It is told from the others here, where there are neither tables nor an
// output: each word is a way out of a function, and these are short to prove.
#![tactic(auto)]

ghost use Rattle.std.specs.Prelude.{◌≤◌, length};

use circuits_text::SPACE;
use inspect_asks::Asks;
use inspect_index::IndexWord;
use known::BuildMode;

// What a line begins with: a word of one of the groups, or another one.
#[derive(Clone, Copy)]
pub enum First {
    List,
    Table(BuildMode),
    Asks(Asks),
    Index(IndexWord),
    Other,
}

// A word that is the whole line.
fn lone_word(word: &[u8]) -> First {
    match word {
        b"scan" => First::Index(IndexWord::Scan),
        b"places" => First::Index(IndexWord::Places),
        b"fill" => First::Index(IndexWord::Fill),
        _ => First::Other,
    }
}

// A word and what follows its space.
fn first_word(word: &[u8], rest: &[u8]) -> First {
    match word {
        b"list" => First::List,
        b"table" => First::Table(BuildMode::ByPrint),
        b"clashes" => First::Table(BuildMode::Keeping),
        b"matrix" => First::Asks(Asks::Matrix),
        b"find" => First::Asks(Asks::Find),
        b"write" => First::Asks(Asks::Write),
        b"index" => match inspect_index::index_word(rest) {
            Some(word) => First::Index(word),
            None => First::Other,
        },
        _ => First::Other,
    }
}

// A line's first word, and where the rest begins.
#[derive(Clone, Copy)]
pub struct Begun {
    pub word: First,
    pub rest: usize,
}

// The line from at to end. Where it lacks its newline, it begins with another word.
pub fn begin(input: &[u8], at: usize, end: usize) -> Begun
    requires { (at ≤ end) × (end ≤ length input.now) }
    ensures { result.rest ≤ end }
{
    if input.len() <= end {
        return Begun {
            word: First::Other,
            rest: end,
        };
    }
    let s = circuits_text::find(input, at, SPACE);
    if end <= s {
        let word = lone_word(&input[at..end]);
        return Begun { word, rest: end };
    }
    let rest = s + 1;
    let word = first_word(&input[at..s], &input[rest..end]);
    Begun { word, rest }
}
