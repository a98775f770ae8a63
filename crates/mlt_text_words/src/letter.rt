//! The names of variables.

ghost use Rattle.std.specs.Prelude.{◌≡◌, ◌<◌};
ghost use Rattle.mlt_text_words.specs.Letters.{all_letters, index_of, letter_of};

use std::fmt;

/// The name of a variable, a letter from `a` to `z`.
#[derive(Clone, Copy, Debug, PartialEq, Eq)]
pub enum Letter {
    A,
    B,
    C,
    D,
    E,
    F,
    G,
    H,
    I,
    J,
    K,
    L,
    M,
    N,
    O,
    P,
    Q,
    R,
    S,
    T,
    U,
    V,
    W,
    X,
    Y,
    Z,
}

const LETTERS: [Letter; 26] = [
    Letter::A,
    Letter::B,
    Letter::C,
    Letter::D,
    Letter::E,
    Letter::F,
    Letter::G,
    Letter::H,
    Letter::I,
    Letter::J,
    Letter::K,
    Letter::L,
    Letter::M,
    Letter::N,
    Letter::O,
    Letter::P,
    Letter::Q,
    Letter::R,
    Letter::S,
    Letter::T,
    Letter::U,
    Letter::V,
    Letter::W,
    Letter::X,
    Letter::Y,
    Letter::Z,
];

fn all() -> [Letter; 26]
    ensures { result ≡ all_letters }
{
    LETTERS
}

impl Letter {
    /// The place of the letter, from 0 for `a` to 25 for `z`.
    pub fn index(self) -> usize
        ensures index { result ≡ index_of self }
        ensures below { result < 26 }
    {
        self as usize
    }
}

impl fmt::Display for Letter {
    ghost use Rattle.std.specs.Prelude.{Some};
    ghost use Rattle.mlt_text_words.specs.Letters.{letter_text};

    ghost output = { λ letter. Some (letter_text letter) };

    fn fmt<W: fmt::Write>(&self, f: &mut fmt::Formatter<W>) -> fmt::Result {
        let letter = char::from(b'a' + *self as u8);
        write!(f, "{letter}")
    }
}

/// The letter that is written as this byte.
#[tactic(auto, unfolding(crate::specs::Letters::letter_of))]
pub fn find_letter(byte: u8) -> Option<Letter>
    ensures { result ≡ letter_of byte }
{
    if byte < b'a' {
        return None;
    }
    let letters = all();
    match letters.get(usize::from(byte - b'a')) {
        Some(letter) => Some(*letter),
        None => None,
    }
}
