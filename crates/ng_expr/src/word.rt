//! A word with its value.
use ng_num::Num;
use ng_words::Letter;

/// A word of a line: its letter and its value. The default, `Z0`, only fills unused places.
#[derive(Clone, Copy)]
pub struct Word {
    pub letter: Letter,
    pub value: Num,
}

impl Default for Word {
    fn default() -> Self {
        Word {
            letter: Letter::Z,
            value: Num::zero(),
        }
    }
}
