//! One pass over the words of a line.
ghost use Rattle.std.specs.Prelude.{◌≡◌, ◌∷◌, ◌+◌, ◌<◌, List, [], length, drop, min, suc, true, Some};
ghost use Rattle.ng_words.specs.declared.letter.Letter.TheVariants.{G, M};
ghost use Rattle.ng_expr.specs.declared.word.Word.{Word as TheWord};
ghost use Rattle.ng_modal.specs.Words.{of_letter};
ghost use Rattle.ng_modal.specs.ByLetter.{takes_value};
ghost use Rattle.ng_modal.specs.WordCauses.{is_left_out_code, count_of_m};

use crate::block::Block;
use crate::by_group::{GWords, MWords};
use crate::by_letter::ByLetter;
use crate::codes::{GWord, g_word, m_word};
use ng_expr::Word;
use ng_num::Num;
use ng_words::Letter;

/// What the words of a line ask for together. The storage is reused for one line after another. The fields other than
/// the block are meaningful only during a pass.
#[derive(Drop)]
pub struct Sorted {
    /// What the line asks for.
    pub block: Block,
    /// There are two words with one letter other than G and M.
    pub(crate) repeated: bool,
    /// There is a G or M word that isn't a code.
    pub(crate) unknown: bool,
    /// There is a code that is left out; once all words were added, a code or a letter.
    pub(crate) left_out: bool,
    /// There are two G words of one modal group.
    pub(crate) group_twice: bool,
    /// There are two M words of one modal group.
    pub(crate) m_group_twice: bool,
    /// The number of M words, 5 for more than 4.
    pub(crate) m_count: u8,
}

/// Whether the code of a word is left out.
#[inline]
fn is_left_out_code(word: &GWord) -> bool
    ensures { result ≡ is_left_out_code (Some word.now) }
{
    match *word {
        GWord::LeftOutMotion | GWord::LeftOutCompensation => true,
        _ => false,
    }
}

/// The number of M words after one more; it stops at 5.
#[inline]
fn with_one_more(count: u8) -> u8
    ghost ws: { List TheWord }
    requires { count ≡ count_of_m ws }
    ensures { result ≡ min 5 (suc (length (of_letter M ws))) }
{
    if count < 5 { count + 1 } else { count }
}

impl Sorted {
    ghost use Rattle.ng_modal.specs.Sorted.{sorted};

    /// The result for no words.
    #[inline]
    pub fn nothing() -> Sorted
        ensures { result ≡ sorted [] }
    {
        Sorted {
            block: Block {
                values: ByLetter::nothing(),
                g: GWords::nothing(),
                m: MWords::nothing(),
                movement: None,
            },
            repeated: false,
            unknown: false,
            left_out: false,
            group_twice: false,
            m_group_twice: false,
            m_count: 0,
        }
    }

    /// Removes all words.
    #[inline]
    fn clear(&mut self)
        ensures { self.new ≡ sorted [] }
    {
        self.block.values.clear();
        self.block.g = GWords::nothing();
        self.block.m = MWords::nothing();
        self.block.movement = None;
        self.repeated = false;
        self.unknown = false;
        self.left_out = false;
        self.group_twice = false;
        self.m_group_twice = false;
        self.m_count = 0;
    }

    /// Adds a G word in front of the words added before.
    #[inline(never)]
    fn take_g(&mut self, value: Num)
        ghost ws: { List TheWord }
        requires { self.old ≡ sorted ws }
        ensures { self.new ≡ sorted (record { letter = G; value = value } ∷ ws) }
    {
        match g_word(value) {
            Some(word) => {
                self.left_out = is_left_out_code(&word) | self.left_out;
                self.group_twice |= self.block.g.take(word);
            }
            None => self.unknown = true,
        }
    }

    /// Adds an M word in front of the words added before.
    #[inline(never)]
    fn take_m(&mut self, value: Num)
        ghost ws: { List TheWord }
        requires { self.old ≡ sorted ws }
        ensures { self.new ≡ sorted (record { letter = M; value = value } ∷ ws) }
    {
        self.m_count = with_one_more(self.m_count);
        match m_word(value) {
            Some(word) => self.m_group_twice |= self.block.m.take(word),
            None => self.unknown = true,
        }
    }

    /// Adds a word with another letter in front of the words added before.
    #[inline]
    fn take_value(&mut self, letter: Letter, value: Num)
        ghost ws: { List TheWord }
        requires value { takes_value letter ≡ true }
        requires sorted { self.old ≡ sorted ws }
        ensures { self.new ≡ sorted (record { letter = letter; value = value } ∷ ws) }
    {
        self.repeated |= self.block.values.take(letter, value);
    }

    /// Adds a word in front of those added before.
    #[inline]
    fn take(&mut self, word: &Word)
        ghost ws: { List TheWord }
        requires { self.old ≡ sorted ws }
        ensures { self.new ≡ sorted (word.now ∷ ws) }
    {
        match word.letter {
            Letter::G => self.take_g(word.value),
            Letter::M => self.take_m(word.value),
            letter => self.take_value(letter, word.value),
        }
    }

    /// Adds the word at an index, in front of those after it.
    #[inline]
    fn take_at(&mut self, words: &[Word], i: usize)
        ghost ws: { List TheWord }
        requires inside { i < length words.now }
        requires rest { ws ≡ drop (i + 1) words.now }
        requires sorted { self.old ≡ sorted ws }
        ensures { self.new ≡ sorted (drop i words.now) }
    {
        self.take(&words[i]);
    }

    /// Adds all words of a line, from the last to the first, after removing what was there.
    #[inline]
    pub(crate) fn sort(&mut self, words: &[Word])
        ensures { self.new ≡ sorted words.now }
    {
        self.clear();
        for i in (0..words.len()).rev() {
            self.take_at(words, i);
        }
    }
}
