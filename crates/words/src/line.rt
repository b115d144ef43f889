// A line: its words, and their readings.
ghost use Rattle.std.specs.Prelude.{◌≡◌, List, [], ◌∷◌, ◌++◌, ℕ, eqb, length};
ghost use Rattle.words.specs.Lines.{words_of};
ghost use Rattle.words.specs.Reading.{Scans, Whole, Shows, Closes};

use crate::word::Word;

// In fixed memory: the first `count` of `words` are read, and no request has as many as 9. `Scans` and `Whole` relate a line
// to its bytes and stand in the contracts: a line does not keep its bytes, so that no view or invariant could name them.
#[derive(Clone, Copy)]
pub struct Line {
    words: [Word; 9],
    count: usize,
    word: Word,
}

impl Line {
    #[tactic(auto, unfolding(crate::specs::Lines::parts_from))]
    pub fn new() -> Self
        ensures { Scans result [] }
    {
        let empty = Word::new();
        Line {
            words: [empty; 9],
            count: 0,
            word: empty,
        }
    }

    pub fn is_empty(&self) -> bool
        ensures { (bs : List ℕ) → Scans self.now bs → result ≡ eqb (length bs) 0 }
    {
        self.count == 0 && self.word.text().is_empty()
    }

    #[tactic(auto, using(crate::proofs::Scanning::parts_from_snoc))]
    pub fn fed(mut self, b: u8) -> Self
        ensures { (bs : List ℕ) → Scans self bs → Scans result (bs ++ (b ∷ [])) }
    {
        if b == b' ' {
            return self.closed();
        }
        self.word = self.word.fed(b);
        self
    }

    // The word that is being read ends, at a blank or at the end of the line.
    pub fn closed(mut self) -> Self
        ensures closes { Closes self result }
        ensures by_index { (bs : List ℕ) → Scans self bs → Whole result bs }
    {
        let n = self.count;
        if n < 9 {
            self.words[n] = self.word;
            self.count = n + 1;
        }
        self.word = Word::new();
        self
    }

    // The first 9 words.
    pub fn words(&self) -> &[Word]
        ensures { (bs : List ℕ) → Whole self.now bs → Shows result.now (words_of bs) }
    {
        &self.words[..self.count.min(9)]
    }
}
