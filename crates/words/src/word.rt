// A word: its first bytes, and its readings as a number, kept up at each byte.
ghost use Rattle.std.specs.Prelude.{◌≡◌, List, [], ◌∷◌, ◌++◌, ℕ, ◌+◌, ◌<◌, ◌≤◌, length, min, take};
ghost use Rattle.std.specs.Option.{SomeIff};
ghost use Rattle.words.specs.Numeral.{digit_of, hexadecimal, natural64, natural32, integer32};
ghost use Rattle.words.specs.Reading.{held, Spells, Begun, Reads, natural};

// Digits of one base so far: their value, `None` where it is lost to a byte that is no digit or to 64 bits,
// and how many, 17 for more.
#[derive(Clone, Copy)]
pub struct Digits {
    value: Option<u64>,
    count: usize,
}

// In fixed memory: the first `hex.count` bytes of `text` are the word's. A `-` in front belongs to `decimal` only. `Spells`
// and `Reads` relate digits and a word to their bytes and stand in the contracts: a word keeps 16, so that no view or invariant
// could name them all. No `ArrayVec`, which is not `Copy`: a line goes by value.
#[derive(Clone, Copy)]
pub struct Word {
    text: [u8; 16],
    minus: bool,
    hex: Digits,
    decimal: Digits,
}

// Capital letters are no digits.
fn digit(b: u8) -> Option<u64>
    ensures { SomeIff result (digit_of b < 16) (digit_of b) }
{
    match b {
        b'0'..=b'9' => Some(u64::from(b - b'0')),
        b'a'..=b'f' => Some(u64::from(b - b'a') + 10),
        _ => None,
    }
}

impl Digits {
    #[tactic(auto, unfolding(crate::specs::Numeral::digits, crate::specs::Numeral::onward))]
    fn new() -> Self
        ensures { (base : ℕ) → Spells base result [] }
    {
        Digits {
            value: Some(0),
            count: 0,
        }
    }

    fn fed(self, base: u64, b: u8) -> Self
        requires { (1 < base) × (base ≤ 16) }
        ensures { (bs : List ℕ) → Spells base self bs → Spells base result (bs ++ (b ∷ [])) }
    {
        Digits {
            value: self.onward(base, b),
            count: self.count.saturating_add(1).min(17),
        }
    }

    // The value with one byte more.
    #[tactic(auto, using(crate::proofs::Numerals::beyond_stays, crate::proofs::Numerals::beyond_digit, crate::proofs::Numerals::beyond_large, crate::proofs::Numerals::held_more))]
    fn onward(self, base: u64, b: u8) -> Option<u64>
        requires { (1 < base) × (base ≤ 16) }
        ensures { (bs : List ℕ) → held base self.value bs → held base result (bs ++ (b ∷ [])) }
    {
        let value = self.value?;
        let d = digit(b).filter(|d| *d < base)?;
        value.checked_mul(base)?.checked_add(d)
    }

    fn number(self) -> Option<u64>
        ensures { (base : ℕ) → (bs : List ℕ) → Spells base self bs → result ≡ natural base bs }
    {
        if self.count == 0 { None } else { self.value }
    }
}

impl Word {
    pub(crate) fn new() -> Self
        ensures { Reads result [] }
    {
        let none = Digits::new();
        Word {
            text: [0; 16],
            minus: false,
            hex: none,
            decimal: none,
        }
    }

    pub(crate) fn fed(self, b: u8) -> Self
        ensures { (bs : List ℕ) → Reads self bs → Reads result (bs ++ (b ∷ [])) }
    {
        let count = self.hex.count;
        let text = noted(self.text, count, b);
        let hex = self.hex.fed(16, b);
        if count == 0 && b == b'-' {
            return Word {
                text,
                minus: true,
                hex,
                ..self
            };
        }
        let decimal = self.decimal.fed(10, b);
        Word {
            text,
            hex,
            decimal,
            ..self
        }
    }

    // The first 16 bytes.
    pub fn text(&self) -> &[u8]
        ensures { (bs : List ℕ) → Reads self.now bs → result.now ≡ take 16 bs }
    {
        &self.text[..self.hex.count.min(16)]
    }

    #[tactic(auto, using(crate::proofs::Readings::hexadecimal_short))]
    pub fn hexadecimal(&self) -> Option<u64>
        ensures { (bs : List ℕ) → Reads self.now bs → result ≡ hexadecimal bs }
    {
        if self.hex.count > 16 {
            return None;
        }
        self.hex.number()
    }

    #[tactic(auto, using(crate::proofs::Readings::natural_minus))]
    pub fn natural64(&self) -> Option<u64>
        ensures { (bs : List ℕ) → Reads self.now bs → result ≡ natural64 bs }
    {
        if self.minus {
            return None;
        }
        self.decimal.number()
    }

    pub fn natural32(&self) -> Option<u32>
        ensures { (bs : List ℕ) → Reads self.now bs → result ≡ natural32 bs }
    {
        u32::try_from(self.natural64()?).ok()
    }

    pub fn integer32(&self) -> Option<i32>
        ensures { (bs : List ℕ) → Reads self.now bs → result ≡ integer32 bs }
    {
        let n = i64::try_from(self.decimal.number()?).ok()?;
        i32::try_from(if self.minus { -n } else { n }).ok()
    }
}

// The text with one byte more, where there is room for it.
#[tactic(auto, using(crate::proofs::Readings::begun_full, crate::proofs::Readings::begun_more))]
fn noted(mut text: [u8; 16], count: usize, b: u8) -> [u8; 16]
    ensures { (bs : List ℕ) → count ≡ min (length bs) 17 → Begun text count bs → Begun result (min (count + 1) 17) (bs ++ (b ∷ [])) }
{
    if count < 16 {
        text[count] = b;
    }
    text
}
