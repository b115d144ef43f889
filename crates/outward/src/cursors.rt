// The cursor in C: five words of 64 bits, own resolution, target, number, skip in two's complement, left. Functions, no `From`: neither an array nor a
// `Cursor` is this crate's.
ghost use Rattle.std.specs.Prelude.{◌≡◌};
ghost use Rattle.index.specs.Refusals.{number_of};
ghost use Rattle.index.specs.Told.{told};
ghost use Rattle.outward.specs.Exports.{number_out};
ghost use Rattle.outward.specs.CursorWords.{skip_word, words_of, skip_in, cursor_of_words, started_words, given_number, given_words};

use crate::answers::{RgChecked, RgNumber};
use children::{Cursor, Given};
use index::Refusal;

fn skip_word(skip: i32) -> u64
    ensures { result ≡ skip_word skip }
{
    i64::from(skip).cast_unsigned()
}

fn words_of(c: Cursor) -> [u64; 5]
    ensures { result ≡ words_of c }
{
    [
        u64::from(c.own),
        u64::from(c.target),
        c.number,
        skip_word(c.skip),
        c.left,
    ]
}

fn skip_in(word: u64) -> Option<i32>
    ensures { result ≡ skip_in word }
{
    i32::try_from(word.cast_signed()).ok()
}

// Nothing where a word does not fit its field.
pub fn cursor_in(words: [u64; 5]) -> Option<Cursor>
    ensures { result ≡ cursor_of_words words }
{
    let [own, target, number, skip, left] = words;
    Some(Cursor {
        own: u32::try_from(own).ok()?,
        target: u32::try_from(target).ok()?,
        number,
        skip: skip_in(skip)?,
        left,
    })
}

// A fresh cursor's words are written; a refused request leaves the words.
pub fn started_out(a: Result<Cursor, Refusal>, words: &mut [u64; 5]) -> RgChecked
    ensures { (result.refusal ≡ number_of (told a)) × (result.zero ≡ 0) × (words.new ≡ started_words words.old (told a)) }
{
    if let Ok(c) = a {
        *words = words_of(c);
    }
    RgChecked::from(a.map(|_| ()))
}

// The words move on with a child, and stay otherwise.
pub fn given_out(g: Given, words: &mut [u64; 5]) -> RgNumber
    ensures { (result ≡ number_out (given_number g)) × (words.new ≡ given_words words.old g) }
{
    let answer = match g {
        Given::Child(value, following) => {
            *words = words_of(following);
            Ok(value)
        }
        Given::Done(_) => Ok(0),
        Given::Refused(_) => Err(Refusal::Position),
    };
    RgNumber::from(answer)
}
