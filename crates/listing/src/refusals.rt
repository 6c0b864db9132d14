// What is said of a refused record, beside the listing.
ghost use Rattle.std.specs.Prelude.{◌+◌, ◌≤◌, ◌≡◌, length};
ghost use Rattle.listing.specs.Text.{Written};
ghost use Rattle.listing.specs.Inner.Putting.{Puts};
ghost use Rattle.listing.specs.Refusals.{words_size, words_of, meaning_size, meaning_text, place_size, record_place, refusal_size, refusal_line};

use crate::text::Page;
use crate::{MEANING, REFUSAL};
use buffers::has_room;

// The words by the number; 0 is no number and has none, nor has 13.
const WORDS: [&[u8]; 15] = [
    b"",
    b"a lent buffer isn't of its size, or the state breaks the list below",
    b"length isn't 472",
    b"sync differs",
    b"version or spacecraft differs",
    b"rate differs",
    b"byte 9 isn't 0",
    b"day outside 1-366",
    b"millisecond above 86,399,999",
    b"a spare status bit is set",
    b"a flag is 00 or 11",
    b"type is 58-61, or a second type other than 36 to 57 and 62",
    b"something was accepted before and the record isn't later",
    b"",
    b"a turn past 4,095",
];

// The words for a number that an answer has; none for any other. By number and no `Refusal`: C may ask for the words of any
// (`lpmag_refusal_words`), and `words_of` answers for all.
fn words(rule: u8) -> &'static [u8]
    ensures { result.now ≡ words_of rule }
{
    let number = rule as usize;
    if number < WORDS.len() {
        WORDS[number]
    } else {
        b""
    }
}

impl<'a> Page<'a> {
    #[tactic(auto, using(crate::proofs::Words::length_words))]
    fn words(&mut self, rule: u8)
        requires { self.old.made + words_size ≤ length self.old.bytes.now }
        ensures { Puts self.old (words_of rule) self.new }
    {
        self.text(words(rule));
    }

    // Which record is refused, and where it begins.
    #[tactic(auto, using(crate::proofs::Digits::length_decimal))]
    fn place(&mut self, number: u64, offset: u64)
        requires { self.old.made + place_size ≤ length self.old.bytes.now }
        ensures { Puts self.old (record_place number offset) self.new }
    {
        self.text(b"record");
        self.number(number);
        self.text(b" at byte");
        self.number(offset);
    }
}

// The words for a number, and a byte of 0 after them.
#[tactic(auto, using(crate::proofs::Words::length_words))]
pub fn put_meaning(rule: u8, out: &mut [u8], at: usize) -> usize
    ensures { Written meaning_size (meaning_text rule) out.old at out.new result }
{
    if !has_room(out.len(), at, MEANING) {
        return at;
    }
    let mut page = Page {
        bytes: out,
        made: at,
    };
    page.words(rule);
    page.text(&[0]);
    page.made
}

#[tactic(auto, using(crate::proofs::Words::lengths))]
pub fn put_refusal(number: u64, offset: u64, rule: u8, out: &mut [u8], at: usize) -> usize
    ensures { Written refusal_size (refusal_line number offset rule) out.old at out.new result }
{
    if !has_room(out.len(), at, REFUSAL) {
        return at;
    }
    let mut page = Page {
        bytes: out,
        made: at,
    };
    page.place(number, offset);
    page.text(b": refused with");
    page.number(rule as u64);
    page.text(b": ");
    page.words(rule);
    page.text(b"\n");
    page.made
}
