//! The lines and words of a text of bytes, each with its place, which lines are skipped, and the numbers that words
//! write. What the words mean is for the caller to say.

#![tactic(auto)]

ghost use Rattle.std.specs.Prelude.{◌≡◌, option_map, ◌+◌, ◌-◌, ◌*◌, ◌^◌, ◌<◌, ◌≤◌, true, [], ◌∷◌, length, drop, IfSome, position, ◌==◌, MatchOption};
ghost use Rattle.std.specs.Iterator.{item_count};
ghost use Rattle.text.specs.Giving.{GivesFirst};
ghost use Rattle.text.specs.Split.{part_length, parts, words, lines, told, left, is_skipped_line, Whole, Placed};
ghost use Rattle.text.specs.Counted.{told_two, told_three, one_of, two_of, three_of};
ghost use Rattle.text.specs.Numbers.{digit_of, number_of, NumberWords};

mod parts;
#[cfg(test)]
mod tests;

use parts::Separator;
pub use parts::{Part, Parts, Place};

/// The bytes of a text from an offset on: none if the offset is past the end.
pub fn tail(text: &[u8], offset: usize) -> &[u8]
    ensures is { result.now ≡ drop offset text.now }
    ensures len { length result.now ≡ length text.now - offset }
{
    text.get(offset..).unwrap_or(&[])
}

/// Where the byte stands first.
fn place_of(bytes: &[u8], byte: u8) -> Option<usize>
    ensures { result ≡ position (λ b. b == byte) bytes.now }
{
    bytes.iter().position(|b| *b == byte)
}

impl<'a> Part<'a> {
    /// The bytes of the part.
    pub fn text(&self) -> &'a [u8]
        ensures { result.now ≡ (told self.now).text }
    {
        tail(self.upto, self.place.offset)
    }

    /// Whether the part, as a line, is to be skipped: it is empty or begins with `#`.
    pub fn is_skipped(&self) -> bool
        ensures { result ≡ is_skipped_line (told self.now).text }
    {
        let first = self.text().first();
        first.is_none() || first == Some(&b'#')
    }
}

impl<'a> Parts<'a> {
    /// The lines of a text: the parts between bytes 10. After a last byte 10 there is one more line,
    /// which is empty.
    pub fn lines(text: &'a [u8]) -> Parts<'a>
        ensures is { left result ≡ lines text.now }
        ensures whole { Whole 10 text.now (left result) }
        ensures placed { Placed 10 1 1 0 text.now 0 (left result) }
    {
        let start = Place { line: 1, offset: 0 };
        let separator = Separator {
            byte: b'\n',
            lines: 1,
        };
        Parts::between(text, start, separator)
    }

    /// The words of a line: the parts between single spaces, so two spaces in a row have an empty word
    /// between them.
    pub fn words(line: Part<'a>) -> Parts<'a>
        ensures is { left result ≡ words (told line.entry) }
        ensures whole { Whole 32 (told line.entry).text (left result) }
        ensures placed { Placed 32 0 (told line.entry).place.line (told line.entry).place.offset (told line.entry).text 0 (left result) }
    {
        let separator = Separator {
            byte: b' ',
            lines: 0,
        };
        Parts::between(line.upto, line.place, separator)
    }

    // An array with the number of parts as a const parameter would be one function for the next three; the checker does
    // not cover arrays of references whose length is such a parameter.

    /// The only part that is to come, if there is just one.
    pub fn one(mut self) -> Option<Part<'a>>
        ensures { option_map told result ≡ one_of (left self.entry) }
    {
        let only = self.next()?;
        self.next().is_none().then_some(only)
    }

    /// The two parts that are to come, if they are two.
    pub fn two(mut self) -> Option<(Part<'a>, Part<'a>)>
        ensures { option_map told_two result ≡ two_of (left self.entry) }
    {
        let first = self.next()?;
        let second = self.one()?;
        Some((first, second))
    }

    /// The three parts that are to come, if they are three.
    pub fn three(mut self) -> Option<(Part<'a>, Part<'a>, Part<'a>)>
        ensures { option_map told_three result ≡ three_of (left self.entry) }
    {
        let first = self.next()?;
        let (second, third) = self.two()?;
        Some((first, second, third))
    }

    /// The parts of a text from a place on.
    fn between(text: &'a [u8], place: Place, separator: Separator) -> Parts<'a>
        requires { place.line + separator.lines * (length text.now - place.offset) < 2 ^ 64 }
        ensures is { left result ≡ parts separator.byte separator.lines place.line place.offset (drop place.offset text.now) }
        ensures whole { Whole separator.byte (drop place.offset text.now) (left result) }
        ensures placed { Placed separator.byte separator.lines place.line place.offset (drop place.offset text.now) 0 (left result) }
    {
        Parts {
            text,
            separator,
            next: Some(place),
        }
    }

    /// Takes the part that begins at `place`, the first of those to come.
    fn take_at(&mut self, place: Place) -> Part<'a>
        requires { self.old.next ≡ Some place }
        ensures { told result ∷ left self.new ≡ left self.old }
    {
        let Parts {
            text,
            separator,
            ..
        } = *self;
        let rest = tail(text, place.offset);
        let Some(len) = place_of(rest, separator.byte) else {
            self.next = None;
            return Part { upto: text, place };
        };
        let end = place.offset + len;
        self.next = Some(Place {
            line: place.line + separator.lines,
            offset: end + 1,
        });
        Part {
            upto: &text[..end],
            place,
        }
    }
}

impl<'a> Iterator for Parts<'a> {
    type Item = Part<'a>;

    ghost next_gives = { GivesFirst told left };

    ghost remaining = { item_count left };

    /// The next part, or none after the last.
    fn next(&mut self) -> Option<Part<'a>> {
        let place = self.next?;
        Some(self.take_at(place))
    }
}

/// The value of a digit; absent for any other byte.
fn digit(byte: u8) -> Option<u16>
    ensures is { result ≡ digit_of byte }
    ensures small { IfSome result (λ d. d < 10) }
{
    let digit = char::from(byte).to_digit(10)?;
    Some(digit as u16)
}

/// The number of a number word: one to three digits, the first not 0 unless it is the only one.
/// Absent for any other word.
pub fn number(word: &[u8]) -> Option<u16>
    ensures is { result ≡ number_of word.now }
    ensures small { IfSome result (λ n. n < 1000) }
{
    match word {
        [a] => digit(*a),
        [b'0', ..] => None,
        [a, b] => Some(digit(*a)? * 10 + digit(*b)?),
        [a, b, c] => Some(digit(*a)? * 100 + digit(*b)? * 10 + digit(*c)?),
        _ => None,
    }
}

/// Number words are the numbers below 1,000 as they are written in decimal. A lemma: this function does nothing.
pub fn number_words_are_numerals()
    ensures { NumberWords }
{}
