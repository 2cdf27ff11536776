// A line of text as a frame: three words of eight hexadecimal digits, with blanks between.
ghost use Rattle.std.specs.Prelude.{◌≡◌, ◌<◌, IfSome, Some, None, MatchOption, true, false};
ghost use Rattle.explain.specs.Lines.{blank, digit_of, skipped, digits_on, word_in, gapped, after_word, frame_on};

use wire::{Frame, Words};

fn is_blank(byte: u8) -> bool
    ensures { result ≡ blank byte }
{
    matches!(byte, b' ' | b'\t' | b'\r')
}

fn digit(byte: u8) -> Option<u32>
    ensures value { result ≡ digit_of byte }
    ensures small { IfSome result (λ d. d < 16) }
{
    char::from(byte).to_digit(16)
}

// What is left after the blanks in front.
fn skip_blanks(line: &[u8]) -> &[u8]
    ensures { result.now ≡ skipped line.now }
{
    let mut rest = line;
    while let [first, after @ ..] = rest
        && is_blank(*first)
    {
        rest = after;
    }
    rest
}

// Eight digits as a word. Tried with `try_fold`: that no step overflows is an invariant, and stays open.
fn word(digits: &[u8; 8]) -> Option<u32>
    ensures { result ≡ digits_on digits.now 0 }
{
    let mut word: u32 = 0;
    for byte in digits {
        word = word * 16 + digit(*byte)?;
    }
    Some(word)
}

// The word after the blanks in front, and what is left after it.
fn word_in_front(line: &[u8]) -> Option<(u32, &[u8])>
    ensures { MatchOption result (word_in (skipped line.now) ≡ None) (λ p. (word_in (skipped line.now) ≡ Some p.0) × (p.1.now ≡ after_word line.now)) }
{
    let (digits, rest) = skip_blanks(line).split_first_chunk::<8>()?;
    Some((word(digits)?, rest))
}

// What is left after one blank in front.
fn after_blank(line: &[u8]) -> Option<&[u8]>
    ensures { MatchOption result (gapped line.now ≡ false) (λ rest. (gapped line.now ≡ true) × (skipped rest.now ≡ skipped line.now)) }
{
    match line {
        [first, rest @ ..] if is_blank(*first) => Some(rest),
        _ => None,
    }
}

// The frame that a line of text is, if it is one.
pub fn frame_in(line: &[u8]) -> Option<Frame>
    ensures { result ≡ frame_on line.now }
{
    let (head, rest) = word_in_front(line)?;
    let (first, rest) = word_in_front(after_blank(rest)?)?;
    let (second, rest) = word_in_front(after_blank(rest)?)?;
    let words = Words { first, second };
    let frame = Frame { head, words };
    skip_blanks(rest).is_empty().then_some(frame)
}
