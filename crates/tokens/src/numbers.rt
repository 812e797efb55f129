// Numbers of a line, decimal or hexadecimal: what a word of digits says, and whether it fits.
ghost use Rattle.std.specs.Prelude.{◌≡◌, ◌≤◌, IfErr, IfSome};
ghost use Rattle.tokens.specs.Laws.{Numbers32ReadBack, Numbers64ReadBack, ReadBack};
ghost use Rattle.tokens.specs.Numbers.{is_hex, number_at, number_of, numeral_of, or_fault, told_as};

use crate::cursor::Cursor;
use crate::faults::TextFault;
use crate::numeral::Numeral;
use crate::words::Word;

// The number that the digits write, if it is at most `most`. By hand: `from_str_radix` takes a sign.
fn numeral(digits: &[u8], radix: u32, most: u64) -> Option<u64>
    requires low { 2 ≤ radix }
    requires high { radix ≤ 36 }
    ensures answer { result ≡ numeral_of most radix digits.now }
{
    if digits.is_empty() {
        return None;
    }
    let mut number: u64 = 0;
    for byte in digits {
        let digit = char::from(*byte).to_digit(radix)?;
        let shifted = number.checked_mul(u64::from(radix))?;
        number = shifted.checked_add(u64::from(digit))?;
    }
    Some(number).filter(|number| *number <= most)
}

// The definition of a word's number asks this too, so it is not left to `strip_prefix`.
fn is_hex(word: &[u8]) -> bool
    ensures answer { result ≡ is_hex word.now }
{
    word.starts_with(b"0x") || word.starts_with(b"0X")
}

// The number that a whole word writes, if it is at most `most`.
#[tactic(auto, unfolding(crate::specs::Numbers::number_of))]
fn number_of(word: &[u8], most: u64) -> Option<u64>
    ensures answer { result ≡ number_of most word.now }
    ensures within { IfSome result (λ n. n ≤ most) }
{
    if is_hex(word) {
        numeral(&word[2..], 16, most)
    } else {
        numeral(word, 10, most)
    }
}

impl Word<'_> {
    // The number that the word writes.
    pub fn number<T: Numeral>(self) -> Result<T, TextFault>
        ensures answer { told_as T.value result self.entry.end ≡ or_fault self.entry.start T.EXPECTED self.entry.end (number_of T.MOST self.entry.text.now) }
    {
        let fault = self.fault(T::EXPECTED);
        let number = number_of(self.text, T::MOST).ok_or(fault)?;
        T::from_u64(number).ok_or(fault)
    }
}

impl Cursor<'_> {
    // The number that the next word writes; then the place is behind the word. After a fault it is the
    // old one. Reading back a number that was written gives the same number.
    pub fn number<T: Numeral>(&mut self) -> Result<T, TextFault>
        ensures answer { told_as T.value result self.new.at ≡ number_at T.MOST T.EXPECTED self.old.line.now self.old.at }
        ensures line { self.new.line ≡ self.old.line }
        ensures fault { IfErr result (λ _. self.new.at ≡ self.old.at) }
        ensures back { ReadBack T.MOST T.EXPECTED T.DIGITS }
        ensures back_32 { Numbers32ReadBack }
        ensures back_64 { Numbers64ReadBack }
    {
        let word = self.next_word();
        let number = word.number()?;
        self.at = word.end;
        Ok(number)
    }
}
