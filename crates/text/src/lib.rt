// Bytes of text both ways: numerals, fields and lines, read and printed.
#![tactic(auto)]

ghost use Rattle.std.specs.Prelude.{◌≡◌, ◌≢◌, ℕ, cond, [], ◌∷◌, ◌++◌, map, ◌+◌, ◌*◌, ◌<◌, ◌≤◌, eqb, leb, Some, None, length, get_or, slice_index, EachIndex, MatchOption, IfSome};
ghost use Rattle.std.specs.Option.{option_copied};
ghost use Rattle.std.proofs.Math.Option.{some, none};
ghost use Rattle.lists.specs.Tabulate.{concat};
ghost use Rattle.text.specs.Lines.{is_digit, parts, line_of, digits, field, line};
ghost use Rattle.text.specs.Internal.Kinds.{kind_of};
ghost use Rattle.text.specs.Internal.Scanning.{fields_left, numeral_of};
ghost use Rattle.text.specs.Internal.Writing.{Written};

// What a byte is.
#[derive(Clone, Copy)]
enum Kind {
    Digit,
    Tab,
    End,
    Letter,
    Other,
}

// By a range for the digits and single values for the rest. These have a match of their own: in one match the compiler tests the single values first, and
// reading took 1.05 times as long.
#[tactic(auto, using(crate::proofs::Bytes::kinds))]
fn sort(b: u8) -> Kind
    ensures { result ≡ kind_of b }
{
    match b {
        b'0'..=b'9' => Kind::Digit,
        rest => match rest {
            b'\t' => Kind::Tab,
            b'\n' => Kind::End,
            b'D' | b'P' => Kind::Letter,
            _ => Kind::Other,
        },
    }
}

// Document 01 wants each byte sorted by a match, so this test and the next go through it.
fn is_digit(b: u8) -> bool
    ensures { result ≡ is_digit b }
{
    match sort(b) {
        Kind::Digit => true,
        Kind::Tab => false,
        Kind::End => false,
        Kind::Letter => false,
        Kind::Other => false,
    }
}

// Whether a byte is this mark.
fn is_mark(b: u8, mark: u8) -> bool
    ensures { result ≡ eqb b mark }
{
    match sort(b) {
        Kind::Tab => mark == b'\t',
        Kind::End => mark == b'\n',
        Kind::Digit | Kind::Letter | Kind::Other => b == mark,
    }
}

// The place of the first byte that is this one.
fn place(bytes: &[u8], separator: u8) -> Option<usize>
    ensures { MatchOption result
        (EachIndex bytes.now (λ k. slice_index bytes.now k ≢ separator))
        (λ i. (i < length bytes.now) × ((slice_index bytes.now i ≡ separator) × ((k : ℕ) → k < i → slice_index bytes.now k ≢ separator))) }
{
    bytes.iter().position(|b| is_mark(*b, separator))
}

// The part before the first separator, and the bytes after it.
pub fn split_once(bytes: &[u8], separator: u8) -> Option<(&[u8], &[u8])>
    ensures parts { MatchOption result
        (parts separator bytes.now ≡ bytes.now ∷ [])
        (λ p. parts separator bytes.now ≡ p.0.now ∷ parts separator p.1.now) }
    ensures shorter { IfSome result (λ p. (length p.0.now < length bytes.now) × (length p.1.now < length bytes.now)) }
{
    let i = place(bytes, separator)?;
    Some((&bytes[..i], &bytes[i + 1..]))
}

// The first field of a line, and what follows its tab, if it has one.
fn first_field(line: &[u8]) -> (&[u8], Option<&[u8]>)
    ensures { parts 9 line.now ≡ result.0.now ∷ fields_left (option_copied result.1) }
{
    match split_once(line, b'\t') {
        Some((field, rest)) => (field, Some(rest)),
        None => (line, None),
    }
}

// A number that is at most 65535.
fn short(value: u32) -> Option<u16>
    ensures { result ≡ cond (leb value 65535) (Some value) None }
{
    u16::try_from(value).ok()
}

// What 1 to 5 bytes stand for, of which the first of several is no zero: their number, if they are digits and it is at most 65535.
fn digits_value(field: &[u8]) -> Option<u16>
    requires few { (1 ≤ length field.now) × (length field.now ≤ 5) }
    requires front { 1 < length field.now → get_or field.now 0 0 ≢ 48 }
    ensures { result ≡ numeral_of field.now }
{
    let mut value: u32 = 0;
    for b in field {
        if !is_digit(*b) {
            return None;
        }
        value = 10 * value + (*b - b'0') as u32;
    }
    short(value)
}

// What a field stands for: the number of 1 to 5 digits with no leading zero, at most 65535. Not by `parse`, which takes a sign and leading zeros. A single byte
// goes its own way: it may be 0, and the compiler then unrolls the loop for several (reading took 1.8 times as long without).
#[tactic(auto, using(crate::proofs::Numerals::refused_fields))]
fn numeral(field: &[u8]) -> Option<u16>
    ensures { result ≡ numeral_of field.now }
{
    if field.is_empty() {
        return None;
    }
    if 5 < field.len() {
        return None;
    }
    if field.len() == 1 {
        return digits_value(field);
    }
    if field[0] == b'0' {
        return None;
    }
    digits_value(field)
}

// The numbers of a line that is a letter and then exactly as many numerals as `out` has words. For any other line `out` is left with words of no meaning.
// It answers whether the line is one; the numbers themselves go into the lent words, since no memory is allocated.
pub fn numbers(line: &[u8], letter: u8, out: &mut [u16]) -> Option<()>
    ensures { MatchOption result (line_of letter (length out.old) line.now ≡ none) (λ _. line_of letter (length out.old) line.now ≡ some out.new) }
{
    let (head, mut rest) = first_field(line);
    if head.len() != 1 {
        return None;
    }
    if !is_mark(head[0], letter) {
        return None;
    }
    for number in out.iter_mut() {
        let (field, after) = first_field(rest?);
        *number = numeral(field)?;
        rest = after;
    }
    match rest {
        Some(_) => None,
        None => Some(()),
    }
}

// The powers of ten that fit 32 bits, from 10 on.
const TENS: [u32; 9] = [
    10, 100, 1000, 10000, 100000, 1000000, 10000000, 100000000, 1000000000,
];

// How many digits a number has: one, and one more for each power of ten that it reaches. By `checked_ilog10` writing took 1.4 times as long, and with all
// powers looked at, also past the first that is not reached, writing words of one digit took 2.5 times as long.
fn count_digits(n: u32) -> usize
    ensures exact { result ≡ length (digits 10 n) }
    ensures few { result ≤ 10 }
{
    let mut count = 1;
    for power in &TENS {
        if n < *power {
            return count;
        }
        count += 1;
    }
    count
}

// How many bytes the fields of numbers have.
#[tactic(auto, using(crate::proofs::FieldLists::counting))]
fn fields_length(numbers: &[u16]) -> usize
    requires { length numbers.now ≤ 65535 }
    ensures exact { result ≡ length (concat (map field numbers.now)) }
    ensures few { result ≤ 11 * length numbers.now }
{
    let mut count = 0;
    for n in numbers {
        count += 1 + count_digits(*n as u32);
    }
    count
}

// How many bytes a line has: a word, a number, and a list of numbers.
#[tactic(auto, using(crate::proofs::Printing::lengths))]
pub fn list_length(word: &[u8], first: u16, numbers: &[u16]) -> usize
    requires { (length word.now ≤ 65535) × (length numbers.now ≤ 65535) }
    ensures { result ≡ length (line word.now (first ∷ numbers.now)) }
{
    let head = word.len() + count_digits(first as u32) + 1;
    head + fields_length(numbers) + 1
}

// A buffer that bytes are written into, one after the other, and the place of the next. The caller reads its own buffer afterwards, so each contract says that
// the bytes are still those of that buffer (same_reference), and what they are now. The room that each asks for, here and in the crates above, is in no type:
// it is used up as bytes are written.
#[derive(Drop)]
pub struct Output<'a> {
    bytes: &'a mut [u8],
    end: usize,
}

impl<'a> Output<'a> {
    // At the front of a buffer.
    pub fn new(bytes: &'a mut [u8]) -> Output<'a>
        ensures same_reference { result.bytes.ghost_name ≡ bytes.entry.ghost_name }
        ensures same_bytes { result.bytes.now ≡ bytes.old }
        ensures front { result.end ≡ 0 }
    {
        Output { bytes, end: 0 }
    }

    // The place of the next byte.
    pub fn end(&self) -> usize
        ensures { result ≡ self.now.end }
    {
        self.end
    }

    // One byte.
    fn put_byte(&mut self, b: u8)
        requires { self.old.end < length self.old.bytes.now }
        ensures same_reference { self.new.bytes.ghost_name ≡ self.old.bytes.ghost_name }
        ensures written { Written self.old.bytes.now self.old.end (b ∷ []) self.new.bytes.now self.new.end }
    {
        self.bytes[self.end] = b;
        self.end += 1;
    }

    // Bytes, copied.
    fn put_bytes(&mut self, bytes: &[u8])
        requires { self.old.end + length bytes.now ≤ length self.old.bytes.now }
        ensures same_reference { self.new.bytes.ghost_name ≡ self.old.bytes.ghost_name }
        ensures written { Written self.old.bytes.now self.old.end bytes.now self.new.bytes.now self.new.end }
    {
        let at = self.end;
        let end = at + bytes.len();
        let room = &mut *self.bytes;
        lists::copy(bytes, &mut room[at..end]);
        self.end = end;
    }

    // The digits of a number, from the last down to the first. Printed by hand: the library, whose writer prints a share's words by it, needs nothing but
    // memcpy and memset, so no formatter. The loop goes over places, since nothing would be known of the bytes after `iter_mut().rev()`. A single digit goes its own
    // way: writing words of one digit took 1.6 times as long without.
    fn put_digits(&mut self, n: u32)
        requires { self.old.end + length (digits 10 n) ≤ length self.old.bytes.now }
        ensures same_reference { self.new.bytes.ghost_name ≡ self.old.bytes.ghost_name }
        ensures written { Written self.old.bytes.now self.old.end (digits 10 n) self.new.bytes.now self.new.end }
    {
        if n < 10 {
            self.put_byte(48 + n as u8); // no division
            return;
        }
        let at = self.end;
        let end = at + count_digits(n);
        let bytes = &mut *self.bytes;
        let mut rest = n;
        for i in (at..end).rev() {
            bytes[i] = 48 + (rest % 10) as u8;
            rest /= 10;
        }
        self.end = end;
    }

    // A tab and a number.
    #[tactic(auto, unfolding(crate::specs::Lines::field))]
    fn put_field(&mut self, n: u32)
        requires { self.old.end + length (field n) ≤ length self.old.bytes.now }
        ensures same_reference { self.new.bytes.ghost_name ≡ self.old.bytes.ghost_name }
        ensures written { Written self.old.bytes.now self.old.end (field n) self.new.bytes.now self.new.end }
    {
        self.put_byte(9);
        self.put_digits(n);
    }

    // A field for each number.
    fn put_fields(&mut self, numbers: &[u16])
        requires { self.old.end + length (concat (map field numbers.now)) ≤ length self.old.bytes.now }
        ensures same_reference { self.new.bytes.ghost_name ≡ self.old.bytes.ghost_name }
        ensures written { Written self.old.bytes.now self.old.end (concat (map field numbers.now)) self.new.bytes.now self.new.end }
    {
        for n in numbers {
            self.put_field(*n as u32);
        }
    }

    // The end of a line: a field for each number, and the byte 10.
    fn put_rest(&mut self, numbers: &[u16])
        requires { self.old.end + length (concat (map field numbers.now)) + 1 ≤ length self.old.bytes.now }
        ensures same_reference { self.new.bytes.ghost_name ≡ self.old.bytes.ghost_name }
        ensures written { Written self.old.bytes.now self.old.end (concat (map field numbers.now) ++ 10 ∷ []) self.new.bytes.now self.new.end }
    {
        self.put_fields(numbers);
        self.put_byte(10);
    }

    // A line: a word and two numbers. These may be masks, too large for `put_list`: to print them by that, a share's words would have to be widened to u32
    // first, or four functions take a bound.
    pub fn put_line(&mut self, word: &[u8], a: u32, b: u32)
        requires { self.old.end + length word.now + length (field a) + length (field b) + 1 ≤ length self.old.bytes.now }
        ensures same_reference { self.new.bytes.ghost_name ≡ self.old.bytes.ghost_name }
        ensures written { Written self.old.bytes.now self.old.end (line word.now (a ∷ b ∷ [])) self.new.bytes.now self.new.end }
    {
        self.put_bytes(word);
        self.put_field(a);
        self.put_field(b);
        self.put_byte(10);
    }

    // A line: a word, a number, and a list of numbers.
    pub fn put_list(&mut self, word: &[u8], first: u16, numbers: &[u16])
        requires { self.old.end + length word.now + length (field first) + length (concat (map field numbers.now)) + 1 ≤ length self.old.bytes.now }
        ensures same_reference { self.new.bytes.ghost_name ≡ self.old.bytes.ghost_name }
        ensures written { Written self.old.bytes.now self.old.end (line word.now (first ∷ numbers.now)) self.new.bytes.now self.new.end }
    {
        self.put_bytes(word);
        self.put_field(first as u32);
        self.put_rest(numbers);
    }

    // A line of numbers: its first has no tab before it.
    pub fn put_numbers(&mut self, first: u32, numbers: &[u16])
        requires { self.old.end + length (digits 10 first) + length (concat (map field numbers.now)) + 1 ≤ length self.old.bytes.now }
        ensures same_reference { self.new.bytes.ghost_name ≡ self.old.bytes.ghost_name }
        ensures written { Written self.old.bytes.now self.old.end (line (digits 10 first) numbers.now) self.new.bytes.now self.new.end }
    {
        self.put_digits(first);
        self.put_rest(numbers);
    }
}
