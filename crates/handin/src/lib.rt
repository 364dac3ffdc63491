// The reader of hand-in text, its lines one after the other into a buffer of shares; and its writer.
#![tactic(auto)]

ghost use Rattle.std.specs.Prelude.{◌≡◌, cond, List, [], ◌∷◌, ◌+◌, ◌≤◌, ◌<◌, length, get_or, replicate, ℕ};
ghost use Rattle.std.proofs.Math.Option.{some};
ghost use Rattle.members.specs.Members.{has};
ghost use Rattle.shares.specs.Layout.{capacity};
ghost use Rattle.text.specs.Lines.{parts};
ghost use Rattle.text.specs.Internal.Writing.{Written};
ghost use Rattle.handin.specs.Reader.{Share, take_numbers, take_line, take_lines, read_numbers, read_lines, read};
ghost use Rattle.handin.specs.Writer.{first_line, share_line, share_lines, text_of, write};
ghost use Rattle.handin.specs.Internal.Fitted.{fitted};
ghost use Rattle.handin.specs.Internal.Progress.{Holds, Comes, cleared};
ghost use Rattle.handin.specs.Answer.{answer_of, written_of};

use refusals::Refusal;
use shares::{Shape, Shares};
use text::Output;

// A line of the right shape: the member is judged, and only then is its share's place worked out. The words are lent through all of the reader, beside what is
// read: a struct round a lent buffer would have to say in each contract whose words it writes.
#[tactic(auto, using(crate::proofs::Taking::share_room))]
fn take_share(
    s: Shape,
    present: u32,
    numbers: &[u16],
    words: &mut [u16; 4867],
) -> Result<u32, Refusal>
    requires { length numbers.now ≡ 1 + s.width }
    ensures { (taken : List Share) → Holds s.t s.d taken present words.old → Comes s.t s.d (take_numbers s.t taken (some numbers.now)) result words.new }
{
    let member = numbers[0] as usize;
    if !lists::within(1, s.n, member) {
        return Err(Refusal::BadLineMember);
    }
    let i = member - 1;
    if members::has(present, i) {
        return Err(Refusal::BadLineMember);
    }
    let at = i * s.width;
    lists::copy(&numbers[1..], &mut words[at..at + s.width]);
    Ok(members::with(present, i))
}

// One line: its shape whole, and then its member.
fn take_line(line: &[u8], s: Shape, present: u32, words: &mut [u16; 4867]) -> Result<u32, Refusal>
    ensures { (taken : List Share) → Holds s.t s.d taken present words.old → Comes s.t s.d (take_line s.t s.d taken line.now) result words.new }
{
    let mut room = [0u16; 158]; // for the widest line: a share's width is known at run time only, and no memory is allocated
    let numbers = &mut room[..1 + s.width];
    text::numbers(line, b'P', numbers).ok_or(Refusal::BadLine)?;
    take_share(s, present, numbers, words)
}

// The P lines one after the other, into a buffer that is cleared first: the present mask. On a refusal the caller clears the buffer.
fn take_lines(text: &[u8], s: Shape, words: &mut [u16; 4867]) -> Result<u32, Refusal>
    ensures { Comes s.t s.d (take_lines s.t s.d [] (parts 10 text.now)) result words.new }
{
    words.fill(0);
    let mut present = 0;
    let mut rest = text;
    while !rest.is_empty() {
        let (line, later) = text::split_once(rest, 10).ok_or(Refusal::BadLine)?;
        present = take_line(line, s, present, words)?;
        rest = later;
    }
    Ok(present)
}

// What a text gives beside the shares: t, d, the quorum, the day, and the present mask.
#[derive(Clone, Copy, Default)]
pub struct HandIn {
    pub t: usize,
    pub d: usize,
    pub quorum: u16,
    pub day: u16,
    pub present: u32,
}

// The numbers of a D line, and the P lines after it.
#[tactic(auto, using(crate::proofs::Reading::by_numbers))]
fn read_numbers(text: &[u8], first: &[u16; 4], words: &mut [u16; 4867]) -> Result<HandIn, Refusal>
    ensures { answer_of result (cleared result words.new) ≡ read_numbers (length words.old) (some first.now) (parts 10 text.now) }
{
    let t = first[0] as usize;
    let d = first[1] as usize;
    let quorum = first[2];
    let day = first[3];
    let Ok(shape) = Shape::check(t, d, day) else {
        return Err(Refusal::BadFirstLine);
    };
    let present = take_lines(text, shape, words)?;
    Ok(HandIn {
        t,
        d,
        quorum,
        day,
        present,
    })
}

// A text's first line, which a byte 10 ends, and the lines after it.
fn read_lines(text: &[u8], words: &mut [u16; 4867]) -> Result<HandIn, Refusal>
    ensures { answer_of result (cleared result words.new) ≡ read_lines (length words.old) (parts 10 text.now) }
{
    let (line, later) = text::split_once(text, 10).ok_or(Refusal::BadFirstLine)?;
    let mut first = [0u16; 4];
    text::numbers(line, b'D', &mut first).ok_or(Refusal::BadFirstLine)?;
    read_numbers(later, &first, words)
}

// The lengths of the buffer and of the text, and then the lines.
fn read_text(text: &[u8], words: &mut [u16]) -> Result<HandIn, Refusal>
    ensures { answer_of result (cleared result words.new) ≡ read text.now (length words.old) }
{
    let Some(words) = words.as_mut_array::<4867>() else {
        return Err(Refusal::BadBufferLength);
    };
    if 40000 < text.len() {
        return Err(Refusal::TextTooLong);
    }
    read_lines(text, words)
}

// Reads hand-in text into a buffer of 4867 words: the shares in member order, zeros for absent members and after the last share; and zeros after a refusal.
pub fn read(text: &[u8], words: &mut [u16]) -> Result<HandIn, Refusal>
    ensures { answer_of result words.new ≡ read text.now (length words.old) }
{
    let answer = read_text(text, words);
    if answer.is_err() {
        words.fill(0);
    }
    answer
}

// What a text is written from: the shares of all members, the quorum, the day, and the present mask.
#[derive(Clone, Copy)]
struct Source<'a> {
    shares: Shares<'a>,
    quorum: u16,
    day: u16,
    present: u32,
    // what each u16 is: the check knows it of a slice by itself, and not of one in a struct
    ghost small: { (k : ℕ) → get_or shares.words.now k 0 < 65536 },
}

impl Source<'_> {
    // The numbers of the D line after t: d, the quorum and the day.
    fn first_numbers(&self) -> [u16; 3]
        ensures { result ≡ self.now.shares.shape.d ∷ self.now.quorum ∷ self.now.day ∷ [] }
    {
        [self.shares.shape.d as u16, self.quorum, self.day]
    }

    // How many bytes the D line has.
    fn first_length(&self) -> usize
        ensures { result ≡ length (first_line self.now.shares.shape.t self.now.shares.shape.d self.now.quorum self.now.day) }
    {
        text::list_length(b"D", self.shares.shape.t as u16, &self.first_numbers())
    }

    // The D line.
    fn put_first(&self, output: &mut Output)
        requires { output.old.end + length (first_line self.now.shares.shape.t self.now.shares.shape.d self.now.quorum self.now.day) ≤ length output.old.bytes.now }
        ensures same_reference { output.new.bytes.ghost_name ≡ output.old.bytes.ghost_name }
        ensures written { Written output.old.bytes.now output.old.end (first_line self.now.shares.shape.t self.now.shares.shape.d self.now.quorum self.now.day) output.new.bytes.now output.new.end }
    {
        output.put_list(b"D", self.shares.shape.t as u16, &self.first_numbers());
    }

    // How many bytes member i's P line has, if it is present.
    fn share_length(&self, i: usize) -> usize
        requires { i < self.now.shares.shape.n }
        ensures { result ≡ length (cond (has self.now.present i) (share_line self.now.shares.shape.t self.now.shares.shape.d self.now.shares.words.now i) []) }
    {
        if !members::has(self.present, i) {
            return 0;
        }
        text::list_length(b"P", (i + 1) as u16, self.shares.share(i))
    }

    // Member i's P line, if it is present.
    fn put_share(&self, i: usize, output: &mut Output)
        requires i_lt_n { i < self.now.shares.shape.n }
        requires line_fits { output.old.end + length (cond (has self.now.present i) (share_line self.now.shares.shape.t self.now.shares.shape.d self.now.shares.words.now i) []) ≤ length output.old.bytes.now }
        ensures same_reference { output.new.bytes.ghost_name ≡ output.old.bytes.ghost_name }
        ensures written { Written output.old.bytes.now output.old.end (cond (has self.now.present i) (share_line self.now.shares.shape.t self.now.shares.shape.d self.now.shares.words.now i) []) output.new.bytes.now output.new.end }
    {
        if members::has(self.present, i) {
            let number = (i + 1) as u16;
            output.put_list(b"P", number, self.shares.share(i));
        }
    }

    // How many bytes the P lines of the present members have.
    fn shares_length(&self) -> usize
        ensures { result ≡ length (share_lines self.now.shares.shape.t self.now.shares.shape.d self.now.present self.now.shares.words.now self.now.shares.shape.n) }
    {
        let mut count = 0;
        for i in 0..self.shares.shape.n {
            count += self.share_length(i);
        }
        count
    }

    // The P lines of the present members, by rising number.
    fn put_shares(&self, output: &mut Output)
        requires { output.old.end + length (share_lines self.now.shares.shape.t self.now.shares.shape.d self.now.present self.now.shares.words.now self.now.shares.shape.n) ≤ length output.old.bytes.now }
        ensures same_reference { output.new.bytes.ghost_name ≡ output.old.bytes.ghost_name }
        ensures written { Written output.old.bytes.now output.old.end (share_lines self.now.shares.shape.t self.now.shares.shape.d self.now.present self.now.shares.words.now self.now.shares.shape.n) output.new.bytes.now output.new.end }
    {
        for i in 0..self.shares.shape.n {
            self.put_share(i, output);
        }
    }

    // How many bytes the text has.
    fn text_length(&self) -> usize
        ensures { result ≡ length (text_of self.now.shares.shape.t self.now.shares.shape.d self.now.quorum self.now.day self.now.present self.now.shares.words.now) }
    {
        self.first_length() + self.shares_length()
    }

    // The text, where it fits. Its lines are walked twice, to count and to write: refusal 31 leaves the buffer as it was, so the length must be known before
    // the first byte is written. A writer that counts or stores, as it is told, would carry that through each contract.
    fn put(&self, text: &mut [u8]) -> Result<usize, Refusal>
        ensures { written_of result text.new ≡ fitted (text_of self.now.shares.shape.t self.now.shares.shape.d self.now.quorum self.now.day self.now.present self.now.shares.words.now) text.old }
    {
        if text.len() < self.text_length() {
            return Err(Refusal::TextBufferTooShort);
        }
        let mut output = Output::new(text);
        self.put_first(&mut output);
        self.put_shares(&mut output);
        Ok(output.end())
    }
}

// Writes hand-in text at the front of a buffer: the D line, then a P line for each present member. The bytes past the text stay. Its first five parameters are
// HandIn's fields: the call for C has them one by one, and would make a HandIn for this one call.
#[tactic(auto, using(crate::proofs::WriterChecks::by_check))]
pub fn write(
    t: usize,
    d: usize,
    quorum: u16,
    day: u16,
    present: u32,
    shares: &[u16],
    text: &mut [u8],
) -> Result<usize, Refusal>
    ensures { written_of result text.new ≡ write t d quorum day present shares.now text.old }
{
    let shares = Shares::check(t, d, day, present, shares)?;
    let source = Source {
        shares,
        quorum,
        day,
        present,
    };
    source.put(text)
}
