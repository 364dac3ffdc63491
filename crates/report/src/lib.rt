// What a text opens to, and what the program `opening` prints for it.
#![tactic(auto)]

ghost use Rattle.std.specs.Prelude.{◌≡◌, [], ◌∷◌, ◌+◌, ◌*◌, ◌≤◌, length};
ghost use Rattle.lists.specs.Ascii.{ascii};
ghost use Rattle.text.specs.Lines.{line};
ghost use Rattle.text.specs.Internal.Writing.{Written};
ghost use Rattle.report.specs.Report.{report, Reported};
ghost use Rattle.report.specs.Internal.Printing.{word_lines, answer_lines};

use reconstruction::{Opened, Unopened};
use shares::Shape;
use text::Output;

// The answer where a secret was opened: who survived and who agrees, and the station's shape, by which the secret has d words.
#[derive(Clone, Copy)]
struct Answer {
    opened: Opened,
    shape: Shape,
}

// What a text opens to, with the secret at the front of its buffer; or the refusal, of the reader or of opening, and the survivors.
fn open_text(
    text: &[u8],
    words: &mut [u16; 4867],
    secret: &mut [u16; 64],
) -> Result<Answer, Unopened>
    ensures { answer_lines result secret.new ≡ report text.now }
{
    let hand_in = handin::read(text, words).map_err(|refusal| Unopened {
        refusal,
        survivors: 0,
    })?;
    let shape = Shape::new(hand_in.t, hand_in.d);
    let answer = reconstruction::reconstruct(
        hand_in.t,
        hand_in.day,
        hand_in.present,
        hand_in.quorum,
        &words[..shape.n * shape.width],
        &mut secret[..hand_in.d],
    );
    let opened = answer.outcome?;
    Ok(Answer { opened, shape })
}

// The line of a word, at its place counted from 1. No type holds the room that is asked for here and below: it is used up as lines are written.
#[tactic(auto, using(crate::proofs::Lines::lengths), unfolding(lists::specs::Ascii::ascii))]
fn put_word_line(place: usize, word: u16, output: &mut Output)
    requires { (place ≤ 64) × (output.old.end + 14 ≤ length output.old.bytes.now) }
    ensures same_reference { output.new.bytes.ghost_name ≡ output.old.bytes.ghost_name }
    ensures written { Written output.old.bytes.now output.old.end (line (ascii "WORD") (place ∷ word ∷ [])) output.new.bytes.now output.new.end }
{
    output.put_line(b"WORD", place as u32, word as u32);
}

// A line for each word of the secret.
fn put_words(secret: &[u16], output: &mut Output)
    requires { (length secret.now ≤ 64) × (output.old.end + 14 * length secret.now ≤ length output.old.bytes.now) }
    ensures same_reference { output.new.bytes.ghost_name ≡ output.old.bytes.ghost_name }
    ensures written { Written output.old.bytes.now output.old.end (word_lines secret.now) output.new.bytes.now output.new.end }
{
    for (k, word) in secret.iter().enumerate() {
        put_word_line(k + 1, *word, output);
    }
}

// The lines of an answer, whose secret is at the front of the buffer: at most 27 bytes, and 14 for each word.
#[tactic(auto, using(crate::proofs::Lines::lengths), unfolding(lists::specs::Ascii::ascii, crate::specs::Internal::Printing::answer_lines))]
fn put_answer(answer: Result<Answer, Unopened>, buffer: &[u16; 64], output: &mut Output)
    requires { output.old.end + 1024 ≤ length output.old.bytes.now }
    ensures same_reference { output.new.bytes.ghost_name ≡ output.old.bytes.ghost_name }
    ensures written { Written output.old.bytes.now output.old.end (answer_lines answer buffer.now) output.new.bytes.now output.new.end }
{
    match answer {
        Ok(secret) => {
            output.put_line(b"OPEN", secret.opened.survivors, secret.opened.agreeing);
            put_words(&buffer[..secret.shape.d], output);
        }
        Err(why) => output.put_line(b"REFUSED", u16::from(why.refusal) as u32, why.survivors),
    }
}

// The bytes that the program prints for a text, at the front of the buffer, and how many. (A part of the buffer as the answer would need a contract that ties
// the part to the buffer that was lent.)
pub fn report(text: &[u8], output: &mut [u8; 1024]) -> usize
    ensures { Reported text.now output.old output.new result }
{
    let mut words = [0u16; 4867];
    let mut secret = [0u16; 64];
    let answer = open_text(text, &mut words, &mut secret);
    let mut printed = Output::new(output);
    put_answer(answer, &secret, &mut printed);
    printed.end()
}
