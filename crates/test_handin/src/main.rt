// Reads hand-in texts and prints for each the number, t, d, the quorum, the day, the present mask and a checksum of the buffer; then writes texts and
// prints for each the number, the count and the buffer. The file stdout beside this folder is what another implementation answers, model.py.
#![tactic(auto)]

ghost use Rattle.std.specs.Prelude.{◌<◌};

use handin::HandIn;
use refusals::number_of;
use std::io;

// `u64::from` with its bound, which the sum below needs and an edit spoils.
fn wide(word: u16) -> u64
    ensures { result < 65536 }
{
    u64::from(word)
}

fn checksum(words: &[u16]) -> u64 {
    let mut sum: u64 = 0;
    for word in words {
        sum = (31 * sum + wide(*word) + 1) % 65521;
    }
    sum
}

fn show(rt: &impl Print, number: u16, met: HandIn, words: &[u16]) -> io::Result<()> {
    let sum = checksum(words);
    println!(rt;
        "{number}\t{}\t{}\t{}\t{}\t{}\t{sum}",
        met.t, met.d, met.quorum, met.day, met.present
    )
}

fn reads(rt: &impl Print, text: &[u8], words: &mut [u16]) -> io::Result<()> {
    let outcome = handin::read(text, words);
    show(rt, number_of(outcome), outcome.unwrap_or_default(), words)
}

// The text on standard input: 31 shares of 157 five-digit words.
fn largest(rt: &(impl Print + Input + AllocGlobal), words: &mut [u16]) -> io::Result<()> {
    let text = samples::read_all(rt.alloc(), &mut rt.reader())?;
    reads(rt, &text, words)
}

// A buffer of another length, and a text that is too long.
fn lengths(rt: &impl Print, words: &mut [u16]) -> io::Result<()> {
    let mut short = [7u16; 4866];
    reads(rt, b"D\t1\t1\t0\t1\n", &mut short)?;
    let long = [0u8; 40001];
    reads(rt, &long, words)
}

// Texts that are read: the document's sample, nobody, another order, the largest numerals.
fn samples(rt: &impl Print, words: &mut [u16]) -> io::Result<()> {
    reads(
        rt,
        b"D\t1\t1\t0\t1\nP\t1\t253\t255\t1015\t2281\t1\t1\t1\t2\t1\t3\nP\t2\t256\t259\t1028\t2309\t2\t1\t2\t2\t2\t3\nP\t3\t300\t263\t1041\t2337\t3\t1\t3\t2\t3\t3\n",
        words,
    )?;
    reads(rt, b"D\t1\t1\t0\t1\n", words)?;
    reads(
        rt,
        b"D\t1\t1\t0\t1\nP\t3\t300\t263\t1041\t2337\t3\t1\t3\t2\t3\t3\nP\t1\t253\t255\t1015\t2281\t1\t1\t1\t2\t1\t3\n",
        words,
    )?;
    reads(
        rt,
        b"D\t1\t2\t65535\t65520\nP\t2\t65535\t65521\t0\t0\t0\t0\t0\t0\t0\t0\t9\n",
        words,
    )
}

// First lines that are no D line.
fn first_lines(rt: &impl Print, words: &mut [u16]) -> io::Result<()> {
    reads(rt, b"", words)?;
    reads(rt, b"D\t1\t1\t0\t1", words)?;
    reads(rt, b"\n", words)?;
    reads(rt, b"D\t0\t1\t0\t1\n", words)?;
    reads(rt, b"D\t16\t1\t0\t1\n", words)?;
    reads(rt, b"D\t1\t65\t0\t1\n", words)
}

// First lines with a field that is no letter or no numeral, or one field too many.
fn first_fields(rt: &impl Print, words: &mut [u16]) -> io::Result<()> {
    reads(rt, b"D\t1\t1\t65536\t1\n", words)?;
    reads(rt, b"D\t01\t1\t0\t1\n", words)?;
    reads(rt, b"D\t1\t1\t0\t1\r\n", words)?;
    reads(rt, b"d\t1\t1\t0\t1\n", words)?;
    reads(
        rt,
        b"D\t1\t1\t0\t1\t0\nP\t1\t253\t255\t1015\t2281\t1\t1\t1\t2\t1\t3\n",
        words,
    )?;
    reads(rt, b"D\t1\t1\t:\t1\n", words)
}

// First lines without a good day.
fn first_days(rt: &impl Print, words: &mut [u16]) -> io::Result<()> {
    reads(rt, b"D\t1\t1\t0\n", words)?;
    reads(rt, b"D\t1\t1\t0\t\n", words)?;
    reads(rt, b"D\t1\t1\t0\t0\n", words)?;
    reads(rt, b"D\t1\t1\t0\t65521\n", words)?;
    reads(rt, b"D\t1\t1\t0\t65535\n", words)?;
    reads(rt, b"D\t1\t1\t0\t65537\n", words)?;
    reads(rt, b"D\t1\t1\t0\t01\n", words)
}

// Lines that are no P line.
fn other_lines(rt: &impl Print, words: &mut [u16]) -> io::Result<()> {
    reads(
        rt,
        b"D\t1\t1\t0\t1\nP\t1\t253\t255\t1015\t2281\t1\t1\t1\t2\t1\t3\nP\t0\t0\t0\t0\t0\t0\t0\t0\t0\t0\n",
        words,
    )?;
    reads(
        rt,
        b"D\t1\t1\t0\t1\nP\t1\t253\t255\t1015\t2281\t1\t1\t1\t2\t1\t3\nP\t1\t0\t0\t0\t0\t0\t0\t0\t0\t0\t0\t\n",
        words,
    )?;
    reads(
        rt,
        b"D\t1\t1\t0\t1\nP\t1\t253\t255\t1015\t2281\t1\t1\t1\t2\t1\t3\nD\t1\t1\t0\t1\n",
        words,
    )?;
    reads(
        rt,
        b"D\t1\t1\t0\t1\nP\t1\t253\t255\t1015\t2281\t1\t1\t1\t2\t1\t3\n\n",
        words,
    )?;
    reads(
        rt,
        b"D\t1\t1\t0\t1\nP\t1\t253\t255\t1015\t2281\t1\t1\t1\t2\t1\t3\nP\t2\t0\t0\t0\t0\t0\t0\t0\t0\t0\t0",
        words,
    )?;
    reads(
        rt,
        b"D\t1\t1\t0\t1\nP\t65536\t0\t0\t0\t0\t0\t0\t0\t0\t0\t0\n",
        words,
    )?;
    reads(
        rt,
        b"D\t1\t1\t0\t1\nP\t1\t253\t255\t1015\t2281\t1\t1\t1\t2\t1\t3\nP\t1\t0\t0\t0\t0\t0\t0\t0\t0\t0\t00\n",
        words,
    )?;
    reads(
        rt,
        b"D\t1\t1\t0\t1\nP\t1\t253\t255\t1015\t2281\t1\t1\t1\t2\t1\t3\nx\nP\t1\t253\t255\t1015\t2281\t1\t1\t1\t2\t1\t3\n",
        words,
    )
}

// Members that are not 1 to n, or met before.
fn other_members(rt: &impl Print, words: &mut [u16]) -> io::Result<()> {
    reads(
        rt,
        b"D\t1\t1\t0\t1\nP\t0\t0\t0\t0\t0\t0\t0\t0\t0\t0\t0\n",
        words,
    )?;
    reads(
        rt,
        b"D\t1\t1\t0\t1\nP\t4\t0\t0\t0\t0\t0\t0\t0\t0\t0\t0\n",
        words,
    )?;
    reads(
        rt,
        b"D\t1\t1\t0\t1\nP\t65535\t0\t0\t0\t0\t0\t0\t0\t0\t0\t0\n",
        words,
    )?;
    reads(
        rt,
        b"D\t1\t1\t0\t1\nP\t1\t253\t255\t1015\t2281\t1\t1\t1\t2\t1\t3\nP\t2\t256\t259\t1028\t2309\t2\t1\t2\t2\t2\t3\nP\t1\t253\t255\t1015\t2281\t1\t1\t1\t2\t1\t3\n",
        words,
    )?;
    reads(
        rt,
        b"D\t1\t1\t0\t1\nP\t1\t253\t255\t1015\t2281\t1\t1\t1\t2\t1\t3\nP\t1\t253\t255\t1015\t2281\t1\t1\t1\t2\t1\t3\nx\n",
        words,
    )
}

fn show_text(rt: &impl Print, number: u16, count: usize, text: &[u8]) -> io::Result<()> {
    println!(rt; "{number}\t{count}")?;
    rt.write_all(text)?;
    println!(rt)
}

fn writes(
    rt: &impl Print,
    t: usize,
    d: usize,
    quorum: u16,
    day: u16,
    present: u32,
    shares: &[u16],
    text: &mut [u8],
) -> io::Result<()> {
    let outcome = handin::write(t, d, quorum, day, present, shares, text);
    show_text(rt, number_of(outcome), outcome.unwrap_or(0), text)
}

// A text for t = 1, d = 1 and day 1, into 120 bytes.
fn writes_sample(rt: &impl Print, quorum: u16, present: u32, shares: &[u16]) -> io::Result<()> {
    let mut text = [46u8; 120];
    writes(rt, 1, 1, quorum, 1, present, shares, &mut text)
}

// Texts that are written: the document's sample, without member 2, nobody, any quorum and words, the last day.
fn written(rt: &impl Print, shares: &[u16]) -> io::Result<()> {
    writes_sample(rt, 0, 7, shares)?;
    writes_sample(rt, 0, 5, shares)?;
    writes_sample(rt, 2, 0, shares)?;
    writes_sample(rt, 65535, 2, &[65535u16; 30])?;
    let mut text = [46u8; 20];
    writes(rt, 1, 1, 0, 65520, 0, shares, &mut text)
}

// A buffer just long enough, one byte short, and empty.
fn rooms(rt: &impl Print, shares: &[u16]) -> io::Result<()> {
    let mut enough = [46u8; 112];
    writes(rt, 1, 1, 0, 1, 7, shares, &mut enough)?;
    let mut short = [46u8; 111];
    writes(rt, 1, 1, 0, 1, 7, shares, &mut short)?;
    writes(rt, 1, 1, 0, 1, 7, shares, &mut [])
}

// Each refusal, alone and before the next.
fn refusals(rt: &impl Print, shares: &[u16]) -> io::Result<()> {
    let mut text = [46u8; 20];
    writes(rt, 0, 1, 0, 1, 0, shares, &mut text)?;
    writes(rt, 16, 65, 0, 1, 0, shares, &mut text)?;
    writes(rt, 1, 0, 0, 1, 0, shares, &mut text)?;
    writes(rt, 1, 65, 0, 0, 0, &[], &mut text)?;
    writes(rt, 1, 1, 0, 0, 8, &[0u16; 31], &mut text)?;
    writes(rt, 1, 1, 0, 65521, 0, shares, &mut text)?;
    writes(rt, 1, 1, 0, 65535, 0, shares, &mut text)?;
    writes(rt, 1, 1, 0, 1, 8, &[0u16; 31], &mut text)?;
    writes(rt, 1, 1, 0, 1, 8, shares, &mut text)?;
    writes(rt, 1, 1, 0, 1, 7, shares, &mut text)
}

// The shares that the first text had, by rising member.
fn writes_largest(rt: &impl Print, words: &[u16]) -> io::Result<()> {
    let mut text = [46u8; 29368];
    writes(rt, 15, 64, 65535, 65520, 2147483647, words, &mut text)
}

fn writer(rt: &impl Print) -> io::Result<()> {
    let sample = [
        253u16, 255, 1015, 2281, 1, 1, 1, 2, 1, 3, 256, 259, 1028, 2309, 2, 1, 2, 2, 2, 3, 300,
        263, 1041, 2337, 3, 1, 3, 2, 3, 3,
    ];
    written(rt, &sample)?;
    rooms(rt, &sample)?;
    refusals(rt, &sample)
}

fn main(rt: HostRuntime) -> io::Result<()> {
    let mut words = [7u16; 4867];
    largest(&rt, &mut words)?;
    writes_largest(&rt, &words)?;
    lengths(&rt, &mut words)?;
    samples(&rt, &mut words)?;
    first_lines(&rt, &mut words)?;
    first_fields(&rt, &mut words)?;
    first_days(&rt, &mut words)?;
    other_lines(&rt, &mut words)?;
    other_members(&rt, &mut words)?;
    writer(&rt)
}
