// Words of a fixed sequence, on which the test programs run, how they print words, and how they read their input.
#![tactic(auto)]

ghost use Rattle.std.specs.Prelude.{◌≡◌, ℕ, ◌+◌, ◌*◌, ◌%◌, ◌<◌, ◌^◌, ◌++◌, length, flat_map, Some, IfOk, IfSome, OnOk};
ghost use Rattle.std.specs.Fmt.{decimal};
ghost use Rattle.std.specs.Io.KnownBytes.{IsAtEnd};
ghost use Rattle.samples.specs.Internal.Iterated.{iterated};

use std::alloc::Global;
use std::io::Read;
use std::{fmt, io};

// The next word of a fixed sequence.
pub fn next(x: u16) -> u16
    ensures { result ≡ (x * 25173 + 13849) % 65536 }
{
    ((x as u32 * 25173 + 13849) % 65536) as u16
}

// Each word is made from the one before by `next`, the first from the seed.
pub fn fill<F: Fn(u16) -> u16>(words: &mut [u16], seed: u16, next: F)
    requires { F.IsAlwaysCallable next }
    ensures { (f : ℕ → ℕ)
        → ((x y : ℕ) → x < 2 ^ 16 → F.post next x y → y ≡ f x) → words.new ≡ iterated f (length words.old) seed }
{
    let mut last = seed;
    for word in words {
        last = next(last);
        *word = last;
    }
}

// Words to print, and the text after each.
#[derive(Clone, Copy)]
pub struct Spaced<'a>(pub &'a [u16], pub &'a str);

impl fmt::Display for Spaced<'_> {
    ghost output = { λ it. Some (flat_map (λ word. decimal word ++ it.1.now) it.0.now) };

    fn fmt<W: fmt::Write>(&self, f: &mut fmt::Formatter<W>) -> fmt::Result {
        for word in self.0 {
            write!(f, "{word}{}", self.1)?;
        }
        Ok(())
    }
}

// All that a reader has left. The test programs that read standard input by it show that it can succeed.
pub fn read_all<R: Read>(alloc: Global, reader: &mut R) -> io::Result<Vec<u8>>
    ensures bytes { IfOk result (λ v. IfSome (R.remaining reader.old) (λ bytes. v.items ≡ bytes)) }
    ensures end { OnOk result (IsAtEnd (R.remaining reader.new)) }
{
    let mut bytes = Vec::new(alloc);
    reader.read_to_end(&mut bytes)?;
    Ok(bytes)
}
