// Tests and stores that several operations make.
#![tactic(auto)]

ghost use Rattle.std.specs.Prelude.{◌≡◌, length, replicate};
ghost use Rattle.lists.specs.Checks.{within as within_of};

// low ≤ x ≤ high
pub fn within(low: usize, high: usize, x: usize) -> bool
    ensures { result ≡ within_of low high x }
{
    low <= x && x <= high
}

// The word at every place of the buffer: a public function, with two must-fail edits. The slice's own `fill` says the same under a premise about clones. (No
// `fill_by` stands beside it for the loops that fill a buffer by place: a `for` over `iter_mut().enumerate()` says in two lines what a closure and its contract
// would.)
pub fn fill(buffer: &mut [u16], word: u16)
    ensures { buffer.new ≡ replicate (length buffer.old) word }
{
    buffer.fill(word);
}

// One slice over another of the same length, word by word. The slice's own copy would ask memmove of whoever links the library, which needs memcpy and memset
// alone.
pub fn copy<T: Copy>(from: &[T], to: &mut [T])
    requires { length from.now ≡ length to.old }
    ensures { to.new ≡ from.now }
{
    for (k, word) in to.iter_mut().enumerate() {
        *word = from[k];
    }
}
