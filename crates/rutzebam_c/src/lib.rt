// The calls for programs in C and Rust, declared in include/rutzebam.h: those of the crate rutzebam, with the same clauses. Each stands here again, since only
// a static library's own functions can be exported, and no crate can depend on a static library: a program in Rattle would call `rutzebam`.
#![tactic(auto)]

ghost use Rattle.std.specs.Prelude.{◌≡◌, length};
ghost use Rattle.mac.specs.Tag.{tag as tag_of};
ghost use Rattle.pruning.specs.Pruning.{prune};
ghost use Rattle.decoding.specs.Decoding.{decode};
ghost use Rattle.dealing.specs.Dealing.{deal};
ghost use Rattle.reconstruction.specs.Reconstruction.{reconstruct};
ghost use Rattle.handin.specs.Reader.{read};
ghost use Rattle.handin.specs.Writer.{write};
ghost use Rattle.rutzebam.specs.Calls.{dealt, opened, pruned, decoded, hand_in, hand_in_text};

// Dealing.
#[unsafe(no_mangle)]
pub extern "C" fn rutzebam_deal(
    t: usize,
    day: u16,
    secret: &[u16],
    random: &[u16],
    shares: &mut [u16],
) -> u16
    ensures { dealt result shares.new ≡ deal t day secret.now random.now shares.old }
{
    rutzebam::rutzebam_deal(t, day, secret, random, shares)
}

// Opening.
#[unsafe(no_mangle)]
pub extern "C" fn rutzebam_open(
    t: usize,
    day: u16,
    present: u32,
    quorum: u16,
    shares: &[u16],
    secret: &mut [u16],
    survivors: &mut u32,
    agreeing: &mut u32,
    pairs: &mut [u16; 3],
) -> u16
    ensures { opened result survivors.new agreeing.new pairs.new secret.new ≡ reconstruct t (length secret.old) day present quorum shares.now }
{
    rutzebam::rutzebam_open(
        t, day, present, quorum, shares, secret, survivors, agreeing, pairs,
    )
}

// Pruning.
#[unsafe(no_mangle)]
pub extern "C" fn rutzebam_prune(t: usize, rows: &[u32], survivors: &mut u32) -> u16
    ensures { pruned result survivors.new ≡ prune t rows.now }
{
    rutzebam::rutzebam_prune(t, rows, survivors)
}

// Decoding.
#[unsafe(no_mangle)]
pub extern "C" fn rutzebam_decode(
    t: usize,
    values: &[u16],
    set: u32,
    coefficients: &mut [u16],
) -> u16
    ensures { decoded result coefficients.new ≡ decode t values.now set (length coefficients.old) }
{
    rutzebam::rutzebam_decode(t, values, set, coefficients)
}

// The tag of words; it refuses nothing.
#[unsafe(no_mangle)]
pub extern "C" fn rutzebam_tag(alpha: u16, beta: u16, words: &[u16]) -> u16
    ensures { result ≡ tag_of alpha beta words.now }
{
    rutzebam::rutzebam_tag(alpha, beta, words)
}

// The reader of hand-in text.
#[unsafe(no_mangle)]
pub extern "C" fn rutzebam_read(
    text: &[u8],
    words: &mut [u16],
    t: &mut usize,
    d: &mut usize,
    quorum: &mut u16,
    day: &mut u16,
    present: &mut u32,
) -> u16
    ensures { hand_in result t.new d.new quorum.new day.new present.new words.new ≡ read text.now (length words.old) }
{
    rutzebam::rutzebam_read(text, words, t, d, quorum, day, present)
}

// The writer of hand-in text.
#[unsafe(no_mangle)]
pub extern "C" fn rutzebam_write(
    t: usize,
    d: usize,
    quorum: u16,
    day: u16,
    present: u32,
    shares: &[u16],
    text: &mut [u8],
    count: &mut usize,
) -> u16
    ensures { hand_in_text result count.new text.new ≡ write t d quorum day present shares.now text.old }
{
    rutzebam::rutzebam_write(t, d, quorum, day, present, shares, text, count)
}
