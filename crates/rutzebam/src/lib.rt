// The calls that the crate rutzebam_c exports to programs in C and Rust. Each has the contract of the call it makes: the number
// that is returned is that of the rules, 0 when it is done, and masks, numbers and counts are stored in lent places. Numbers, lent
// places and a function of its own for each call are what the C interface needs.
#![tactic(auto)]

ghost use Rattle.std.specs.Prelude.{◌≡◌, length};
ghost use Rattle.mac.specs.Tag.{tag as tag_of};
ghost use Rattle.pruning.specs.Pruning.{prune};
ghost use Rattle.decoding.specs.Decoding.{decode};
ghost use Rattle.dealing.specs.Dealing.{deal};
ghost use Rattle.reconstruction.specs.Reconstruction.{reconstruct};
ghost use Rattle.handin.specs.Reader.{read};
ghost use Rattle.handin.specs.Writer.{write};
ghost use Rattle.rutzebam.specs.Calls.{dealt, opened, pruned, decoded, hand_in, hand_in_text};

use refusals::number_of;

// Dealing.
pub fn rutzebam_deal(t: usize, day: u16, secret: &[u16], random: &[u16], shares: &mut [u16]) -> u16
    ensures { dealt result shares.new ≡ deal t day secret.now random.now shares.old }
{
    number_of(dealing::deal(t, day, secret, random, shares))
}

// Opening.
pub fn rutzebam_open(
    t: usize,
    day: u16,
    present: u32,
    quorum: u16,
    shares: &[u16],
    secret: &mut [u16],
    survivors: &mut u32,
    agreeing: &mut u32,
    pairs: &mut [u16; 3],
) -> u16
    ensures { opened result survivors.new agreeing.new pairs.new secret.new ≡ reconstruct t (length secret.old) day present quorum shares.now }
{
    let answer = reconstruction::reconstruct(t, day, present, quorum, shares, secret);
    let told = answer.pairs;
    *pairs = [told.accepted, told.mismatched, told.unread];
    match answer.outcome {
        Ok(opened) => {
            *survivors = opened.survivors;
            *agreeing = opened.agreeing;
            0
        }
        Err(unopened) => {
            *survivors = unopened.survivors;
            *agreeing = 0;
            u16::from(unopened.refusal)
        }
    }
}

// Pruning.
pub fn rutzebam_prune(t: usize, rows: &[u32], survivors: &mut u32) -> u16
    ensures { pruned result survivors.new ≡ prune t rows.now }
{
    let outcome = pruning::prune(t, rows);
    *survivors = outcome.unwrap_or(0);
    number_of(outcome)
}

// Decoding.
pub fn rutzebam_decode(t: usize, values: &[u16], set: u32, coefficients: &mut [u16]) -> u16
    ensures { decoded result coefficients.new ≡ decode t values.now set (length coefficients.old) }
{
    number_of(decoding::decode(t, values, set, coefficients))
}

// The tag of words; it refuses nothing.
pub fn rutzebam_tag(alpha: u16, beta: u16, words: &[u16]) -> u16
    ensures { result ≡ tag_of alpha beta words.now }
{
    mac::tag(alpha, beta, words)
}

// The reader of hand-in text.
#[tactic(auto, unfolding(handin::specs::Answer::answer_of))]
pub fn rutzebam_read(
    text: &[u8],
    words: &mut [u16],
    t: &mut usize,
    d: &mut usize,
    quorum: &mut u16,
    day: &mut u16,
    present: &mut u32,
) -> u16
    ensures { hand_in result t.new d.new quorum.new day.new present.new words.new ≡ read text.now (length words.old) }
{
    let outcome = handin::read(text, words);
    let met = outcome.unwrap_or_default();
    *t = met.t;
    *d = met.d;
    *quorum = met.quorum;
    *day = met.day;
    *present = met.present;
    number_of(outcome)
}

// The writer of hand-in text.
#[tactic(auto, unfolding(handin::specs::Answer::written_of))]
pub fn rutzebam_write(
    t: usize,
    d: usize,
    quorum: u16,
    day: u16,
    present: u32,
    shares: &[u16],
    text: &mut [u8],
    count: &mut usize,
) -> u16
    ensures { hand_in_text result count.new text.new ≡ write t d quorum day present shares.now text.old }
{
    let outcome = handin::write(t, d, quorum, day, present, shares, text);
    *count = outcome.unwrap_or(0);
    number_of(outcome)
}
