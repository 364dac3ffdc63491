// Reconstruction (document 01: opening): shares to the secret, for a day.
#![tactic(auto)]

ghost use Rattle.std.specs.Prelude.{◌≡◌, ℕ, true, ◌&&◌, suc, ◌+◌, ◌<◌, ◌≤◌, ◌^◌, eqb, ltb, length, get_or, Err, MatchResult};
ghost use Rattle.lists.specs.Tabulate.{tab, each};
ghost use Rattle.polynomial.specs.Polynomial.{value, interpolate};
ghost use Rattle.refusals.specs.Refusals.{number};
ghost use Rattle.members.specs.Members.{is_threshold, size, own_points, has, set_of, is_set, card};
ghost use Rattle.pruning.specs.Pruning.{survivors};
ghost use Rattle.decoding.specs.Answer.{answer_of as decoded_of};
ghost use Rattle.decoding.specs.Decoding.{need, find, decoded_from};
ghost use Rattle.shares.specs.Layout.{share_word};
ghost use Rattle.reconstruction.specs.Answer.{answer_of, answered_of};
ghost use Rattle.reconstruction.specs.Reconstruction.{unopened, is_quorum, required, turned_away, reconstruct as reconstruct_of};
ghost use Rattle.parity.specs.Internal.Looking.{with_values};
ghost use Rattle.reconstruction.specs.Internal.Steps.{Voted, Decodable, Begun, Came, quickly, by_words, by_votes, by_shares, Accepted};

use lagrange::Matrix;
use refusals::Refusal;
use shares::{Shape, Shares};
use voting::Pairs;

// The survivors of the votes, and those of them that agree: the secret is in the buffer.
#[derive(Clone, Copy)]
pub struct Opened {
    pub survivors: u32,
    pub agreeing: u32,
}

// Why nothing is opened, and the survivors: 0 but for 16. An enum of the two cases would need a match wherever number and survivors are handed on.
#[derive(Clone, Copy)]
pub struct Unopened {
    pub refusal: Refusal,
    pub survivors: u32,
}

// What the shares open to, and how many pairs fell to each kind of vote.
#[derive(Clone, Copy)]
pub struct Reconstructed {
    pub outcome: Result<Opened, Unopened>,
    pub pairs: Pairs,
}

// A refusal fills the secret buffer with 65535.
fn refuse(secret: &mut [u16], refusal: Refusal, survivors: u32) -> Result<Opened, Unopened>
    ensures { answer_of result secret.new ≡ unopened (length secret.old) survivors (number refusal) }
{
    lists::fill(secret, 65535);
    Err(Unopened { refusal, survivors })
}

// The values of f at 0 and at the members' points.
#[tactic(auto, using(lists::proofs::Loops::writes))]
fn evaluate_all(f: &[u16], expected: &mut [u16])
    requires { length expected.old ≤ 32 }
    ensures { expected.new ≡ tab (length expected.old) (value f.now) }
{
    for (x, word) in expected.iter_mut().enumerate() {
        *word = polynomial::evaluate(f, x as u16);
    }
}

// The members of both sets.
fn both(a: u32, b: u32) -> u32
    ensures { result ≡ set_of 32 (λ i. has a i && has b i) }
{
    a & b
}

// What a word comes to, if it has a polynomial: whether it was worked out anew, in full; who meets its polynomial, and the value at 0. Both ways give the
// last two, which are used the same: an enum of the two ways would be matched only to take the same fields out of each.
#[derive(Clone, Copy)]
struct Word {
    anew: bool,
    met: u32,
    value: u16,
}

// The quick look, where all n members survive: it opens the words that pass it before one that does not, and says how many. It asks nothing of the set, nor of
// the words, so it takes them as they are and no `Survivors`.
fn open_quickly(shares: &Shares, survivors: u32, secret: &mut [u16]) -> usize
    requires secret_len { length secret.old ≡ shares.now.shape.d }
    ensures value { result ≡ quickly shares.now.shape shares.now.words.now survivors }
    ensures secret_after { secret.new ≡ with_values shares.now.shape.t result (share_word shares.now.shape.t shares.now.shape.d shares.now.words.now) secret.old }
{
    let all = members::first(shares.shape.n);
    if survivors != all {
        return 0; // somebody was struck
    }
    parity::look(shares, secret)
}

// A station's shares, and the survivors of the votes, whose words are opened. Words are plain indices below d, as members are below n. Buffers of t + 1, n + 1
// or d words are lent, here and below: t and d are known at run time only, and a struct round a lent buffer would have to say in each contract whose words it
// writes.
#[derive(Clone, Copy)]
struct Survivors<'a> {
    shares: Shares<'a>,
    set: u32,
    ghost decodable: { Decodable shares.shape.t shares.shape.d shares.words.now set },
}

impl Survivors<'_> {
    ghost use Rattle.reconstruction.specs.Internal.Words.{words};

    // Share words at place k: for each place of the buffer, that of the member whom the closure names for it.
    fn column_by<F: Fn(usize) -> usize>(&self, k: usize, member: F, values: &mut [u16])
        requires inside { k < self.now.shares.shape.d }
        requires can { (m : ℕ) → m < length values.old → F.pre member m }
        requires members { (m i : ℕ) → m < length values.old → F.post member m i → i < self.now.shares.shape.n }
        ensures { (f : ℕ → ℕ) → ((m i : ℕ) → F.post member m i → i ≡ f m) → values.new ≡ tab (length values.old) (λ m. words self.now (f m) k) }
    {
        for (m, value) in values.iter_mut().enumerate() {
            *value = self.shares.share_word(member(m), k);
        }
    }

    // The members whose share word at place k is the one expected of them.
    fn meeting(&self, k: usize, expected: &[u16]) -> u32
        requires { (k < self.now.shares.shape.d) × (length expected.now ≡ suc self.now.shares.shape.n) }
        ensures { result ≡ set_of self.now.shares.shape.n (λ i. eqb (get_or expected.now (i + 1) 0) (words self.now i k)) }
    {
        members::those(
            self.shares.shape.n,
            |i| expected[i + 1] == self.shares.share_word(i, k),
        )
    }

    // Fewer survivors are left than have to agree.
    fn too_few(&self, left: u32) -> bool
        ensures { result ≡ ltb (card 32 left) (need self.now.shares.shape.t (card 32 self.now.set)) }
    {
        (members::card(left) as usize)
            < decoding::need(self.shares.shape.t as u16, members::card(self.set))
    }

    // The decoder's answer for word k, with the coefficients in the buffer.
    fn decode_word(&self, k: usize, f: &mut [u16]) -> Result<(), Refusal>
        requires { (k < self.now.shares.shape.d) × (length f.old ≡ suc self.now.shares.shape.t) }
        ensures { decoded_of result f.new ≡ decoded_from (suc self.now.shares.shape.t) (find (own_points self.now.shares.shape.t) self.now.shares.shape.t 1 (λ i j. words self.now i k) self.now.set) }
    {
        let mut values = [0; 31];
        let values = &mut values[..self.shares.shape.n];
        self.column_by(k, |i| i, values);
        decoding::decode(self.shares.shape.t, values, self.set, f)
    }

    // Word k, worked out in full.
    fn work_out(&self, k: usize, f: &mut [u16], expected: &mut [u16]) -> Option<Word>
        requires { (k < self.now.shares.shape.d) × (length f.old ≡ suc self.now.shares.shape.t) × (length expected.old ≡ suc self.now.shares.shape.n) }
        ensures { Came (own_points self.now.shares.shape.t) self.now.shares.shape.t (words self.now) self.now.set k result }
    {
        let Ok(()) = self.decode_word(k, f) else {
            return None; // no polynomial
        };
        evaluate_all(f, expected);
        Some(Word {
            anew: true,
            met: self.meeting(k, expected),
            value: expected[0],
        })
    }

    // Word k by the matrix: what is expected at 0 and of the members, and who meets it.
    fn read_word(&self, k: usize, matrix: &Matrix, chosen: &mut [u16], expected: &mut [u16]) -> u32
        requires of_n { (matrix.now.n ≡ self.now.shares.shape.n) × (length matrix.now.points.now ≡ suc self.now.shares.shape.t) }
        requires k_lt_d { (k < self.now.shares.shape.d) × (length chosen.old ≡ suc self.now.shares.shape.t) × (length expected.old ≡ suc self.now.shares.shape.n) }
        ensures expected_after { expected.new ≡ tab (suc self.now.shares.shape.n) (value (interpolate matrix.now.points.now chosen.new)) }
        ensures value { result ≡ set_of self.now.shares.shape.n (λ i. eqb (get_or expected.new (i + 1) 0) (words self.now i k)) }
    {
        let points = &*matrix.points;
        self.column_by(k, |m| points[m] as usize - 1, chosen);
        matrix.expect(chosen, expected);
        self.meeting(k, expected)
    }

    // Word k: by the matrix if enough survivors meet what it gives, and else in full.
    fn open_word(&self, k: usize, matrix: &Matrix) -> Option<Word>
        requires of_n { (matrix.now.n ≡ self.now.shares.shape.n) × (length matrix.now.points.now ≡ suc self.now.shares.shape.t) }
        requires k_lt_d { k < self.now.shares.shape.d }
        ensures { Came (own_points self.now.shares.shape.t) self.now.shares.shape.t (words self.now) self.now.set k result }
    {
        let mut f = [0; 16]; // room for the values that are read, and then for coefficients
        let f = &mut f[..self.shares.shape.t + 1];
        let mut expected = [0; 32];
        let expected = &mut expected[..self.shares.shape.n + 1];
        let met = self.read_word(k, matrix, f, expected);
        let agreeing = both(self.set, met);
        if self.too_few(agreeing) {
            return self.work_out(k, f, expected);
        }
        Some(Word {
            anew: false,
            met,
            value: expected[0],
        })
    }

    // The words from `done` on, one after the other: the secret, with those of the survivors that meet every word's polynomial; 16 where a word has none, or
    // where too few are left. A word that was worked out in full is followed by a matrix for the members that still agree.
    fn open_words(&self, done: usize, secret: &mut [u16]) -> Result<Opened, Unopened>
        requires secret_len { length secret.old ≡ self.now.shares.shape.d }
        requires begun { Begun (own_points self.now.shares.shape.t) self.now.shares.shape.t self.now.shares.shape.d (words self.now) self.now.set done secret.old }
        ensures { answer_of result secret.new ≡ by_words self.now.shares.shape self.now.shares.words.now self.now.set }
    {
        let mut points = [0; 16];
        let points = &mut points[..self.shares.shape.t + 1];
        let mut rows = [[0; 16]; 32];
        let survivors = self.set;
        let mut agreed = survivors;
        let mut matrix = lagrange::prepare(self.shares.shape.n, agreed, points, &mut rows);
        for k in done..self.shares.shape.d {
            let Some(word) = self.open_word(k, &matrix) else {
                return refuse(secret, Refusal::TooFewAgree, survivors); // no polynomial
            };
            secret[k] = word.value;
            agreed = both(agreed, word.met);
            if self.too_few(agreed) {
                return refuse(secret, Refusal::TooFewAgree, survivors); // too few are left
            }
            if word.anew && k + 1 < self.shares.shape.d {
                matrix = matrix.renew(agreed);
            }
        }
        Ok(Opened {
            survivors,
            agreeing: agreed,
        })
    }

    // All words, those that the look opens first. Where it opens all, no matrix is made.
    fn open_all(&self, secret: &mut [u16]) -> Result<Opened, Unopened>
        requires secret_len { length secret.old ≡ self.now.shares.shape.d }
        ensures { answer_of result secret.new ≡ by_words self.now.shares.shape self.now.shares.words.now self.now.set }
    {
        let done = open_quickly(&self.shares, self.set, secret);
        if done == self.shares.shape.d {
            return Ok(Opened {
                survivors: self.set,
                agreeing: self.set,
            });
        }
        self.open_words(done, secret)
    }
}

// The survivors of the votes.
fn surviving(t: usize, rows: &[u32]) -> u32
    requires { (is_threshold t ≡ true) × (length rows.now ≡ size t) × (each (is_set (size t)) rows.now ≡ true) }
    ensures { result ≡ survivors t rows.now }
{
    pruning::prune(t, rows).unwrap_or(0)
}

// How many usable members the quorum asks for: 0 stands for t + 2.
#[tactic(auto, unfolding(crate::specs::Reconstruction::required))]
fn required_members(shape: Shape, quorum: u16) -> usize
    ensures { result ≡ required shape.t quorum }
{
    if quorum == 0 {
        return shape.t + 2;
    }
    usize::from(quorum)
}

// The quorum is 0 or t + 1 to n.
#[tactic(auto, unfolding(crate::specs::Reconstruction::is_quorum))]
fn is_quorum(shape: Shape, quorum: u16) -> bool
    ensures { result ≡ is_quorum shape.t quorum }
{
    if quorum == 0 {
        return true;
    }
    lists::within(shape.t + 1, shape.n, usize::from(quorum))
}

// The second half of opening, with votes from anywhere: 14, the survivors, 15, then the words.
pub fn open_voted(
    shares: &Shares,
    quorum: u16,
    able: u32,
    rows: &[u32],
    secret: &mut [u16],
) -> Result<Opened, Unopened>
    requires voted { Voted shares.now.shape able rows.now shares.now.words.now }
    requires secret_len { length secret.old ≡ shares.now.shape.d }
    ensures { answer_of result secret.new ≡ by_votes shares.now.shape quorum able rows.now shares.now.words.now }
{
    if (members::card(able) as usize) < required_members(shares.shape, quorum) {
        return refuse(secret, Refusal::QuorumNotMet, 0);
    }
    let survivors = surviving(shares.shape.t, rows);
    if survivors == 0 {
        return refuse(secret, Refusal::NoSurvivors, 0);
    }
    let left = Survivors {
        shares: *shares,
        set: survivors,
    };
    left.open_all(secret)
}

// Opening after its checks: the usable members, their votes, and the second half. Day, present mask and quorum stay plain numbers, as the caller gives them:
// each goes its own way from here, and a struct of the three would be made for this call and for `check` alone.
#[tactic(auto, unfolding(members::specs::Members::size))]
fn open_shares(
    shares: &Shares,
    day: u16,
    present: u32,
    quorum: u16,
    secret: &mut [u16],
) -> Reconstructed
    requires { length secret.old ≡ shares.now.shape.d }
    ensures { answered_of result secret.new ≡ by_shares shares.now.shape day present quorum shares.now.words.now }
{
    let mut rows = [0; 31];
    let rows = &mut rows[..shares.shape.n];
    let able = voting::usable_members(shares, present);
    let pairs = voting::fill_rows(shares, day, able, rows);
    Reconstructed {
        outcome: open_voted(shares, quorum, able, rows, secret),
        pairs,
    }
}

// The checks before the votes, in their order: the shares, or the first refusal.
#[tactic(auto, using(crate::proofs::Order::by_check))]
fn check<'a>(
    t: usize,
    day: u16,
    present: u32,
    quorum: u16,
    shares: &'a [u16],
    d: usize,
) -> Result<Shares<'a>, Refusal>
    ensures { MatchResult result (λ s. Accepted t d day present quorum shares.now s) (λ refusal. reconstruct_of t d day present quorum shares.now ≡ turned_away d (number refusal)) }
{
    let shares = Shares::check(t, d, day, present, shares)?;
    if !is_quorum(shares.shape, quorum) {
        return Err(Refusal::BadQuorum);
    }
    Ok(shares)
}

// A refusal before the votes: nothing is counted.
fn turn_away(secret: &mut [u16], refusal: Refusal) -> Reconstructed
    ensures { answered_of result secret.new ≡ turned_away (length secret.old) (number refusal) }
{
    Reconstructed {
        outcome: refuse(secret, refusal, 0),
        pairs: voting::no_pairs(),
    }
}

// Opens the shares of the present members, dealt for the day, into the secret buffer; refusals 1, 2, 32, 11, 12, 13, 14, 15 and 16.
pub fn reconstruct(
    t: usize,
    day: u16,
    present: u32,
    quorum: u16,
    shares: &[u16],
    secret: &mut [u16],
) -> Reconstructed
    ensures { answered_of result secret.new ≡ reconstruct_of t (length secret.old) day present quorum shares.now }
{
    match check(t, day, present, quorum, shares, secret.len()) {
        Ok(shares) => open_shares(&shares, day, present, quorum, secret),
        Err(refusal) => turn_away(secret, refusal),
    }
}
