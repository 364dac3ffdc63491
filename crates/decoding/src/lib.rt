// Decoding one word: the polynomial of degree at most t that enough members of a set meet, by Welch and Berlekamp's method.
//
// The crate `locator` gives an E that is 0 at every member with a wrong value, if some polynomial meets enough members; that one goes through the first
// t + 1 members at which E is not 0. Whether enough members meet it is then counted.
#![tactic(auto)]

ghost use Rattle.std.specs.Prelude.{◌≡◌, ◌||◌, not, suc, ◌≤◌, ◌<◌, ◌^◌, length, get_or};
ghost use Rattle.lists.specs.Tabulate.{all};
ghost use Rattle.field.specs.Field.{is_field_word};
ghost use Rattle.members.specs.Members.{size, own_points, has, card};
ghost use Rattle.decoding.specs.Internal.Roster.{Roster};
ghost use Rattle.decoding.specs.Internal.Outcome.{outcome, Checked};
ghost use Rattle.decoding.specs.Answer.{answer_of};
ghost use Rattle.decoding.specs.Decoding.{need, find, decoded_from, decode};

use refusals::Refusal;

// One word: member i has the point and the value at place i, and the members of the set are to be decoded. Its functions are lent t + 1 words for coefficients:
// t is known at run time only, and a struct round a lent buffer would have to say in each contract whose words it writes.
#[derive(Clone, Copy)]
struct Word<'a> {
    t: usize,
    points: &'a [u16],
    values: &'a [u16],
    set: u32,
    ghost small: { t ≤ 15 },
    ghost roster: { Roster t points.now },
    ghost as_many: { length values.now ≡ size t },
    ghost proper: { set < 2 ^ size t },
}

// How many of s members have to agree.
#[tactic(auto, unfolding(crate::specs::Decoding::need, crate::specs::Decoding::surplus))]
pub fn need(t: u16, s: u32) -> usize
    ensures { result ≡ need t s }
{
    let least = t as usize + 1;
    let set = s as usize;
    if set < least {
        return least;
    }
    let surplus = set - least;
    least + (surplus + 1) / 2
}

impl Word<'_> {
    ghost use Rattle.decoding.specs.Internal.Candidate.{sound, Gathered, Tried};
    ghost use Rattle.decoding.specs.Internal.Words.{solution, meets_at, meeting, enough_meet};

    // Member i is in the set and e is not 0 at its point.
    #[tactic(auto, using(std::proofs::lemmas::Bool::Decides::nat_tests), unfolding(crate::specs::Internal::Candidate::sound))]
    fn sound(&self, e: &[u16], i: usize) -> bool
        requires { i < size self.now.t }
        ensures { result ≡ sound self.now.points.now self.now.set e.now i }
    {
        members::has(self.set, i) && polynomial::evaluate(e, self.points[i]) != 0
    }

    // The points and values of the first t + 1 members of the set at which e is not 0, if there are so many. They go into two buffers, since
    // `polynomial::interpolate` takes points and, in place of the coefficients, values. Places are counted by hand: they are filled as such members are met.
    fn gather(&self, e: &[u16], chosen: &mut [u16; 16], kept: &mut [u16]) -> Option<()>
        requires { length kept.old ≡ suc self.now.t }
        ensures { Gathered self.now e.now chosen.new kept.new result }
    {
        let mut found = 0;
        for (i, value) in self.values.iter().enumerate() {
            if self.sound(e, i) {
                chosen[found] = self.points[i];
                kept[found] = *value;
                found += 1;
                if self.t < found {
                    return Some(());
                }
            }
        }
        None
    }

    // Member i is in the set and agrees with f.
    #[tactic(auto, using(std::proofs::lemmas::Bool::Decides::nat_tests))]
    fn agrees(&self, f: &[u16], i: usize) -> bool
        requires { i < size self.now.t }
        ensures { result ≡ meets_at self.now f.now i }
    {
        members::has(self.set, i) && polynomial::evaluate(f, self.points[i]) == self.values[i]
    }

    // How many members of the set agree with f.
    fn agreeing(&self, f: &[u16]) -> usize
        ensures { result ≡ meeting self.now f.now }
    {
        let mut count = 0;
        for i in 0..self.values.len() {
            if self.agrees(f, i) {
                count += 1;
            }
        }
        count
    }

    // Enough members of the set agree with f.
    fn enough_agree(&self, f: &[u16]) -> bool
        ensures { result ≡ enough_meet self.now f.now }
    {
        let least = need(self.t as u16, members::card(self.set));
        least <= self.agreeing(f)
    }

    // The polynomial through the first t + 1 members of the set at which e is not 0, if enough members of the set agree with it: it is in the lent buffer.
    fn through(&self, e: &[u16], coefficients: &mut [u16]) -> Option<()>
        requires { length coefficients.old ≡ suc self.now.t }
        ensures { Tried self.now e.now coefficients.new result }
    {
        let mut chosen = [0; 16];
        self.gather(e, &mut chosen, coefficients)?;
        polynomial::interpolate(&chosen[..self.t + 1], coefficients);
        if self.enough_agree(coefficients) {
            return Some(());
        }
        None
    }

    // The polynomial that enough members of the set agree with, in the buffer.
    fn solve(&self, coefficients: &mut [u16]) -> Result<(), Refusal>
        requires { length coefficients.old ≡ suc self.now.t }
        ensures { outcome result coefficients.new ≡ decoded_from (suc self.now.t) (solution self.now) }
    {
        let pairs = locator::locate(self.t, self.points, self.values, self.set);
        self.through(&pairs.second.e, coefficients)
            .ok_or(Refusal::TooFewAgree)
    }
}

// The values of all members of the set are field words.
fn field_words(values: &[u16], set: u32) -> bool
    ensures { result ≡ all (length values.now) (λ i. not (has set i) || is_field_word (get_or values.now i 0)) }
{
    values.iter().enumerate().all(|(i, value)| !members::has(set, i)
        || field::is_field_word(*value))
}

// What decoding looks at before it works anything out, where the buffer has as many words as `room`.
#[tactic(auto, using(crate::proofs::Refusals::refusals))]
fn check(t: usize, values: &[u16], set: u32, room: usize) -> Result<(), Refusal>
    ensures { Checked t values.now set room result }
{
    if !members::threshold(t) {
        return Err(Refusal::BadThreshold);
    }
    let n = members::size(t);
    if values.len() != n {
        return Err(Refusal::BadInputLength);
    }
    if room != t + 1 {
        return Err(Refusal::BadCoefficientsLength);
    }
    if !members::is_set(n, set) {
        return Err(Refusal::MemberBeyondN);
    }
    if members::card(set) as usize <= t {
        return Err(Refusal::SetTooSmall);
    }
    if !field_words(values, set) {
        return Err(Refusal::BadValue);
    }
    Ok(())
}

// Decoding, but that a refusal does not fill the buffer. t, values and set are the caller's own until the checks have passed: then a `Word` has them.
fn work_out(t: usize, values: &[u16], set: u32, coefficients: &mut [u16]) -> Result<(), Refusal>
    ensures { outcome result coefficients.new ≡ decode t values.now set (length coefficients.old) }
{
    check(t, values, set, coefficients.len())?;
    let mut own = [0; 31];
    let points = &mut own[..members::size(t)];
    members::own_points(points);
    let word = Word {
        t,
        points,
        values,
        set,
    };
    word.solve(coefficients)
}

// Decodes the values of the members of the set into t + 1 coefficients, power 0 first; refusals 1, 11, 19, 12, 17, 18 and 16.
#[tactic(auto, unfolding(crate::specs::Decoding::undecoded))]
pub fn decode(t: usize, values: &[u16], set: u32, coefficients: &mut [u16]) -> Result<(), Refusal>
    ensures { answer_of result coefficients.new ≡ decode t values.now set (length coefficients.old) }
{
    let answer = work_out(t, values, set, coefficients);
    if answer.is_err() {
        lists::fill(coefficients, 65535);
    }
    answer
}
