// Vote rows to survivors. Row i is the set of those who accept member i.
#![tactic(auto)]

ghost use Rattle.std.specs.Prelude.{◌≡◌, true, cond, ◌+◌, ◌-◌, ◌≤◌, ◌<◌, ◌^◌, length};
ghost use Rattle.lists.specs.Tabulate.{each};
ghost use Rattle.members.specs.Members.{size, has, is_set, first_of};
ghost use Rattle.pruning.specs.Pruning.{survivors, prune};
ghost use Rattle.pruning.specs.Counts.{Table, counted, AfterStrike};
ghost use Rattle.pruning.specs.Answer.{answer_of};
ghost use Rattle.pruning.specs.Internal.Steps.{FirstShort};

use refusals::Refusal;

// Every row is a set of the n members.
fn sets(n: usize, rows: &[u32]) -> bool
    ensures { result ≡ each (is_set n) rows.now }
{
    rows.iter().all(|row| members::is_set(n, *row))
}

// A member's votes once i is struck: one fewer if i accepted it.
fn votes_left(row: u32, i: usize, votes: u32) -> u32
    requires { cond (has row i) 1 0 ≤ votes }
    ensures { result ≡ votes - cond (has row i) 1 0 }
{
    votes - u32::from(members::has(row, i))
}

// A station's votes.
#[derive(Clone, Copy)]
struct Votes<'a> {
    t: usize,
    rows: &'a [u32],
    ghost table: { Table t rows.now },
}

// Those not struck yet, and the votes that each member has from them.
#[derive(Drop)]
struct Remaining<'a, 'c> {
    votes: Votes<'a>,
    set: u32,
    counts: &'c mut [u32],
    ghost exact: { counts.now ≡ counted votes.t votes.rows.now set },
}

impl<'a> Votes<'a> {
    // Everybody, with the votes that each member has from everybody.
    #[tactic(auto, using(lists::proofs::Loops::writes, crate::proofs::Steps::votes_counted), unfolding(crate::specs::Counts::counted))]
    fn count<'c>(&self, counts: &'c mut [u32]) -> Remaining<'a, 'c>
        requires { length counts.old ≡ size self.now.t }
        ensures { (result.votes ≡ self.now) × (result.set ≡ first_of (size self.now.t)) }
    {
        let everybody = members::first(members::size(self.t));
        for (i, count) in counts.iter_mut().enumerate() {
            *count = members::common(self.rows[i], everybody);
        }
        Remaining {
            votes: *self,
            set: everybody,
            counts,
        }
    }

    // The survivors: short members are struck one after the other, from everybody on, until nobody is short.
    #[tactic(auto, using(crate::proofs::Striking::going), unfolding(members::specs::Members::size))]
    fn survivors(&self) -> u32
        ensures { result ≡ survivors self.now.t self.now.rows.now }
    {
        let mut counts = [0u32; 31];
        let mut left = self.count(&mut counts[..members::size(self.t)]);
        while let Some(i) = left.next_short() {
            left = left.strike(i);
        }
        left.set
    }
}

impl<'a, 'c> Remaining<'a, 'c> {
    // The first who is short of t + 1 votes; None: nobody is. A mask is no slice to iterate: its lowest member is looked at, and left out.
    #[tactic(auto, using(crate::proofs::Striking::looking))]
    fn next_short(&self) -> Option<usize>
        requires { self.now.set < 2 ^ size self.now.votes.t }
        ensures { FirstShort (self.now.votes.t + 1) self.now.set self.now.counts.now result }
    {
        let need = self.votes.t + 1;
        let mut rest = self.set;
        while let Some(i) = members::lowest(rest) {
            rest = members::without(rest, i);
            if (self.counts[i] as usize) < need {
                return Some(i);
            }
        }
        None
    }

    // Those left once member i is struck, from any set: its vote is taken off the count of each whom it accepted.
    #[tactic(auto, using(lists::proofs::Loops::rewrites, crate::proofs::Striking::one_struck), unfolding(crate::specs::Counts::counted))]
    fn strike(self, i: usize) -> Remaining<'a, 'c>
        requires { (i < size self.votes.t) × (has self.set i ≡ true) }
        ensures same_votes { result.votes ≡ self.entry.votes }
        ensures struck { AfterStrike self.entry.votes.t self.entry.votes.rows.now self.entry.set i result.set result.counts.now }
    {
        let Remaining { votes, set, counts } = self;
        for (k, count) in counts.iter_mut().enumerate() {
            *count = votes_left(votes.rows[k], i, *count);
        }
        Remaining {
            votes,
            set: members::without(set, i),
            counts,
        }
    }
}

// The survivors of the votes; refusals 1, 10 and 12.
#[tactic(auto, unfolding(crate::specs::Pruning::prune, members::specs::Members::size))]
pub fn prune(t: usize, rows: &[u32]) -> Result<u32, Refusal>
    ensures { answer_of result ≡ prune t rows.now }
{
    if !members::threshold(t) {
        return Err(Refusal::BadThreshold);
    }
    let n = members::size(t);
    if rows.len() != n {
        return Err(Refusal::BadRowsLength);
    }
    if !sets(n, rows) {
        return Err(Refusal::MemberBeyondN);
    }
    Ok(Votes { t, rows }.survivors())
}
