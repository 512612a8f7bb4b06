//! Sets of shares.

ghost use Rattle.std.specs.Prelude.{◌≡◌, ◌<◌, ◌≤◌, ◌↔◌, IsTrue, position};
ghost use Rattle.turn.specs.Shares.{HasAll, count, every_share, next_least, chair_number, rank, together, shares_without};

/// A set of some of a turn's shares, which are 0 to 15; `marks[i]` says whether share i is in it.
#[derive(Clone, Copy, Debug, PartialEq, Eq)]
pub(crate) struct Shares {
    pub(crate) marks: [bool; 16],
}

#[tactic(auto, using(crate::specs::laws::ShareLaws::marked_none, crate::specs::laws::ShareLaws::marked_more, crate::specs::laws::ShareLaws::marked_all))]
impl Shares {
    /// All shares.
    pub(crate) fn every() -> Shares
        ensures { result.marks ≡ every_share }
    {
        Shares { marks: [true; 16] }
    }

    /// How many shares are in the set.
    pub(crate) fn count(&self) -> usize
        ensures { result ≡ count self.now.marks }
    {
        self.marks.iter().filter(|held| **held).count()
    }

    /// Whether the set has all 16 shares.
    pub(crate) fn is_every(&self) -> bool
        ensures { IsTrue result ↔ HasAll self.now.marks }
    {
        self.marks.iter().all(|held| *held)
    }

    /// The least share in the set, if there is one.
    fn least(&self) -> Option<usize>
        ensures { result ≡ position (λ held. held) self.now.marks }
    {
        self.marks.iter().position(|held| *held)
    }

    /// The number of a chair with these shares: the least share, or 16 if there is none.
    pub(crate) fn number(&self) -> usize
        ensures { result ≡ chair_number self.now.marks }
    {
        self.least().unwrap_or(16)
    }

    /// How many shares in the set are less than `share`.
    fn rank(&self, share: usize) -> usize
        requires { share ≤ 16 }
        ensures { result ≡ rank self.now.marks share }
    {
        self.marks[..share].iter().filter(|held| **held).count()
    }

    /// The first `many` of the set's shares after its least share; all of these if there are fewer
    /// than `many`.
    pub(crate) fn next_least(&self, many: usize) -> Shares
        ensures { result.marks ≡ next_least many self.now.marks }
    {
        let mut marks = [false; 16];
        for share in 0..16 {
            let lesser = self.rank(share);
            marks[share] = self.marks[share] & (0 < lesser) & (lesser <= many);
        }
        Shares { marks }
    }

    /// The shares in the set that aren't in `given`.
    pub(crate) fn without(&self, given: &Shares) -> Shares
        ensures { result.marks ≡ shares_without self.now.marks given.now.marks }
    {
        let mut marks = [false; 16];
        for share in 0..16 {
            marks[share] = self.marks[share] & !given.marks[share];
        }
        Shares { marks }
    }

    /// The shares that are in the set or in `others`.
    pub(crate) fn together(&self, others: &Shares) -> Shares
        ensures { result.marks ≡ together self.now.marks others.now.marks }
    {
        let mut marks = [false; 16];
        for share in 0..16 {
            marks[share] = self.marks[share] | others.marks[share];
        }
        Shares { marks }
    }
}
