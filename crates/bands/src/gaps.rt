// The gap from one band to another, in whole numbers.
ghost use Rattle.std.specs.Prelude.{◌≡◌, ◌+◌, ◌*◌, ◌<◌, ◌≤◌};
ghost use Rattle.bands.specs.Gaps.{square};
ghost use Rattle.bands.specs.Rules.{Fits};

// A band: its number, counted from 1, and its two ends.
#[derive(Clone, Copy)]
pub(crate) struct Band {
    pub(crate) number: usize,
    pub(crate) low: u64,
    pub(crate) high: u64,
}

// A turn of an engine from one band to another.
#[derive(Clone, Copy)]
pub(crate) struct Turn {
    pub(crate) rise: u64,
    pub(crate) fall: u64,
    pub(crate) angle: u64,
    // the engine's greatest speed
    pub(crate) top: u64,
    pub(crate) from: Band,
    pub(crate) to: Band,
    ghost fits: { Fits (record { A = rise; D = fall; G = angle; M = top; i = from.number; j = to.number; li = from.low; ui = from.high; lj = to.low; uj = to.high }) },
}

fn squared(n: u64) -> u64
    requires { n ≤ 150000 }
    ensures value { result ≡ square n }
    ensures most { result ≤ 22500000000 }
{
    n * n
}

// The greatest number of steps from a base whose square is at most the bound.
fn most_steps(bound: u64, step: u64, base: u64) -> u64
    requires moves { 1 ≤ step }
    requires starts { square base ≤ bound }
    ensures within { square (step * result + base) ≤ bound }
    ensures past { bound < square (step * (result + 1) + base) }
{
    (bound.isqrt() - base) / step
}

impl Turn {
    ghost use Rattle.std.specs.Prelude.{nat_lt};
    ghost use Rattle.bands.specs.Gaps.{has_gap, rule_1, rule_2, rule_3, peak, allows_1, allows_2, allows_3, allows_4, allows, GapByRules, gap_value};
    ghost use Rattle.bands.specs.Rules.{lacks, mirrored, Last};
    ghost use Rattle.bands.specs.Views.{pair_of};

    // The same turn seen backward, from its end to its start: a rise is then a fall.
    fn mirrored(&self) -> Turn
        ensures { pair_of result ≡ mirrored (pair_of self.now) }
    {
        Turn {
            rise: self.fall,
            fall: self.rise,
            angle: self.angle,
            top: self.top,
            from: self.to,
            to: self.from,
        }
    }

    // The square of the speed after a turn flat out from the upper end of the first band.
    fn flat_out(&self) -> u64
        ensures value { result ≡ square self.now.from.high + 2 * self.now.rise * self.now.angle }
        ensures most { result ≤ 46500000000 }
    {
        squared(self.from.high) + 2 * self.rise * self.angle
    }

    // Whether a turn flat out from the first band gets above the lower end of the second.
    fn climbs(&self) -> bool
        ensures { result ≡ nat_lt (square self.now.to.low) (square self.now.from.high + 2 * self.now.rise * self.now.angle) }
    {
        squared(self.to.low) < self.flat_out()
    }

    // Whether some turn leads from the one band to the other.
    fn leads(&self) -> bool
        ensures { result ≡ has_gap (pair_of self.now) }
    {
        if self.from.number < self.to.number {
            self.climbs()
        } else if self.to.number < self.from.number {
            self.mirrored().climbs()
        } else {
            true
        }
    }

    // Upward, a turn flat out stays at or below the upper end.
    fn rises_within(&self) -> bool
        ensures { result ≡ rule_1 (pair_of self.now) }
    {
        self.from.number < self.to.number && self.flat_out() <= squared(self.to.high)
    }

    // Rule 1: flat out from the upper end of the first band.
    fn rising_ticks(&self) -> u64
        ensures { Last (allows_1 (pair_of self.now)) result }
    {
        most_steps(self.flat_out(), self.rise, self.from.high)
    }

    // A number of the first band and one of the second, weighed by the fall and by the rise.
    fn weighed(&self, from: u64, to: u64) -> u64
        requires first { from ≤ 22500000000 }
        requires second { to ≤ 22500000000 }
        ensures value { result ≡ self.now.fall * from + self.now.rise * to }
        ensures most { result ≤ 22500000000000 }
    {
        self.fall * from + self.rise * to
    }

    // (rise + fall) times the square of the peak speed of a turn that rises flat out and then falls.
    fn peak(&self) -> u64
        ensures value { result ≡ peak (pair_of self.now) }
        ensures most { result ≤ 34500000000000 }
    {
        let ends = self.weighed(squared(self.from.high), squared(self.to.high));
        2 * self.rise * self.fall * self.angle + ends
    }

    // That peak is within the greatest speed.
    fn peaks_within(&self) -> bool
        ensures { result ≡ rule_3 (pair_of self.now) }
    {
        self.peak() <= (self.rise + self.fall) * squared(self.top)
    }

    // Rule 3: up to a peak, and down again.
    fn peaked_ticks(&self) -> u64
        ensures { Last (allows_3 (pair_of self.now)) result }
    {
        let bound = (self.rise + self.fall) * self.peak();
        most_steps(
            bound,
            self.rise * self.fall,
            self.weighed(self.from.high, self.to.high),
        )
    }

    // What the two bands lack of the greatest speed, squared and weighed.
    fn lacking(&self) -> u64
        ensures value { result ≡ lacks (pair_of self.now) }
        ensures most { result ≤ 22500000000000 }
    {
        self.weighed(
            squared(self.top - self.from.high),
            squared(self.top - self.to.high),
        )
    }

    // Rule 4: up to the greatest speed, and down again.
    fn capped_ticks(&self) -> u64
        ensures { Last (allows_4 (pair_of self.now)) result }
    {
        let twice = 2 * self.rise * self.fall;
        (twice * self.angle + self.lacking()) / (twice * self.top)
    }

    // The greatest number of ticks that the first applying rule allows. Rule 2 is rule 1 of the
    // turn seen backward.
    fn most_ticks(&self) -> u64
        ensures { Last (allows (pair_of self.now)) result }
    {
        let backward = self.mirrored();
        if self.rises_within() {
            self.rising_ticks()
        } else if backward.rises_within() {
            backward.rising_ticks()
        } else if self.peaks_within() {
            self.peaked_ticks()
        } else {
            self.capped_ticks()
        }
    }

    // The least whole number of ticks between the starts of two turns, from the one band to the
    // other.
    pub(crate) fn gap(&self) -> Option<u32>
        ensures value { result ≡ gap_value (pair_of self.now) }
        ensures rules { GapByRules (pair_of self.now) result }
    {
        if self.leads() {
            Some(self.most_ticks() as u32)
        } else {
            None
        }
    }
}
