// Numbers that were checked against their limits when they were made.
ghost use Rattle.std.specs.Prelude.{◌≡◌, ◌≤◌, ◌&&◌, is_ok, MatchResult, nat_le};
ghost use Rattle.refusal.specs.declared.Refusal.TheVariants.{ValueLimits};

use refusal::Refusal;

// A share of a deadline, in thousandths.
// Share and EntryCost stay two types: one type with its limits as parameters would tell a share from
// a cost only because their limits differ, and could name the unit of neither.
#[derive(Clone, Copy)]
pub struct Share {
    thousandths: u16,
    ghost least: { 1 ≤ thousandths },
    ghost most: { thousandths ≤ 1000 },
}

impl Share {
    // The whole of a deadline.
    pub const WHOLE: Share = Share { thousandths: 1000 };

    pub fn new(thousandths: u16) -> Result<Share, Refusal>
        ensures made { MatchResult result (λ s. s.thousandths ≡ thousandths) (λ e. e ≡ ValueLimits) }
        ensures when { is_ok result ≡ (nat_le 1 thousandths && nat_le thousandths 1000) }
    {
        if (1..=1000).contains(&thousandths) {
            Ok(Share { thousandths })
        } else {
            Err(Refusal::ValueLimits)
        }
    }

    pub fn thousandths(&self) -> u16
        ensures { result ≡ self.now.thousandths }
    {
        self.thousandths
    }
}

// An entry cost: what every release costs on top of its own work, in ticks.
#[derive(Clone, Copy)]
pub struct EntryCost {
    ticks: u16,
    ghost most: { ticks ≤ 1000 },
}

impl EntryCost {
    // No entry cost.
    pub const NONE: EntryCost = EntryCost { ticks: 0 };

    pub fn new(ticks: u16) -> Result<EntryCost, Refusal>
        ensures made { MatchResult result (λ e. e.ticks ≡ ticks) (λ e. e ≡ ValueLimits) }
        ensures when { is_ok result ≡ nat_le ticks 1000 }
    {
        if ticks <= 1000 {
            Ok(EntryCost { ticks })
        } else {
            Err(Refusal::ValueLimits)
        }
    }

    pub fn ticks(&self) -> u16
        ensures { result ≡ self.now.ticks }
    {
        self.ticks
    }
}

// Whether the cost of a job is within its limits.
pub fn cost_right(cost: u32) -> bool
    ensures { result ≡ (nat_le 1 cost && nat_le cost 100000) }
{
    (1..=100_000).contains(&cost)
}
