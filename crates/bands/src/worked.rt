// Worked engine cards.
ghost use Rattle.std.specs.Prelude.{◌≡◌, true};
ghost use Rattle.bands.specs.Examples.{Worked};
ghost use Rattle.bands.specs.Real.{RealDrives};

// The gaps, deadlines and costs of worked cards are as their table says.
pub fn worked_gaps() -> bool
    ensures { (result ≡ true) × Worked }
{
    true
}

// There are drives: the definitions that "fits" speaks of are met by real ones. Says how many are
// shown.
pub fn real_drives() -> usize
    ensures { (result ≡ 9) × RealDrives }
{
    9
}
