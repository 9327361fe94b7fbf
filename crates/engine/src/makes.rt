// How an engine is made.
ghost use Rattle.std.specs.Prelude.{◌≡◌, IfOk};
ghost use Rattle.refusal.specs.Numbers.{refusal_in};
ghost use Rattle.engine.specs.Limits.{engine_refusal};
ghost use Rattle.engine.specs.Views.{numbers_of, house_engine};

use crate::engine::Engine;
use crate::numbers::Numbers;
use refusal::Refusal;
use task::checked::EntryCost;

impl Engine {
    // An engine of these five numbers, or a refusal where one is outside its limits.
    pub fn new(numbers: Numbers) -> Result<Engine, Refusal>
        ensures refusal { refusal_in result ≡ engine_refusal numbers.least numbers.greatest numbers.rise numbers.fall numbers.entry }
        ensures made { IfOk result (λ e. numbers_of e ≡ numbers) }
    {
        let Numbers {
            least,
            greatest,
            rise,
            fall,
            entry,
        } = numbers;
        let turns = (1..greatest).contains(&least) && greatest <= 150_000;
        if !turns || !(1..=500).contains(&rise) || !(1..=500).contains(&fall) {
            return Err(Refusal::EngineLimits);
        }
        let entry = EntryCost::new(entry).map_err(|_| Refusal::EngineLimits)?;
        Ok(Engine {
            least,
            greatest,
            rise,
            fall,
            entry,
        })
    }

    // The engine that a new plan holds.
    pub fn house() -> Engine
        ensures { numbers_of result ≡ house_engine }
    {
        Engine {
            least: 5_000,
            greatest: 65_000,
            rise: 10,
            fall: 10,
            entry: EntryCost::NONE,
        }
    }
}
