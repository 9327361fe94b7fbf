// Cards as the tasks that are judged and told.
ghost use Rattle.std.specs.Prelude.{◌≡◌, Bool, true};
ghost use Rattle.task.specs.Graph.{Graph};
ghost use Rattle.engine.specs.Views.{Numbers, numbers_of};
ghost use Rattle.deck.specs.Tables.{crank_of, clock_of, right_card};
ghost use Rattle.deck.specs.Judging.{crank_graph, clock_graph};

use crate::cards::{CrankCard, TimedCard};
use bands::kind::Bands;
use engine::engine::Engine;
use task::interface::Task;
use task::kinds::Timed;
use task::layers::{Entry, Shared};

// A card that is a task, with an engine that it is right for.
pub(crate) trait TaskCard {
    type Kind: Task + Drop;

    ghost right: { Numbers → Self → Bool };

    ghost graph: { Numbers → Self → Graph };

    fn task(&self, engine: &Engine) -> Self::Kind
        requires { right (numbers_of engine.now) self.now ≡ true }
        ensures { Self.Kind.graph result ≡ graph (numbers_of engine.now) self.now };
}

// An engine card: its share over the entry cost over its bands.
impl TaskCard for CrankCard {
    type Kind = Shared<Entry<Bands>>;

    ghost right = { λ e c. right_card e (crank_of c) };

    ghost graph = { λ e c. crank_graph e (crank_of c) };

    fn task(&self, engine: &Engine) -> Shared<Entry<Bands>> {
        let bands = Bands {
            engine: *engine,
            card: self.card,
        };
        let entered = Entry {
            below: bands,
            entry: engine.entry,
        };
        Shared {
            below: entered,
            share: self.share,
        }
    }
}

// A timed card: the entry cost over its timing.
impl TaskCard for TimedCard {
    type Kind = Entry<Timed>;

    ghost right = { λ e c. true };

    ghost graph = { λ e c. clock_graph e (clock_of c) };

    fn task(&self, engine: &Engine) -> Entry<Timed> {
        Entry {
            below: self.timed,
            entry: engine.entry,
        }
    }
}
