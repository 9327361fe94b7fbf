// An engine card's bands behind the one interface of a task.
ghost use Rattle.engine.specs.Views.{numbers_of, parts_of};
ghost use Rattle.bands.specs.Graphs.{bands_graph};
ghost use Rattle.bands.specs.Drives.{BandsLists};
ghost use Rattle.bands.specs.Laws.Lawful.{bands_lawful};
ghost use Rattle.bands.specs.Laws.Drives.{drives_follow};
ghost use Rattle.bands.specs.Laws.Ready.{ready_of};

use crate::kind::Bands;
use task::interface::Task;

impl Task for Bands {
    ghost graph = { λ b. bands_graph (numbers_of b.engine) (parts_of b.card) };

    ghost lists = { λ b. BandsLists (numbers_of b.engine) (parts_of b.card) };

    ghost lawful = { λ b. bands_lawful (numbers_of b.engine) (parts_of b.card) (ready_of b) };

    ghost follows = { λ b k js o l. drives_follow (numbers_of b.engine) (parts_of b.card) (ready_of b) k o js l };

    fn places(&self) -> usize {
        self.card.bands.len()
    }

    fn cost(&self, place: usize) -> u32 {
        self.band_cost(place)
    }

    fn deadline(&self, place: usize) -> u32 {
        self.band_deadline(place)
    }

    fn gap(&self, from: usize, to: usize) -> Option<u32> {
        self.gap_between(from, to)
    }
}
