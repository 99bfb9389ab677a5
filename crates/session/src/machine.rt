// All that is put in service together once a session has loaded.
ghost use Rattle.std.specs.Prelude.{◌≡◌};
ghost use Rattle.board.specs.Flat.{flat_cells, flat_rest};
ghost use Rattle.board.specs.Of.{flat_of, flat_rest_of};
ghost use Rattle.panel.specs.BenchOf.{bench_of};
ghost use Rattle.session.specs.Machine.{quiet};
ghost use Rattle.timers.specs.TimersOf.{timers_of};

use crate::load::Loader;
use board::flat::FlatBoard;
use panel::BenchPanel;
use registers::bench::Core;
use timers::Timers;

/// A core, a flat board over the loaded memory, and timers over a bench panel on which no line rises by itself.
#[derive(Drop)]
pub(crate) struct Machine {
    pub(crate) core: Core,
    pub(crate) board: FlatBoard,
    pub(crate) panel: Timers<BenchPanel>,
}

impl Loader {
    /// What the session loaded, with a fresh panel.
    pub(crate) fn into_machine(self) -> Machine
        ensures core { result.core ≡ self.core }
        ensures cells { flat_of result.board ≡ flat_cells self.memory self.below }
        ensures rest { flat_rest_of result.board ≡ flat_rest self.memory self.below }
        ensures panel { timers_of bench_of result.panel ≡ quiet }
    {
        let Loader {
            core,
            fixed_below,
            memory,
            ..
        } = self;
        let schedule = Vec::new(*memory.allocator());
        Machine {
            core: core.into_core(),
            board: FlatBoard::new(memory, u32::from(fixed_below)),
            panel: Timers::before(BenchPanel::new(schedule)),
        }
    }
}
