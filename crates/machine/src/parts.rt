// A core with what stands around it.
ghost use Rattle.std.specs.Prelude.{◌≡◌};
ghost use Rattle.machine.specs.Model.{started_with};
ghost use Rattle.machine.specs.Of.{model_of};

use board::Board;
use panel::Panel;
use registers::bench::Core;
use requests::Requests;

/// A core with the memory around it, its special registers, and the marks and tallies of its interrupt lines.
/// Contracts see it through `model_of`: a model's value cannot be made of what bounds say, as cells and standing are.
#[derive(Drop)]
pub struct Machine<B, P> {
    pub core: Core,
    pub board: B,
    pub panel: P,
    pub requests: Requests,
}

impl<B: Board, P: Panel> Machine<B, P> {
    /// A machine with no line waiting and nothing counted.
    pub fn new(core: Core, board: B, panel: P) -> Machine<B, P>
        ensures model { model_of B.Board P.Panel result ≡ started_with core (B.Board.cells board) (P.Panel.standing panel) }
        ensures rest { B.Board.rest result.board ≡ B.Board.rest board }
    {
        Machine {
            core,
            board,
            panel,
            requests: Requests::new(),
        }
    }
}
