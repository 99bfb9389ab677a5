// Calls of a panel in a row, and what it answers after them.
ghost use Rattle.std.specs.Prelude.{◌≡◌};
ghost use Rattle.lines.specs.Of.{lines_of};
ghost use Rattle.panel.specs.Rules.{code_of, states_of, rose};
ghost use Rattle.panel.specs.Calls.{called, driven};
ghost use Rattle.panel.specs.Bench.{bench_rules, bench_start};
ghost use Rattle.panel.specs.Schedule.{scheduled};

use crate::Panel;
use crate::bench::BenchPanel;
use crate::schedule::Due;
use lines::Lines;

// A call that changes a panel.
#[derive(Clone, Copy)]
pub enum Call {
    Put { code: u8, byte: u8 },
    Pass { states: u32 },
    Reset,
}

fn make<P: Panel>(panel: &mut P, call: Call)
    ensures { P.Panel.standing panel.new ≡ called P.Panel.rules (P.Panel.standing panel.old) call }
{
    match call {
        Call::Put { code, byte } => panel.put(code, byte),
        Call::Pass { states } => {
            let _ = panel.pass(states);
        }
        Call::Reset => panel.reset(),
    }
}

fn drive<P: Panel>(panel: &mut P, calls: &[Call])
    ensures { P.Panel.standing panel.new ≡ driven P.Panel.rules (P.Panel.standing panel.old) calls.now }
{
    for call in calls {
        make(panel, *call);
    }
}

// What a code shows, and which lines then rise in further states.
pub fn answers<P: Panel + Drop>(mut panel: P, calls: &[Call], code: u8, states: u32) -> (u8, Lines)
    ensures shown { result.0 ≡ P.Panel.rules.shown (driven P.Panel.rules (P.Panel.standing panel) calls.now) (code_of code) }
    ensures lines { lines_of result.1 ≡ rose P.Panel.rules (driven P.Panel.rules (P.Panel.standing panel) calls.now) (states_of states) }
{
    drive(&mut panel, calls);
    let shown = panel.show(code);
    (shown, panel.pass(states))
}

// The same of a fresh bench panel, by its own rules.
pub fn bench_answers(schedule: Vec<Due>, calls: &[Call], code: u8, states: u32) -> (u8, Lines)
    ensures shown { result.0 ≡ bench_rules.shown (driven bench_rules (bench_start (scheduled schedule.items)) calls.now) (code_of code) }
    ensures lines { lines_of result.1 ≡ rose bench_rules (driven bench_rules (bench_start (scheduled schedule.items)) calls.now) (states_of states) }
{
    answers(BenchPanel::new(schedule), calls, code, states)
}
