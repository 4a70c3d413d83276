// The registers of all lines, one signal after another.
use std::alloc::{AllocError, Global};
use std::marker::Model;
use xb_model::{Dialled, LineNo, LineStage, On, PerLine, Plan, Signal};
use xb_register::{Register, RegisterState};

// The registers of all lines, and what came of the attempts so far.
#[derive(Drop)]
pub(crate) struct Registers {
    register: Register,
    lines: PerLine<RegisterState>,
    dialled: Vec<On<Dialled>>,
}

impl Model for Registers {
    ghost use Rattle.xb_serial.specs.Taken.{Dialling};

    ghost Value = { Dialling };

    ghost view = { λ registers. record {
      plan = registers.register;
      lines = registers.lines;
      dialled = registers.dialled.items;
    } };
}

impl Registers {
    ghost use Rattle.std.specs.Prelude.{◌≡◌, [], ◌∷◌, ◌++◌, List, IfOk, OnOk};
    ghost use Rattle.xb_model.specs.declared.on.On.{On as OnSignal};
    ghost use Rattle.xb_model.specs.declared.plan.Plan.{Plan as NumberPlan};
    ghost use Rattle.xb_model.specs.declared.signal.Signal.{Signal as LineSignal};
    ghost use Rattle.xb_model.specs.OnLines.{on_line};
    ghost use Rattle.xb_serial.specs.Taken.{HasDialled};

    // Registers that have taken no signal.
    pub(crate) fn new(alloc: Global, plan: Plan) -> Result<Registers, AllocError>
        ensures { IfOk result (λ registers. HasDialled plan registers []) }
    {
        let register = Register::new(plan);
        let lines = PerLine::from_fn(alloc, || register.fresh())?;
        let dialled = Vec::new(alloc);
        Ok(Registers {
            register,
            lines,
            dialled,
        })
    }

    // Takes one signal.
    fn take(&mut self, signal: On<Signal>) -> Result<(), AllocError>
        ensures { OnOk result ((plan : NumberPlan) (signals : List (OnSignal LineSignal)) →
            HasDialled plan self.old signals → HasDialled plan self.new (signals ++ signal ∷ [])) }
    {
        let On { line, what } = signal;
        let outcome = self.register.take(self.lines.get_mut(line), what);
        if let Some(what) = outcome {
            self.dialled.push(On { line, what })?;
        }
        Ok(())
    }

    // Takes signals of one line.
    pub(crate) fn take_all(&mut self, line: LineNo, sent: &[Signal]) -> Result<(), AllocError>
        ensures { OnOk result ((plan : NumberPlan) (signals : List (OnSignal LineSignal)) →
            HasDialled plan self.old signals → HasDialled plan self.new (signals ++ on_line line sent.now)) }
    {
        for what in sent {
            self.take(On { line, what: *what })?;
        }
        Ok(())
    }

    // What came of the attempts.
    pub(crate) fn into_dialled(self) -> Vec<On<Dialled>>
        ensures { result.items ≡ self.dialled }
    {
        self.dialled
    }
}
