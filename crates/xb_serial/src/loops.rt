// The loops of all lines, one row after another.
use crate::registers::Registers;
use std::alloc::{AllocError, Global};
use std::marker::Model;
use xb_model::{Dialled, LineStage, On, PerLine, Row};
use xb_pulse::{Pulse, PulseState};
use xb_routes::RouteTable;

// The loops of all lines: what is heard on them, and the registers which that goes to.
#[derive(Drop)]
pub(crate) struct Loops {
    pulse: Pulse,
    lines: PerLine<PulseState>,
    registers: Registers,
}

impl Model for Loops {
    ghost use Rattle.xb_serial.specs.Taken.{Hearing};

    ghost Value = { Hearing };

    ghost view = { λ loops. record {
      limits = loops.pulse;
      lines = loops.lines;
      registers = loops.registers;
    } };
}

impl Loops {
    ghost use Rattle.std.specs.Prelude.{◌≡◌, [], ◌∷◌, ◌++◌, List, IfOk, OnOk};
    ghost use Rattle.xb_model.specs.declared.limits.Limits.{Limits};
    ghost use Rattle.xb_model.specs.declared.plan.Plan.{Plan};
    ghost use Rattle.xb_model.specs.LawfulLimits.{IsLawful};
    ghost use Rattle.xb_model.specs.Rows.{LoopRow};
    ghost use Rattle.xb_serial.specs.Taken.{HasHeard};

    // Loops of which no row is taken.
    pub(crate) fn new(alloc: Global, table: &RouteTable) -> Result<Loops, AllocError>
        ensures taken { IfOk result (λ loops. HasHeard table.now.limits table.now.plan loops []) }
        ensures lawful { IsLawful table.now.limits }
    {
        let pulse = Pulse::new(table.limits());
        let lines = PerLine::from_fn(alloc, || pulse.fresh())?;
        let registers = Registers::new(alloc, table.plan())?;
        Ok(Loops {
            pulse,
            lines,
            registers,
        })
    }

    // Takes one row.
    fn take(&mut self, row: Row) -> Result<(), AllocError>
        ensures { OnOk result ((limits : Limits) (plan : Plan) (rows : List LoopRow) →
            HasHeard limits plan self.old rows → HasHeard limits plan self.new (rows ++ row ∷ [])) }
    {
        let line = row.line();
        let sent = self.pulse.take(self.lines.get_mut(line), row);
        self.registers.take_all(line, sent.as_slice())
    }

    // Takes rows, one after another.
    pub(crate) fn take_all(&mut self, rows: &[Row]) -> Result<(), AllocError>
        ensures { OnOk result ((limits : Limits) (plan : Plan) (earlier : List LoopRow) →
            HasHeard limits plan self.old earlier → HasHeard limits plan self.new (earlier ++ rows.now)) }
    {
        for row in rows {
            self.take(*row)?;
        }
        Ok(())
    }

    // What came of the attempts.
    pub(crate) fn into_dialled(self) -> Vec<On<Dialled>>
        ensures { result.items ≡ self.registers.dialled }
    {
        self.registers.into_dialled()
    }
}
