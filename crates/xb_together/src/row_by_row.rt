// One row at a time: each signal is heard in the row in which its limit is reached.
ghost use Rattle.std.specs.Prelude.{◌≡◌, IfOk};
ghost use Rattle.xb_model.specs.LawfulLimits.{IsLawful};
ghost use Rattle.xb_together.specs.Hearing.{HearsOpenRecord};

use std::alloc::{AllocError, Global};
use xb_model::{Limits, LineStage, OUTPUT_ROOM, On, Row, Signal};
use xb_pulse::Pulse;

/// The signals that rows of one line give, in order. A simulator would keep `state` from row to row, and
/// act on what each `step` puts into `sent`. `Err` where memory ran out.
pub fn hear(alloc: Global, limits: Limits, rows: &[Row]) -> Result<Vec<On<Signal>>, AllocError>
    requires { IsLawful limits }
    ensures { IfOk result (λ heard. HearsOpenRecord limits rows.now heard.items) }
{
    let pulse = Pulse::new(limits);
    let mut state = pulse.fresh();
    let mut sent = Vec::with_capacity(alloc, OUTPUT_ROOM)?;
    let mut heard = Vec::new(alloc);
    for row in rows {
        pulse.step(&mut state, *row, &mut sent);
        heard.append(&mut sent)?;
    }
    Ok(heard)
}
