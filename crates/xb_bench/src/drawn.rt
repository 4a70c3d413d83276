// The dial of a line through a recording, whose digits are drawn where it ends.
ghost use Rattle.std.specs.Prelude.{◌≡◌};
ghost use Rattle.xb_bench.specs.Drawn.{by_plots, turns_with};

use crate::bench::Bench;
use crate::drawing::push_drawing;
use crate::setting::Setting;
use std::alloc::AllocError;
use xb_contact::{Level, Scale};
use xb_feed::{Follow, Manner};
use xb_model::LineNo;
use xb_plot::{Turn, Turns};
use xb_turns::Said;

/// A contact from its first level on, of which the last digits are drawn where the recording ends. Nothing is told
/// before.
#[derive(Drop)]
pub struct DrawnBench {
    bench: Bench,
    turns: Turns,
}

impl DrawnBench {
    // What is told, if it is a digit.
    fn keep(&mut self, said: Option<Said>)
        ensures { self.new ≡ turns_with self.old said }
    {
        if let Some(Said::Digit(train, bounce)) = said {
            self.turns.take(Turn { train, bounce });
        }
    }
}

impl Follow<Setting> for DrawnBench {
    ghost rules = { by_plots };

    fn begin(
        manner: Manner,
        common: Setting,
        scale: Scale,
        least: u64,
        start: u64,
        level: Level,
    ) -> DrawnBench {
        DrawnBench {
            bench: Bench::begin(manner, common, scale, least, start, level),
            turns: Turns::new(),
        }
    }

    fn can_hold(&self, tick: u64) -> bool {
        self.bench.can_hold(tick)
    }

    fn hold_until(
        &mut self,
        _line: LineNo,
        tick: u64,
        _text: &mut String,
    ) -> Result<(), AllocError> {
        let said = self.bench.hold(tick);
        self.keep(said);
        Ok(())
    }

    fn change(&mut self, level: Level) {
        self.bench.change(level);
    }

    // Nothing.
    fn note(&self, _scale: Scale, _line: LineNo, _notes: &mut String) -> Result<(), AllocError> {
        Ok(())
    }

    fn end(mut self, line: LineNo, text: &mut String) -> Result<(), AllocError> {
        let said = self.bench.last();
        self.keep(said);
        let bench = &self.bench;
        push_drawing(
            bench.setting,
            text,
            line,
            bench.scale,
            bench.sums,
            &self.turns,
        )
    }
}
