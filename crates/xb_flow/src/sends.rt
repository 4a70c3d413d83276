// Posts that send into rings.
ghost use Rattle.std.specs.Prelude.{List};
ghost use Rattle.std.specs.declared.alloc.Global.{Global};
ghost use Rattle.rtrb.specs.declared.producer.Producer.{Producer};
ghost use Rattle.rtrb.specs.declared.AnyItems.{AnyItems};
ghost use Rattle.rtrb.specs.Ring.{ConsumerLooked};
ghost use Rattle.xb_flow.specs.declared.flow.Flow.{Flow};
ghost use Rattle.xb_flow.specs.Rings.{IsPairAt, IsRingAt};

use crate::flow::Flow;
use rtrb::Consumer;

/// A post that sends into rings.
pub trait Sends<T> {
    // the ends that it sends by
    ghost outputs: { Self → List (Producer (Flow T) Global AnyItems) };

    // nothing was sent or received, and what is held is the same; an output may know of more room
    ghost looked: { Self → Self → Type 0 };

    /// Looks at both ends of output `j`, `end` being the other one. The consumer then knows of every
    /// item that was sent and not received.
    fn look_at(&mut self, j: usize, end: &mut Consumer<Flow<T>>)
        requires { IsPairAt (outputs self.old) j end.old }
        ensures post { looked self.old self.new }
        ensures end { ConsumerLooked end.old end.new }
        ensures ring { IsRingAt (outputs self.new) j end.new };
}
