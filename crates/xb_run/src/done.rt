// What the posts' threads give back: the ends, and what came of the post.
use crate::start::Threaded;
use rtrb::{Consumer, Producer};
use std::sync::Wait;
use std::time::Clock;
use xb_branches::{Deal, Gather};
use xb_flow::{Ending, Flow, Gate, Post};
use xb_model::{Dialled, LineStage, Mark, On, Order, Row, RowFault, RowSource, Signal};
use xb_posts::{Feed, TapeStation};
use xb_station::Station;
use xb_tape::Tapes;

/// What the feed gives back.
#[derive(Drop)]
pub(crate) struct FeedDone {
    pub(crate) served: bool,
    /// The fault that stopped the source.
    pub(crate) fault: Option<RowFault>,
    pub(crate) producer: Producer<Flow<Row>>,
}

/// What a station gives back.
#[derive(Drop)]
pub(crate) struct StationDone<I, O> {
    pub(crate) served: bool,
    pub(crate) consumer: Consumer<Flow<I>>,
    pub(crate) producer: Producer<Flow<O>>,
}

/// What a deal gives back.
#[derive(Drop)]
pub(crate) struct DealDone<T> {
    pub(crate) served: bool,
    pub(crate) consumer: Consumer<Flow<T>>,
    pub(crate) producers: Vec<Producer<Flow<T>>>,
}

/// What a gather gives back.
#[derive(Drop)]
pub(crate) struct GatherDone<T> {
    pub(crate) served: bool,
    pub(crate) consumers: Vec<Consumer<Flow<T>>>,
    pub(crate) producer: Producer<Flow<T>>,
}

/// What came of the tape station.
#[derive(Drop)]
pub(crate) enum Taped {
    /// It was told to stop.
    Stopped,
    /// Memory ran out.
    Refused,
    /// It served to the End.
    Served(Tapes),
}

/// What the tape station gives back.
#[derive(Drop)]
pub(crate) struct TapeDone {
    pub(crate) taped: Taped,
    pub(crate) consumer: Consumer<Flow<On<Mark>>>,
}

/// What all posts give back.
#[derive(Drop)]
pub(crate) struct AllDone {
    pub(crate) feed: FeedDone,
    pub(crate) pulse: StationDone<Row, On<Signal>>,
    pub(crate) register: StationDone<On<Signal>, On<Dialled>>,
    pub(crate) translate: StationDone<On<Dialled>, On<Order>>,
    pub(crate) deal: DealDone<On<Order>>,
    pub(crate) senders: Vec<StationDone<On<Order>, On<Mark>>>,
    pub(crate) gather: GatherDone<On<Mark>>,
    pub(crate) tape: TapeDone,
}

impl<S: RowSource + Drop> Threaded for Feed<S> {
    ghost use Rattle.xb_run.specs.Promises.{FeedPromised};

    type Done = FeedDone;

    ghost promised = { λ made done. FeedPromised made done };

    fn serve_out<R: Wait + Clock, G: Gate>(mut self, rt: &R, _name: Post, gate: &G) -> FeedDone {
        let fault = self.serve(rt, gate).err();
        FeedDone {
            served: true,
            fault,
            producer: self.into_ends(),
        }
    }

    fn stop(self) -> FeedDone {
        FeedDone {
            served: false,
            fault: None,
            producer: self.into_ends(),
        }
    }
}

impl<S: LineStage + Drop> Threaded for Station<S> {
    ghost use Rattle.xb_run.specs.Promises.{StationPromised};

    type Done = StationDone<S::In, S::Out>;

    ghost promised = { λ made done. StationPromised S.In.line_of S.machine made done };

    fn serve_out<R: Wait + Clock, G: Gate>(
        mut self,
        rt: &R,
        name: Post,
        gate: &G,
    ) -> StationDone<S::In, S::Out> {
        self.serve(rt, name, gate);
        let (consumer, producer) = self.into_ends();
        StationDone {
            served: true,
            consumer,
            producer,
        }
    }

    fn stop(self) -> StationDone<S::In, S::Out> {
        let (consumer, producer) = self.into_ends();
        StationDone {
            served: false,
            consumer,
            producer,
        }
    }
}

impl<T: Drop> Threaded for Deal<T> {
    ghost use Rattle.xb_run.specs.Promises.{DealPromised};

    type Done = DealDone<T>;

    ghost promised = { λ made done. DealPromised made done };

    fn serve_out<R: Wait + Clock, G: Gate>(mut self, rt: &R, _name: Post, gate: &G) -> DealDone<T> {
        self.serve(rt, gate);
        let (consumer, producers) = self.into_ends();
        DealDone {
            served: true,
            consumer,
            producers,
        }
    }

    fn stop(self) -> DealDone<T> {
        let (consumer, producers) = self.into_ends();
        DealDone {
            served: false,
            consumer,
            producers,
        }
    }
}

impl<T: Ending + Drop> Threaded for Gather<T> {
    ghost use Rattle.xb_run.specs.Promises.{GatherPromised};

    type Done = GatherDone<T>;

    ghost promised = { λ made done. GatherPromised T.ending made done };

    fn serve_out<R: Wait + Clock, G: Gate>(
        mut self,
        rt: &R,
        _name: Post,
        gate: &G,
    ) -> GatherDone<T> {
        self.serve(rt, gate);
        let (consumers, producer) = self.into_ends();
        GatherDone {
            served: true,
            consumers,
            producer,
        }
    }

    fn stop(self) -> GatherDone<T> {
        let (consumers, producer) = self.into_ends();
        GatherDone {
            served: false,
            consumers,
            producer,
        }
    }
}

impl Threaded for TapeStation {
    ghost use Rattle.xb_run.specs.Promises.{TapePromised};

    type Done = TapeDone;

    ghost promised = { λ made done. TapePromised made done };

    fn serve_out<R: Wait + Clock, G: Gate>(mut self, rt: &R, _name: Post, gate: &G) -> TapeDone {
        let served = self.serve(rt, gate).is_ok();
        let (consumer, tapes) = self.into_parts();
        TapeDone {
            taped: if served {
                Taped::Served(tapes)
            } else {
                Taped::Refused
            },
            consumer,
        }
    }

    fn stop(self) -> TapeDone {
        let (consumer, _) = self.into_parts();
        TapeDone {
            taped: Taped::Stopped,
            consumer,
        }
    }
}
