// All posts with one owner.
use crate::looks::{look_at_inputs, look_at_outputs};
use std::alloc::{AllocError, Global};
use std::marker::Model;
use xb_flow::{Post, Turn};
use xb_model::{LineNo, Listed, Mark, Row};
use xb_routes::RouteTable;
use xb_run::Chain;

/// The posts and rings of the chain, held by one owner who says which post makes the next turn (own
/// profile). Clauses see the rows and the route table, which it keeps by reference, and each post: what
/// its ends received and sent, what it holds, and of the last one the tapes.
#[derive(Drop)]
pub struct Replay<'a> {
    rows: &'a [Row],
    table: &'a RouteTable,
    chain: Chain<'a, Listed<'a>>,
}

impl<'a> Model for Replay<'a> {
    ghost use Rattle.xb_run.specs.Chains.{posts_of};
    ghost use Rattle.xb_replay.specs.World.{World, WorldLaw};

    ghost Value = { World };

    ghost view = { λ all. record {
      rows = all.rows.now;
      table = all.table.now;
      posts = posts_of all.chain;
    } };

    ghost invariant = { λ all. WorldLaw (record {
      rows = all.rows.now;
      table = all.table.now;
      posts = posts_of all.chain;
    }) };
}

impl<'a> Replay<'a> {
    ghost use Rattle.std.specs.Prelude.{◌≡◌, ◌≤◌, ◌↔◌, length, IfOk, OnErr, IsTrue, Ok};
    ghost use mathlib.Core.List.{IsPrefix};
    ghost use Rattle.xb_branches.specs.declared.branches.TheConstants.{MOST_BRANCHES};
    ghost use Rattle.xb_flow.specs.declared.ends.TheConstants.{GREATEST_CAPACITY};
    ghost use Rattle.xb_flow.specs.declared.post.Post.TheVariants as posts;
    ghost use Rattle.xb_flow.specs.declared.turn.Turn.TheVariants.{Idle, Ended};
    ghost use Rattle.xb_run.specs.Posts.{IsBlank};
    ghost use Rattle.xb_run.specs.Rings.{HaveRoom};
    ghost use Rattle.xb_replay.specs.Turns.{SameRecords, Waits, HasEnded, AllEnded, NoneEnded, Stays, OthersStay, IsTurn, HasTurned, HasRefused};
    ghost use Rattle.xb_replay.specs.World.{WorldLaw, marks_of, whole_tape, ArePrefixes, AreWhole};

    /// All posts, with 1 to 8 senders, on new rings with room for 1 to 1,024 items each. Nothing was
    /// sent or received; `Err` where memory ran out.
    pub fn new(
        alloc: Global,
        rows: &'a [Row],
        table: &'a RouteTable,
        senders: usize,
        ring: usize,
    ) -> Result<Replay<'a>, AllocError>
        requires senders_least { 1 ≤ senders }
        requires senders_most { senders ≤ MOST_BRANCHES }
        requires ring_least { 1 ≤ ring }
        requires ring_most { ring ≤ GREATEST_CAPACITY }
        ensures rows { IfOk result (λ all. all.rows ≡ rows.now) }
        ensures table { IfOk result (λ all. all.table ≡ table.now) }
        ensures senders { IfOk result (λ all. length all.posts.senders ≡ senders) }
        ensures room { IfOk result (λ all. HaveRoom ring all.posts) }
        ensures blank { IfOk result (λ all. IsBlank all.posts) }
        ensures going { IfOk result (λ all. NoneEnded all.posts) }
        ensures lawful { IfOk result (λ all. WorldLaw all) }
    {
        let chain = Chain::link(alloc, Listed::new(rows), table, senders, ring)?;
        let replay = Replay { rows, table, chain };
        Ok(replay)
    }

    /// Makes one turn of a post, with a look at its rings before and after it: the very turn that its
    /// thread makes. A post that isn't there is idle. `Err` where the tape station ran out of memory:
    /// then nothing changed, and its next turn tries again.
    pub fn turn(&mut self, post: Post) -> Result<Turn, AllocError>
        ensures records { SameRecords self.old self.new }
        ensures event { IfOk result (λ turn. IsTurn self.old.posts post turn self.new.posts) }
        ensures ended { (result ≡ Ok Ended) ↔ HasEnded self.old.posts post }
        ensures idle { IfOk result (λ turn.
            Waits self.old.posts post → (HasEnded self.old.posts post → ⊥) → turn ≡ Idle) }
        ensures refused { OnErr result ((post ≡ posts.Tape) × Stays self.old.posts post self.new.posts) }
        ensures others { OthersStay self.old.posts post self.new.posts }
        ensures prefixes { ArePrefixes self.new }
        ensures lawful { WorldLaw self.new }
    {
        self.make_turn(post)
    }

    fn make_turn(&mut self, post: Post) -> Result<Turn, AllocError>
        ensures turned { IfOk result (λ turn. HasTurned self.old post turn self.new) }
        ensures refused { OnErr result ((post ≡ posts.Tape) × HasRefused self.old self.new) }
        ensures lawful { WorldLaw self.new }
    {
        match post {
            Post::Feed => Ok(self.turn_feed()),
            Post::Pulse => Ok(self.turn_pulse()),
            Post::Register => Ok(self.turn_register()),
            Post::Translate => Ok(self.turn_translate()),
            Post::Deal => Ok(self.turn_deal()),
            Post::Send(number) => Ok(self.turn_sender(usize::from(number))),
            Post::Gather => Ok(self.turn_gather()),
            Post::Tape => self.turn_tape(),
        }
    }

    /// The marks of a line so far: a prefix of its tape, and the whole of it once all posts have ended.
    pub fn marks(&self, line: LineNo) -> &[Mark]
        ensures value { result.now ≡ marks_of self.now line }
        ensures prefix { IsPrefix result.now (whole_tape self.now line) }
        ensures whole { AllEnded self.now.posts → result.now ≡ whole_tape self.now line }
    {
        self.chain.tape.marks(line)
    }

    /// Whether all posts have ended: each has sent its End, and the tape station has received its own.
    pub fn ended(&self) -> bool
        ensures ended { IsTrue result ↔ AllEnded self.now.posts }
        ensures whole { IsTrue result → AreWhole self.now }
    {
        self.chain.tape.has_ended()
    }

    fn turn_feed(&mut self) -> Turn
        ensures turned { HasTurned self.old posts.Feed result self.new }
        ensures lawful { WorldLaw self.new }
    {
        let chain = &mut self.chain;
        chain.pulse.look(0, &mut chain.feed, 0);
        let turn = match chain.feed.turn() {
            Ok(turn) => turn,
            Err(_) => unreachable!(),
        };
        chain.pulse.look(0, &mut chain.feed, 0);
        turn
    }

    fn turn_pulse(&mut self) -> Turn
        ensures turned { HasTurned self.old posts.Pulse result self.new }
        ensures lawful { WorldLaw self.new }
    {
        let chain = &mut self.chain;
        chain.pulse.look(0, &mut chain.feed, 0);
        chain.register.look(0, &mut chain.pulse, 0);
        let turn = chain.pulse.turn();
        chain.register.look(0, &mut chain.pulse, 0);
        chain.pulse.look(0, &mut chain.feed, 0);
        turn
    }

    fn turn_register(&mut self) -> Turn
        ensures turned { HasTurned self.old posts.Register result self.new }
        ensures lawful { WorldLaw self.new }
    {
        let chain = &mut self.chain;
        chain.register.look(0, &mut chain.pulse, 0);
        chain.translate.look(0, &mut chain.register, 0);
        let turn = chain.register.turn();
        chain.translate.look(0, &mut chain.register, 0);
        chain.register.look(0, &mut chain.pulse, 0);
        turn
    }

    fn turn_translate(&mut self) -> Turn
        ensures turned { HasTurned self.old posts.Translate result self.new }
        ensures lawful { WorldLaw self.new }
    {
        let chain = &mut self.chain;
        chain.translate.look(0, &mut chain.register, 0);
        chain.deal.look(0, &mut chain.translate, 0);
        let turn = chain.translate.turn();
        chain.deal.look(0, &mut chain.translate, 0);
        chain.translate.look(0, &mut chain.register, 0);
        turn
    }

    fn turn_deal(&mut self) -> Turn
        ensures turned { HasTurned self.old posts.Deal result self.new }
        ensures lawful { WorldLaw self.new }
    {
        let chain = &mut self.chain;
        chain.deal.look(0, &mut chain.translate, 0);
        look_at_outputs(&mut chain.deal, &mut chain.senders);
        let turn = chain.deal.turn();
        look_at_outputs(&mut chain.deal, &mut chain.senders);
        chain.deal.look(0, &mut chain.translate, 0);
        turn
    }

    // The turn of the sender with this number, from 0; idle where there is none.
    fn turn_sender(&mut self, number: usize) -> Turn
        ensures turned { HasTurned self.old (posts.Send number) result self.new }
        ensures lawful { WorldLaw self.new }
    {
        if number >= self.chain.senders.len() {
            return Turn::Idle;
        }
        let chain = &mut self.chain;
        let sender = &mut chain.senders[number];
        sender.look(0, &mut chain.deal, number);
        chain.gather.look(number, sender, 0);
        let turn = sender.turn();
        chain.gather.look(number, sender, 0);
        sender.look(0, &mut chain.deal, number);
        turn
    }

    fn turn_gather(&mut self) -> Turn
        ensures turned { HasTurned self.old posts.Gather result self.new }
        ensures lawful { WorldLaw self.new }
    {
        let chain = &mut self.chain;
        look_at_inputs(&mut chain.gather, &mut chain.senders);
        chain.tape.look(0, &mut chain.gather, 0);
        let turn = chain.gather.turn();
        chain.tape.look(0, &mut chain.gather, 0);
        look_at_inputs(&mut chain.gather, &mut chain.senders);
        turn
    }

    fn turn_tape(&mut self) -> Result<Turn, AllocError>
        ensures turned { IfOk result (λ turn. HasTurned self.old posts.Tape turn self.new) }
        ensures refused { OnErr result (HasRefused self.old self.new) }
        ensures lawful { WorldLaw self.new }
    {
        let chain = &mut self.chain;
        chain.tape.look(0, &mut chain.gather, 0);
        let turn = chain.tape.turn();
        chain.tape.look(0, &mut chain.gather, 0);
        turn
    }
}
