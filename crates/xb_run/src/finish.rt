// The tapes, once all posts came back.
ghost use Rattle.std.specs.Prelude.{◌≡◌, ◌≤◌, IfOk, IfErr, IfSome, Err, None, Some, List, vec_len};
ghost use Rattle.xb_model.specs.declared.fault.RowFault.{RowFault as Fault};
ghost use Rattle.xb_model.specs.declared.limits.Limits.{Limits};
ghost use Rattle.xb_model.specs.declared.plan.Plan.{Plan};
ghost use Rattle.xb_model.specs.Routing.{CodedRoute};
ghost use Rattle.xb_model.specs.Rows.{LoopRow};
ghost use Rattle.xb_images.specs.Images.{serial_image};
ghost use Rattle.xb_branches.specs.declared.branches.TheConstants.{MOST_BRANCHES};
ghost use Rattle.xb_tape.specs.GatheredMarks.{AreTapes};
ghost use Rattle.xb_run.specs.Faults.{bank_fault_of};
ghost use Rattle.xb_run.specs.Returned.{AreRejoined, AreSettled};
ghost use Rattle.xb_run.specs.Served.{AllServed, IsUnserved, HaveServed, IsFaultOf};

use crate::done::{AllDone, Taped};
use crate::fault::BankFault;
use crate::senders::{settle, settle_senders, unserved_sender};
use xb_flow::Post;
use xb_tape::Tapes;

// The first post, from the feed on, that was not served.
fn unserved_post(done: &AllDone) -> Option<Post>
    requires few { vec_len done.now.senders ≤ MOST_BRANCHES }
    ensures none { result ≡ None → AllServed done.now }
    ensures some { IfSome result (IsUnserved done.now) }
{
    if !done.feed.served {
        return Some(Post::Feed);
    }
    if !done.pulse.served {
        return Some(Post::Pulse);
    }
    if !done.register.served {
        return Some(Post::Register);
    }
    if !done.translate.served {
        return Some(Post::Translate);
    }
    if !done.deal.served {
        return Some(Post::Deal);
    }
    if let Some(number) = unserved_sender(&done.senders) {
        return Some(Post::Send(number));
    }
    if !done.gather.served {
        return Some(Post::Gather);
    }
    match done.tape.taped {
        Taped::Stopped => Some(Post::Tape),
        Taped::Refused | Taped::Served(_) => None,
    }
}

// Settles each ring in turn.
fn settle_rings(done: AllDone) -> Taped
    requires { AreRejoined done }
    ensures taped { result ≡ done.tape.taped }
    ensures settled { AreSettled done }
{
    let AllDone {
        feed,
        pulse,
        register,
        translate,
        deal,
        senders,
        gather,
        tape,
    } = done;
    settle(feed.producer, pulse.consumer);
    settle(pulse.producer, register.consumer);
    settle(register.producer, translate.consumer);
    settle(translate.producer, deal.consumer);
    settle_senders(deal.producers, senders, gather.consumers);
    settle(gather.producer, tape.consumer);
    tape.taped
}

/// The tapes, where every post was served and the source stopped with an end. Where a post was not
/// served, `Err` names the first such; else a fault of the source comes before that of the tapes, which
/// is that memory ran out.
pub(crate) fn finish(done: AllDone) -> Result<Tapes, BankFault>
    requires rejoined { AreRejoined done }
    requires few { vec_len done.senders ≤ MOST_BRANCHES }
    ensures tapes { IfOk result (λ tapes. (plan : Plan) (limits : Limits) (routes : List CodedRoute)
        (rows : List LoopRow) → HaveServed plan limits routes rows done →
        AreTapes tapes (serial_image plan limits routes rows)) }
    ensures served { IfOk result (λ tapes. AllServed done × (done.feed.fault ≡ None)) }
    ensures rows_first { (fault : Fault) → AllServed done → done.feed.fault ≡ Some fault →
        result ≡ Err (bank_fault_of fault) }
    ensures fault { IfErr result (IsFaultOf done) }
{
    if let Some(post) = unserved_post(&done) {
        return Err(BankFault::NoThread(post));
    }
    if let Some(fault) = done.feed.fault {
        return Err(BankFault::from(fault));
    }
    match settle_rings(done) {
        Taped::Served(tapes) => Ok(tapes),
        Taped::Refused => Err(BankFault::NoMemory),
        Taped::Stopped => unreachable!(),
    }
}
