// Looks at the rings between a deal, the senders and a gather.
ghost use Rattle.std.specs.Prelude.{◌≡◌, length, vec_len};
ghost use Rattle.xb_flow.specs.Rings.{ProducersLooked};
ghost use Rattle.xb_replay.specs.Looks.{ArePairedOutputs, ArePairedInputs, AllInputsLooked, AllOutputsLooked, ConsumersLooked};
ghost use Rattle.xb_run.specs.Rings.{AreDealt, AreGathered};

use xb_branches::{Deal, Gather};
use xb_model::{Mark, On, Order};
use xb_sender::Sender;
use xb_station::Station;

// Looks at both ends of each output of a deal.
pub(crate) fn look_at_outputs(deal: &mut Deal<On<Order>>, senders: &mut Vec<Station<Sender>>)
    requires count { length deal.old.producers ≡ vec_len senders.old }
    requires pairs { ArePairedOutputs deal.old.producers senders.old.items }
    ensures rest { deal.new ≡ record deal.old { producers = deal.new.producers } }
    ensures producers { ProducersLooked deal.old.producers deal.new.producers }
    ensures senders { AllInputsLooked senders.old.items senders.new.items }
    ensures rings { AreDealt deal.new.producers senders.new.items }
{
    for j in 0..senders.len() {
        let sender = &mut senders[j];
        sender.look(0, deal, j);
    }
}

// Looks at both ends of each input of a gather.
pub(crate) fn look_at_inputs(gather: &mut Gather<On<Mark>>, senders: &mut Vec<Station<Sender>>)
    requires count { length gather.old.consumers ≡ vec_len senders.old }
    requires pairs { ArePairedInputs senders.old.items gather.old.consumers }
    ensures rest { gather.new ≡ record gather.old { consumers = gather.new.consumers } }
    ensures consumers { ConsumersLooked gather.old.consumers gather.new.consumers }
    ensures senders { AllOutputsLooked senders.old.items senders.new.items }
    ensures rings { AreGathered senders.new.items gather.new.consumers }
{
    for k in 0..senders.len() {
        let sender = &mut senders[k];
        gather.look(k, sender, 0);
    }
}
