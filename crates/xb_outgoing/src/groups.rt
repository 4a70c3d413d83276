// The trunk groups that routes key, and those to which they send dial pulses.
ghost use Rattle.std.specs.Prelude.{◌≡◌, ◌≢◌, IfErr, IfOk, Ok, Err, map};
ghost use Rattle.toml.specs.View.{items_view};
ghost use Rattle.xb_outgoing.specs.declared.fault.OutgoingFault.TheVariants.{NoMemory};
ghost use Rattle.xb_outgoing.specs.Groups.{groups_from, has_group, no_groups, others, with_group};
ghost use Rattle.xb_routes.specs.Coded.{coded};

use crate::fault::OutgoingFault;
use crate::keys::send_of;
use std::alloc::{AllocError, Global};
use std::marker::Model;
use toml::Value;
use xb_model::Trunk;
use xb_routes::Entry;

/// Trunk groups by how calls are sent to them.
#[derive(Drop)]
pub(crate) struct Groups {
    keyed: Vec<Trunk>,
    /// Those that take dial pulses.
    pub(crate) pulsed: Vec<Trunk>,
}

impl Model for Groups {
    ghost use Rattle.xb_outgoing.specs.Groups.{GroupLists, group_lists};

    ghost Value = { GroupLists };

    ghost view = { λ groups. group_lists groups.keyed.items groups.pulsed.items };
}

/// Whether a trunk group is among these.
pub(crate) fn has_group(groups: &[Trunk], trunk: Trunk) -> bool
    ensures { result ≡ has_group groups.now trunk }
{
    groups.iter().any(|group| group.get() == trunk.get())
}

impl Groups {
    // No trunk groups.
    fn new(alloc: Global) -> Groups
        ensures { result ≡ no_groups }
    {
        Groups {
            keyed: Vec::new(alloc),
            pulsed: Vec::new(alloc),
        }
    }

    // Those that are sent to in the other way.
    fn others(&self, pulsed: bool) -> &[Trunk]
        ensures { result.now ≡ others self.now pulsed }
    {
        if pulsed { &self.keyed } else { &self.pulsed }
    }

    // One trunk group more.
    fn push(&mut self, trunk: Trunk, pulsed: bool) -> Result<(), AllocError>
        ensures { IfOk result (λ _. self.new ≡ with_group self.old trunk pulsed) }
    {
        if pulsed {
            self.pulsed.push(trunk)?;
        } else {
            self.keyed.push(trunk)?;
        }
        Ok(())
    }
}

/// The trunk groups of routes, by the items that these were read of.
pub(crate) fn groups_of(
    alloc: Global,
    entries: &[Entry],
    values: &[Value],
) -> Result<Groups, OutgoingFault>
    ensures ok { IfOk result (λ groups.
        groups_from 1 no_groups (map coded entries.now) (items_view values.now) ≡ Ok groups) }
    ensures refused { IfErr result (λ f. f ≢ NoMemory →
        groups_from 1 no_groups (map coded entries.now) (items_view values.now) ≡ Err f) }
{
    let mut groups = Groups::new(alloc);
    let mut place = 0;
    for value in values {
        if place >= entries.len() {
            return Ok(groups);
        }
        let trunk = entries[place].route.trunk;
        place += 1;
        let Some(pulsed) = send_of(value) else {
            return Err(OutgoingFault::Send(place));
        };
        if has_group(groups.others(pulsed), trunk) {
            return Err(OutgoingFault::Differs(place));
        }
        let Ok(()) = groups.push(trunk, pulsed) else {
            return Err(OutgoingFault::NoMemory);
        };
    }
    Ok(groups)
}
