//! What the definitions give: each law is the contract of a function that does nothing.
ghost use Rattle.std.specs.Prelude.{◌≡◌};
ghost use Rattle.xb_office.specs.declared.options.TheConstants.{DEFAULT_RING, DEFAULT_SENDERS};
ghost use Rattle.xb_office.specs.MadeDecks.{MadeDecksSayTheirPage};
ghost use Rattle.xb_office.specs.Usage.{UsageNamesEachOption};

/// The defaults of the options, each as it is.
pub fn defaults()
    ensures senders { DEFAULT_SENDERS ≡ 4 }
    ensures ring { DEFAULT_RING ≡ 64 }
{}

/// The line of refused words names each option of the command.
#[tactic(auto, unfolding(clap::proofs::OnLiterals::clap_on_literals, crate::specs::Usage::has_part))]
pub fn usage_names_each_option()
    ensures { UsageNamesEachOption }
{}

/// A deck that is made of a table and of rows, and is not too long, says the page of both.
#[tactic(auto, using(crate::proofs::MadeDecks::made_decks_say_their_page))]
pub fn made_decks_say_their_page()
    ensures { MadeDecksSayTheirPage }
{}
