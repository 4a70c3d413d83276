// Why entries are not printed, and why a run ends before its deck.
ghost use Rattle.std.specs.Prelude.{◌≡◌};

use std::alloc::AllocError;
use std::fmt;
use thiserror::Error;
use xb_clock::LAST_TIME;
use xb_deck::TableFault;
use xb_model::RowFault;
use xb_routes::RouteFault;
use xb_sound::CadenceFault;
use xb_text::WriteFault;
use xb_trunk::TrunkFault;

/// Why entries are not printed.
#[derive(Clone, Copy, Debug, PartialEq, Eq, Error)]
pub enum EntriesFault {
    /// Memory ran out. Nothing was written of the row.
    NoMemory,
    /// A time of this entry of this line is past the last that there is, 9999-12-30T22:00:00.999999999Z. Nothing was
    /// written of its row.
    Late(u16, usize),
    /// The time of an event of this line is past that last one. Nothing was written of its row.
    LateEvent(u16),
    /// A write or the flush failed, or a write took no byte. The beginning of what the row tells was written.
    Write,
}

impl fmt::Display for EntriesFault {
    ghost use Rattle.std.specs.Prelude.{Some};
    ghost use Rattle.xb_live.specs.FaultTexts.{entries_text};

    ghost output = { λ fault. Some (entries_text fault) };

    fn fmt<W: fmt::Write>(&self, f: &mut fmt::Formatter<W>) -> fmt::Result {
        match self {
            EntriesFault::NoMemory => f.write_str("out of memory"),
            EntriesFault::Late(line, entry) => write!(
                f,
                "line {line}, entry {entry}: a time is past {LAST_TIME}"
            ),
            EntriesFault::LateEvent(line) => write!(
                f,
                "line {line}, an event: its time is past {LAST_TIME}"
            ),
            EntriesFault::Write => f.write_str("the entries could not be written"),
        }
    }
}

impl From<AllocError> for EntriesFault {
    ghost use Rattle.xb_live.specs.declared.fault.EntriesFault.TheVariants.{NoMemory};

    ghost from_gives = { λ _ e. e ≡ NoMemory };

    fn from(_error: AllocError) -> EntriesFault {
        EntriesFault::NoMemory
    }
}

impl From<WriteFault> for EntriesFault {
    ghost use Rattle.xb_live.specs.declared.fault.EntriesFault.TheVariants.{Write};

    ghost from_gives = { λ _ e. e ≡ Write };

    fn from(_fault: WriteFault) -> EntriesFault {
        EntriesFault::Write
    }
}

/// Why a run ends before its deck. What was written before stands.
#[derive(Clone, Copy, Debug, PartialEq, Eq, Error)]
pub enum LiveFault {
    /// The cadence of the sound is refused. The deck was not read.
    Cadence(CadenceFault),
    /// The deck gives no text of a route table; or later too a read failed, or memory ran out.
    Deck(TableFault),
    /// The route table is refused.
    Routes(RouteFault),
    /// The loop rows are refused.
    Rows(RowFault),
    /// There are more rows than can be counted: more than 2^63.
    TooMany,
    /// Entries were not printed.
    Entries(EntriesFault),
    /// Samples were not written.
    Sound(TrunkFault),
}

impl fmt::Display for LiveFault {
    ghost use Rattle.std.specs.Prelude.{Some};
    ghost use Rattle.xb_live.specs.FaultTexts.{live_text};

    ghost output = { λ fault. Some (live_text fault) };

    fn fmt<W: fmt::Write>(&self, f: &mut fmt::Formatter<W>) -> fmt::Result {
        match self {
            LiveFault::Cadence(fault) => write!(f, "cadence: {fault}"),
            LiveFault::Deck(fault) => write!(f, "{fault}"),
            LiveFault::Routes(fault) => write!(f, "route table: {fault}"),
            LiveFault::Rows(fault) => write!(f, "loop rows: {fault}"),
            LiveFault::TooMany => f.write_str("more than 9223372036854775808 records"),
            LiveFault::Entries(fault) => write!(f, "{fault}"),
            LiveFault::Sound(fault) => write!(f, "{fault}"),
        }
    }
}

/// Why it is not told how many keyings were given up.
#[derive(Clone, Copy, Debug, PartialEq, Eq, Error)]
pub(crate) enum NoteFault {
    /// A write or the flush failed, or a write took no byte.
    Write,
    /// Memory ran out.
    NoMemory,
}

impl fmt::Display for NoteFault {
    ghost use Rattle.std.specs.Prelude.{Some};
    ghost use Rattle.xb_live.specs.FaultTexts.{note_text};

    ghost output = { λ fault. Some (note_text fault) };

    fn fmt<W: fmt::Write>(&self, f: &mut fmt::Formatter<W>) -> fmt::Result {
        match self {
            NoteFault::Write => f.write_str("how many keyings were given up could not be told"),
            NoteFault::NoMemory => f.write_str("out of memory"),
        }
    }
}

impl From<CadenceFault> for LiveFault {
    ghost use Rattle.xb_live.specs.declared.fault.LiveFault.TheVariants.{Cadence};

    ghost from_gives = { λ fault e. e ≡ Cadence fault };

    fn from(fault: CadenceFault) -> LiveFault {
        LiveFault::Cadence(fault)
    }
}

impl From<TrunkFault> for LiveFault {
    ghost use Rattle.xb_live.specs.declared.fault.LiveFault.TheVariants.{Sound};

    ghost from_gives = { λ fault e. e ≡ Sound fault };

    fn from(fault: TrunkFault) -> LiveFault {
        LiveFault::Sound(fault)
    }
}

impl From<TableFault> for LiveFault {
    ghost use Rattle.xb_live.specs.declared.fault.LiveFault.TheVariants.{Deck};

    ghost from_gives = { λ fault e. e ≡ Deck fault };

    fn from(fault: TableFault) -> LiveFault {
        LiveFault::Deck(fault)
    }
}

impl From<RouteFault> for LiveFault {
    ghost use Rattle.xb_live.specs.Faults.{IsOfRoutes};

    ghost from_gives = { IsOfRoutes };

    fn from(fault: RouteFault) -> LiveFault {
        match fault {
            RouteFault::NoMemory => LiveFault::Deck(TableFault::NoMemory),
            fault => LiveFault::Routes(fault),
        }
    }
}

impl From<RowFault> for LiveFault {
    ghost use Rattle.xb_live.specs.Faults.{IsOfRows};

    ghost from_gives = { IsOfRows };

    fn from(fault: RowFault) -> LiveFault {
        match fault {
            RowFault::NoMemory => LiveFault::Deck(TableFault::NoMemory),
            RowFault::Read => LiveFault::Deck(TableFault::Read),
            fault => LiveFault::Rows(fault),
        }
    }
}

impl From<EntriesFault> for LiveFault {
    ghost use Rattle.xb_live.specs.declared.fault.LiveFault.TheVariants.{Entries};

    ghost from_gives = { λ fault e. e ≡ Entries fault };

    fn from(fault: EntriesFault) -> LiveFault {
        LiveFault::Entries(fault)
    }
}

impl From<AllocError> for LiveFault {
    ghost use Rattle.xb_deck.specs.declared.table.TableFault.TheVariants.{NoMemory};
    ghost use Rattle.xb_live.specs.declared.fault.LiveFault.TheVariants.{Deck};

    ghost from_gives = { λ _ e. e ≡ Deck NoMemory };

    fn from(_error: AllocError) -> LiveFault {
        LiveFault::Deck(TableFault::NoMemory)
    }
}
