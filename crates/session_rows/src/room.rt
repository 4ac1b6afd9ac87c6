//! Whether a change fits into the data area.
ghost use Rattle.std.specs.Prelude.{◌≡◌};
ghost use Rattle.session_rows.specs.Replies.{is_enough_room, full_refusal};

use mdb_model::script::Refusal;

/// How the space rule answers a line that changes a row.
#[derive(Clone, Copy, Debug, PartialEq, Eq)]
pub enum Room {
    /// The blocks suffice.
    Enough,
    /// So many blocks are needed, the reserve included, and there are only these.
    Full { want: u64, blocks: u64 },
}

impl Room {
    /// Whether the blocks suffice.
    pub(crate) fn suffices(self) -> bool
        ensures { result ≡ is_enough_room self }
    {
        match self {
            Room::Enough => true,
            Room::Full { .. } => false,
        }
    }

    /// The refusal of a change that does not fit. One that fits is not refused so.
    pub(crate) fn refusal(self) -> Refusal
        ensures { result ≡ full_refusal self }
    {
        match self {
            Room::Enough => Refusal::DataFull { want: 0, blocks: 0 },
            Room::Full { want, blocks } => Refusal::DataFull { want, blocks },
        }
    }
}
