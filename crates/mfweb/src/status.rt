// The statuses of the calls that the other libraries do not have. Their numbers go on after those of `mfchain.h`.

/// There is too little room.
pub(crate) const NO_ROOM: u32 = 7;

/// The digits begin with no code of the table.
pub(crate) const NO_CODE: u32 = 27;

/// It is no ear that was begun: its window is full.
pub(crate) const NO_EAR: u32 = 28;
