//! Room for a player's half of a round, and for what is tested and evaluated.
ghost use Rattle.std.specs.Prelude.{◌<◌, IfOk};

use def_tree::Player;
use std::alloc::{AllocError, Global};
use xg_plan::Reply;
use xg_seq::SeqForm;

/// Room for a player's leaf sums, the worths of sequences and the parts by which they are played; for the numbers of a
/// plan that is offered; and for the player's best reply.
#[derive(Drop)]
pub(crate) struct Room {
    pub(crate) rows: Vec<i128>,
    pub(crate) small_rows: Vec<i64>,
    pub(crate) worths: Vec<i64>,
    pub(crate) parts: Vec<u64>,
    pub(crate) numbers: Vec<u64>,
    pub(crate) reply: Reply,
}

/// Both players' room, and by how many bits their leaf sums are shifted.
#[derive(Drop)]
pub(crate) struct Rooms {
    pub(crate) shift: u32,
    pub(crate) one: Room,
    pub(crate) two: Room,
}

impl Room {
    ghost use Rattle.xg_search.specs.Rooms.{IsRoomOf};

    fn new(alloc: Global, form: &SeqForm, player: Player) -> Result<Room, AllocError>
        ensures { IfOk result (IsRoomOf form.now player) }
    {
        let count = form.sequence_count(player) as usize;
        Ok(Room {
            rows: vec![in alloc; 0i128; count]?,
            small_rows: vec![in alloc; 0i64; count]?,
            worths: vec![in alloc; 0i64; count]?,
            parts: vec![in alloc; 0u64; count]?,
            numbers: vec![in alloc; 0u64; count]?,
            reply: Reply::new(alloc, form, player)?,
        })
    }
}

impl Rooms {
    ghost use Rattle.xg_search.specs.Rooms.{AreRoomsOf};

    /// Room for a game of this mass.
    pub(crate) fn new(alloc: Global, form: &SeqForm, mass: u64) -> Result<Rooms, AllocError>
        ensures { IfOk result (AreRoomsOf form.now) }
    {
        Ok(Rooms {
            shift: shift_of(mass),
            one: Room::new(alloc, form, Player::One)?,
            two: Room::new(alloc, form, Player::Two)?,
        })
    }
}

// By how many bits a leaf sum of at most the mass times 2^36 is shifted, so that it is at most 2^60.
fn shift_of(mass: u64) -> u32
    ensures { result < 64 }
{
    let bits = 64 - mass.leading_zeros();
    (bits + 36).saturating_sub(60).min(63)
}
