//! A player's numbers in a lane.
ghost use Rattle.std.specs.Prelude.{◌≡◌, IfOk, length};
ghost use Rattle.def_plan.specs.Form.{player_sets, sequence_count};

use crate::dealing::deal_plan;
use crate::places::place_at;
use crate::units::deal_evenly;
use crate::weights::Weights;
use def_tree::Player;
use std::alloc::{AllocError, Global};
use xg_seq::SeqForm;

/// A player's regrets, the play and the plan of the newest round, and the weighted sum of the plans.
#[derive(Drop)]
pub(crate) struct Seat {
    pub(crate) regrets: Vec<i64>,
    pub(crate) play: Vec<u32>,
    pub(crate) plan: Weights,
    pub(crate) sums: Vec<u128>,
}

impl Seat {
    ghost use Rattle.xg_search.specs.Rooms.{IsSeatOf};

    /// A player without regrets, who plays evenly at each set.
    pub(crate) fn new(alloc: Global, form: &SeqForm, player: Player) -> Result<Seat, AllocError>
        ensures { IfOk result (IsSeatOf (player_sets form.now player)) }
    {
        let mut seat = Seat::with_room(alloc, form, player)?;
        play_evenly(form, player, &mut seat.play);
        deal_plan(form, player, &seat.play, &mut seat.plan);
        Ok(seat)
    }

    fn with_room(alloc: Global, form: &SeqForm, player: Player) -> Result<Seat, AllocError>
        ensures { IfOk result (IsSeatOf (player_sets form.now player)) }
    {
        let count = form.sequence_count(player) as usize;
        Ok(Seat {
            regrets: vec![in alloc; 0i64; count]?,
            play: vec![in alloc; 0u32; count]?,
            plan: Weights::new(alloc, count)?,
            sums: vec![in alloc; 0u128; count]?,
        })
    }
}

fn play_evenly(form: &SeqForm, player: Player, play: &mut [u32])
    requires { length play.old ≡ sequence_count (player_sets form.now player) }
{
    let places = form.places(player);
    for set in 0..places.len() {
        let place = place_at(form, player, places, set);
        let first = place.first as usize;
        let end = first + place.actions as usize;
        deal_evenly(&mut play[first..end]);
    }
}
