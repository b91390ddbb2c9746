//! The bracket of offers in matching pennies.
ghost use Rattle.std.specs.Prelude.{◌≡◌, ◌+◌, ◌-◌, ◌<◌, ◌≤◌, [], ◌∷◌, IfOk, OnOk, length};
ghost use Rattle.def_sums.specs.Limits.{most_scale};
ghost use Rattle.def_plan.specs.Form.{player_sets};
ghost use Rattle.def_plan.specs.Pennies.{one_set, pennies};
ghost use Rattle.def_plus.specs.declared.Variant.TheVariants.{Plain, Plus};
ghost use Rattle.def_round.specs.Play.{plan_of_play};
ghost use Rattle.xg_bracket.specs.Board.{MayBeOffered, last_round, offer_of, sizes_of};

use crate::made::build_form;
use std::alloc::{AllocError, Global};
use std::process::Abort;
use std::test::Fail;
use xg_bracket::{Board, TraceLine, Variant};
use xg_plan::{Plan, Play, Player, Reply, from_play};
use xg_seq::SeqForm;
use xg_test_data::is_same_trace;
use xg_test_data::nodes::{PENNIES, PENNIES_WEIGHTS};

/// Both players' plans after a round, of one root, by the units of their first actions, and the best reply to each by
/// its choice and its total.
struct Dealt {
    round: u32,
    root: u64,
    one: u32,
    two: u32,
    against_one: (u32, i128),
    against_two: (u32, i128),
}

/// The players' second actions.
const FIRST: Dealt = Dealt {
    round: 1,
    root: 1,
    one: 0,
    two: 0,
    against_one: (1, -1),
    against_two: (2, 1),
};

/// Player two chose the first action in round 2.
const SECOND: Dealt = Dealt {
    round: 2,
    root: 2,
    one: 0,
    two: 32_768,
    against_one: (1, -2),
    against_two: (1, 0),
};

/// The rounds weigh 1 + 2 + 3, and player one chose the first action in round 1.
const THIRD: Dealt = Dealt {
    round: 3,
    root: 6,
    one: 10_923,
    two: 0,
    against_one: (1, -4),
    against_two: (2, 6),
};

/// The rounds weigh 36 together, the first actions 6 and 3.
const EIGHTH: Dealt = Dealt {
    round: 8,
    root: 36,
    one: 10_923,
    two: 5_462,
    against_one: (1, -24),
    against_two: (2, 30),
};

pub(crate) fn pennies(rt: &impl Abort, alloc: Global) -> Result<SeqForm, Fail>
    ensures { IfOk result (λ form. form ≡ pennies) }
{
    build_form(rt, alloc, &PENNIES, &PENNIES_WEIGHTS)
}

// The plan that one set's play deals, which gives so many units to the first action.
pub(crate) fn plan_of(
    alloc: Global,
    form: &SeqForm,
    player: Player,
    first: u32,
    root: u64,
) -> Result<Plan, AllocError>
    requires set { player_sets form.now player ≡ one_set }
    requires units { first ≤ 65536 }
    requires from_one { 1 ≤ root }
    requires limit { root ≤ most_scale }
    ensures { IfOk result (λ plan. plan ≡ plan_of_play one_set (0 ∷ first ∷ (65536 - first) ∷ []) root) }
{
    let mut play = Play::new(alloc, form, player)?;
    play.set(1, first);
    play.set(2, 65536 - first);
    let mut plan = Plan::new(alloc, form, player)?;
    from_play(form, player, &play, root, &mut plan);
    Ok(plan)
}

fn reply_of(
    alloc: Global,
    form: &SeqForm,
    player: Player,
    shown: (u32, i128),
) -> Result<Reply, AllocError>
    requires { player_sets form.now player ≡ one_set }
    ensures { IfOk result (λ reply. reply.reply
        ≡ record { total = shown.1; sets = record { value = shown.1; choice = shown.0 } ∷ [] }) }
{
    let mut reply = Reply::new(alloc, form, player)?;
    reply.put(1, shown.0, shown.1);
    reply.put_total(shown.1);
    Ok(reply)
}

/// Offers these plans.
fn offer(alloc: Global, form: &SeqForm, board: &mut Board, dealt: &Dealt) -> Result<(), AllocError>
    requires form { form.now ≡ pennies }
    requires one { dealt.now.one ≤ 65536 }
    requires two { dealt.now.two ≤ 65536 }
    requires from_one { 1 ≤ dealt.now.root }
    requires limit { dealt.now.root ≤ most_scale }
    requires room { length board.old.board.trace < board.old.capacity }
    requires fair { MayBeOffered board.old
        (offer_of board.old.variant dealt.now.round
        (plan_of_play one_set (0 ∷ dealt.now.one ∷ (65536 - dealt.now.one) ∷ []) dealt.now.root)
        (plan_of_play one_set (0 ∷ dealt.now.two ∷ (65536 - dealt.now.two) ∷ []) dealt.now.root)
        (record {
          total = dealt.now.against_one.1;
          sets = record { value = dealt.now.against_one.1; choice = dealt.now.against_one.0 } ∷ [];
        })
        (record {
          total = dealt.now.against_two.1;
          sets = record { value = dealt.now.against_two.1; choice = dealt.now.against_two.0 } ∷ [];
        })) }
    ensures count { OnOk result (length board.new.board.trace ≡ length board.old.board.trace + 1) }
    ensures round { OnOk result (last_round board.new.board.trace ≡ dealt.now.round) }
    ensures capacity { OnOk result (board.new.capacity ≡ board.old.capacity) }
    ensures sizes { OnOk result (board.new.sizes ≡ board.old.sizes) }
    ensures variant { OnOk result (board.new.variant ≡ board.old.variant) }
{
    let one = plan_of(alloc, form, Player::One, dealt.one, dealt.root)?;
    let two = plan_of(alloc, form, Player::Two, dealt.two, dealt.root)?;
    let against_one = reply_of(alloc, form, Player::Two, dealt.against_one)?;
    let against_two = reply_of(alloc, form, Player::One, dealt.against_two)?;
    board.offer(dealt.round, &one, &two, &against_one, &against_two);
    Ok(())
}

fn offer_plain(alloc: Global, form: &SeqForm, board: &mut Board) -> Result<(), AllocError>
    requires form { form.now ≡ pennies }
    requires trace { board.old.board.trace ≡ [] }
    requires capacity { board.old.capacity ≡ 2 }
    requires sizes { board.old.sizes ≡ sizes_of pennies }
    requires variant { board.old.variant ≡ Plain }
{
    offer(alloc, form, board, &FIRST)?;
    offer(alloc, form, board, &SECOND)
}

fn offer_plus(alloc: Global, form: &SeqForm, board: &mut Board) -> Result<(), AllocError>
    requires form { form.now ≡ pennies }
    requires trace { board.old.board.trace ≡ [] }
    requires capacity { board.old.capacity ≡ 3 }
    requires sizes { board.old.sizes ≡ sizes_of pennies }
    requires variant { board.old.variant ≡ Plus }
{
    offer(alloc, form, board, &FIRST)?;
    offer(alloc, form, board, &THIRD)?;
    offer(alloc, form, board, &EIGHTH)
}

fn ends_with(rt: &impl Abort, end: Option<(&Plan, &Reply)>, weights: &[u64], total: i128) {
    let (plan, reply) = end.expect(rt, "an end");
    assert!(rt; plan.weights() == weights && reply.total() == total);
}

fn has_ends(board: &Board) -> bool {
    board.lower().is_some() || board.upper().is_some()
}

static PLAIN_TRACE: [TraceLine; 2] = [
    TraceLine {
        round: 1,
        low_round: 1,
        low: -1,
        high_round: 1,
        high: 1,
    },
    TraceLine {
        round: 2,
        low_round: 1,
        low: -1,
        high_round: 2,
        high: 0,
    },
];

fn assert_plain(
    rt: &impl Abort,
    alloc: Global,
    form: &SeqForm,
    board: &mut Board,
) -> Result<(), AllocError>
    requires form { form.now ≡ pennies }
    requires trace { board.old.board.trace ≡ [] }
    requires capacity { board.old.capacity ≡ 2 }
    requires sizes { board.old.sizes ≡ sizes_of pennies }
    requires variant { board.old.variant ≡ Plain }
{
    assert!(rt; !has_ends(board));
    offer_plain(alloc, form, board)?;
    assert!(rt; is_same_trace(board.trace(), PLAIN_TRACE.as_slice()));
    ends_with(rt, board.lower(), &[1, 0, 1], -1);
    ends_with(rt, board.upper(), &[2, 1, 1], 0);
    Ok(())
}

fn offer_to_plain_board(rt: &impl Abort, alloc: Global, form: &SeqForm) -> Result<(), AllocError>
    requires { form.now ≡ pennies }
{
    let mut board = Board::new(alloc, form, 2)?;
    let asserted = assert_plain(rt, alloc, form, &mut board);
    drop(board);
    asserted
}

// Player one's floors are -1 and -2 over 2, and the first is kept; player two's ceilings are 1 and 0.
#[test]
fn keeps_ends_of_different_rounds(rt: HostRuntime) -> Result<(), Fail> {
    let form = pennies(&rt, rt.alloc())?;
    let asserted = offer_to_plain_board(&rt, rt.alloc(), &form);
    drop(form);
    Ok(asserted?)
}

static PLUS_TRACE: [TraceLine; 3] = [
    TraceLine {
        round: 1,
        low_round: 1,
        low: -1,
        high_round: 1,
        high: 1,
    },
    TraceLine {
        round: 3,
        low_round: 3,
        low: -4,
        high_round: 1,
        high: 1,
    },
    TraceLine {
        round: 8,
        low_round: 3,
        low: -4,
        high_round: 8,
        high: 30,
    },
];

fn assert_plus(
    rt: &impl Abort,
    alloc: Global,
    form: &SeqForm,
    board: &mut Board,
) -> Result<(), AllocError>
    requires form { form.now ≡ pennies }
    requires trace { board.old.board.trace ≡ [] }
    requires capacity { board.old.capacity ≡ 3 }
    requires sizes { board.old.sizes ≡ sizes_of pennies }
    requires variant { board.old.variant ≡ Plus }
{
    assert!(rt; !has_ends(board));
    offer_plus(alloc, form, board)?;
    assert!(rt; is_same_trace(board.trace(), PLUS_TRACE.as_slice()));
    ends_with(rt, board.lower(), &[6, 1, 5], -4);
    ends_with(rt, board.upper(), &[36, 3, 33], 30);
    Ok(())
}

fn offer_to_plus_board(rt: &impl Abort, alloc: Global, form: &SeqForm) -> Result<(), AllocError>
    requires { form.now ≡ pennies }
{
    let mut board = Board::of_variant(alloc, form, 3, Variant::Plus)?;
    let asserted = assert_plus(rt, alloc, form, &mut board);
    drop(board);
    asserted
}

// Player one's floors are -1, -4 over 6 and -24 over 36, player two's ceilings 1, 6 over 6 and 30 over 36: an end gives
// way to a better one and not to an equal one. Over the numbers of the rounds the first ones would be the best.
#[test]
fn compares_ends_by_what_rounds_weigh(rt: HostRuntime) -> Result<(), Fail> {
    let form = pennies(&rt, rt.alloc())?;
    let asserted = offer_to_plus_board(&rt, rt.alloc(), &form);
    drop(form);
    Ok(asserted?)
}
