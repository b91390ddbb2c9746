//! Lists of actions and of payoffs.
use std::test::Fail;
use xg_frac::{Frac, one_over, whole};
use xg_lex::unescape;
use xg_record::{Action, Actions, Payoffs};

/// Whether this action stands at a place.
fn has_action(actions: &Actions, place: usize, name: &[u8], chance: Frac) -> bool {
    if place >= actions.len() {
        return false;
    }
    let action = actions.get(place);
    action.name.bytes() == name && action.chance == chance
}

#[test]
fn actions_keep_their_order(rt: HostRuntime) -> Result<(), Fail> {
    let heads = unescape(rt.alloc(), b"heads")?;
    let tails = unescape(rt.alloc(), b"tails")?;
    let mut actions = Actions::new(rt.alloc());
    assert!(rt; actions.len() == 0);
    actions.push(Action {
        name: heads,
        chance: one_over(2),
    })?;
    actions.push(Action {
        name: tails,
        chance: one_over(3),
    })?;
    assert!(rt;
        actions.len() == 2
            && has_action(&actions, 0, b"heads", one_over(2))
            && has_action(&actions, 1, b"tails", one_over(3))
    );
    Ok(())
}

/// Whether this payoff stands at a place.
fn has_payoff(payoffs: &Payoffs, place: usize, payoff: Frac) -> bool {
    place < payoffs.len() && payoffs.get(place) == payoff
}

#[test]
fn payoffs_keep_their_order(rt: HostRuntime) -> Result<(), Fail> {
    let mut payoffs = Payoffs::new(rt.alloc());
    payoffs.push(one_over(2))?;
    payoffs.push(one_over(4))?;
    assert!(rt;
        payoffs.len() == 2
            && has_payoff(&payoffs, 0, one_over(2))
            && has_payoff(&payoffs, 1, one_over(4))
    );
    payoffs.clear();
    assert!(rt; payoffs.len() == 0);
    payoffs.push(one_over(3))?;
    assert!(rt; payoffs.len() == 1 && has_payoff(&payoffs, 0, one_over(3)));
    assert!(rt; whole(0).is_ok());
    Ok(())
}
