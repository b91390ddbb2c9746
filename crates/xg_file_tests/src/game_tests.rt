//! Games of a few entries.
use crate::games::{is_fault, number, text};
use std::alloc::Global;
use std::process::Abort;
use xg_frac::{Frac, one_over};
use xg_game::{FileFault, Game, GameMaker, Kind, Player, Refused};
use xg_lex::{Text, TextView, Token, Tokens};
use xg_record::{
    Action, ActionView, ActionViews, Actions, EntryActions, EntryKind, EntryView, Payoffs, Record,
};
use xg_test_data::nodes::is_same_node;
use xg_tree::Node;

fn actions(
    rt: &impl Abort,
    alloc: Global,
    first: &[u8],
    second: &[u8],
    chance: Frac,
) -> Option<Actions> {
    let mut actions = Actions::new(alloc);
    let name = text(rt, alloc, first);
    actions.push(Action { name, chance }).expect(rt, "memory");
    let name = text(rt, alloc, second);
    actions.push(Action { name, chance }).expect(rt, "memory");
    Some(actions)
}

fn payoffs(rt: &impl Abort, alloc: Global, one: Frac, two: Frac) -> Option<Payoffs> {
    let mut payoffs = Payoffs::new(alloc);
    payoffs.push(one).expect(rt, "memory");
    payoffs.push(two).expect(rt, "memory");
    Some(payoffs)
}

/// An entry that mentions the null outcome.
fn entry(
    kind: EntryKind,
    name: Text,
    player: u64,
    set: u64,
    set_name: Option<Text>,
    actions: Option<Actions>,
) -> Record {
    Record {
        kind,
        name,
        player,
        set,
        set_name,
        actions,
        outcome: 0,
        outcome_name: None,
        payoffs: None,
    }
}

/// Player one's set 5, with actions.
fn root(rt: &impl Abort, alloc: Global) -> Record {
    let given = actions(rt, alloc, b"\"left\"", b"\"right\"", number(rt, 0));
    let name = text(rt, alloc, b"\"root\"");
    entry(EntryKind::Personal, name, 1, 5, None, given)
}

/// A set of a player, with no actions.
fn personal(rt: &impl Abort, alloc: Global, player: u64, set: u64) -> Record {
    entry(
        EntryKind::Personal,
        text(rt, alloc, b"\"\""),
        player,
        set,
        None,
        None,
    )
}

/// Chance's set 9, with its actions and the outcome 3.
fn coin(rt: &impl Abort, alloc: Global) -> Record {
    let half = one_over(2);
    let sides = actions(rt, alloc, b"\"heads\"", b"\"tails\"", half);
    let paid = payoffs(rt, alloc, half, number(rt, -2));
    Record {
        kind: EntryKind::Chance,
        name: text(rt, alloc, b"\"\""),
        player: 0,
        set: 9,
        set_name: None,
        actions: sides,
        outcome: 3,
        outcome_name: None,
        payoffs: paid,
    }
}

/// The same set with its name.
fn named_coin(rt: &impl Abort, alloc: Global) -> Record {
    let name = text(rt, alloc, b"\"again\"");
    entry(
        EntryKind::Chance,
        name,
        0,
        9,
        Some(text(rt, alloc, b"\"coin\"")),
        None,
    )
}

fn leaf(
    rt: &impl Abort,
    alloc: Global,
    outcome: u64,
    outcome_name: Option<Text>,
    payoffs: Option<Payoffs>,
) -> Record {
    Record {
        kind: EntryKind::Leaf,
        name: text(rt, alloc, b"\"end\""),
        player: 0,
        set: 0,
        set_name: None,
        actions: None,
        outcome,
        outcome_name,
        payoffs,
    }
}

/// The outcome 7, with its name and payoffs.
fn won(rt: &impl Abort, alloc: Global) -> Record {
    let paid = payoffs(rt, alloc, number(rt, 1), number(rt, -1));
    leaf(rt, alloc, 7, Some(text(rt, alloc, b"\"won\"")), paid)
}

fn maker(rt: &impl Abort, alloc: Global) -> GameMaker {
    let one = text(rt, alloc, b"\"Ann\"");
    let two = text(rt, alloc, b"\"Bob\"");
    let comment = text(rt, alloc, b"\"a comment\"");
    GameMaker::new(alloc, text(rt, alloc, b"\"coins\""), one, two, comment)
}

/// Pushes an entry where one is wanted.
fn push(rt: &impl Abort, maker: &mut GameMaker, entry: Record) -> Result<(), Refused> {
    assert!(rt; !maker.is_complete());
    assert!(rt; !maker.is_spent());
    assert!(rt; entry.outcome <= 1 << 62);
    assert!(rt; entry.set >= 1 && entry.set <= 1 << 62 || entry.kind == EntryKind::Leaf);
    maker.push(entry)
}

fn takes(rt: &impl Abort, maker: &mut GameMaker, entry: Record) {
    assert!(rt; push(rt, maker, entry).is_ok());
}

/// Pushes an entry that has this fault, and sees that the maker goes on.
fn refuses(rt: &impl Abort, maker: &mut GameMaker, entry: Record, fault: FileFault) {
    assert!(rt;
        is_fault(push(rt, maker, entry).err(), fault) && !maker.is_spent() && !maker.is_complete()
    );
}

fn finished(rt: &impl Abort, maker: GameMaker) -> Game {
    assert!(rt; maker.is_complete());
    assert!(rt; !maker.is_spent());
    maker.finish()
}

fn small_game(rt: &impl Abort, alloc: Global) -> Game {
    let mut maker = maker(rt, alloc);
    takes(rt, &mut maker, root(rt, alloc));
    takes(rt, &mut maker, coin(rt, alloc));
    takes(rt, &mut maker, won(rt, alloc));
    takes(rt, &mut maker, leaf(rt, alloc, 0, None, None));
    takes(rt, &mut maker, named_coin(rt, alloc));
    takes(rt, &mut maker, leaf(rt, alloc, 7, None, None));
    let late = Some(text(rt, alloc, b"\"late\""));
    takes(rt, &mut maker, leaf(rt, alloc, 3, late, None));
    finished(rt, maker)
}

fn has_texts(game: &Game) -> bool {
    game.title() == b"coins".as_slice()
        && game.player_name(Player::One) == b"Ann".as_slice()
        && game.player_name(Player::Two) == b"Bob".as_slice()
        && game.comment() == b"a comment".as_slice()
}

fn has_node(game: &Game, k: u32, name: &[u8], node: Node) -> bool {
    k >= 1
        && k <= game.tree().len()
        && game.node_name(k) == name
        && is_same_node(game.tree().node(k), node)
}

fn node(kind: Kind, set: u32, outcome: u32, children: u32) -> Node {
    Node {
        kind,
        set,
        outcome,
        children,
    }
}

fn has_nodes(game: &Game) -> bool {
    has_node(game, 1, b"root", node(Kind::One, 1, 0, 2))
        && has_node(game, 2, b"", node(Kind::Chance, 1, 1, 2))
        && has_node(game, 3, b"end", node(Kind::Leaf, 0, 2, 0))
        && has_node(game, 4, b"end", node(Kind::Leaf, 0, 0, 0))
        && has_node(game, 5, b"again", node(Kind::Chance, 1, 0, 2))
        && has_node(game, 6, b"end", node(Kind::Leaf, 0, 2, 0))
        && has_node(game, 7, b"end", node(Kind::Leaf, 0, 1, 0))
}

fn is_named(name: Option<&[u8]>, expected: &[u8]) -> bool {
    match name {
        Some(bytes) => bytes == expected,
        None => false,
    }
}

fn has_player_set(game: &Game) -> bool {
    game.set_count(Kind::One) == 1
        && game.set_count(Kind::Two) == 0
        && game.set_number(Kind::One, 1) == 5
        && game.set_name(Kind::One, 1).is_none()
        && game.action_count(Kind::One, 1) == 2
        && game.action_name(Kind::One, 1, 2) == b"right".as_slice()
}

fn has_coin(game: &Game) -> bool {
    game.set_count(Kind::Chance) == 1
        && game.set_number(Kind::Chance, 1) == 9
        && is_named(game.set_name(Kind::Chance, 1), b"coin")
        && game.action_count(Kind::Chance, 1) == 2
        && game.action_name(Kind::Chance, 1, 1) == b"heads".as_slice()
        && game.chance(1, 2) == one_over(2)
}

fn has_outcomes(rt: &impl Abort, game: &Game) -> bool {
    game.outcome_count() == 2
        && game.outcome_number(1) == 3
        && is_named(game.outcome_name(1), b"late")
        && is_named(game.outcome_name(2), b"won")
        && game.payoff(0, Player::One) == number(rt, 0)
        && game.payoff(1, Player::One) == one_over(2)
        && game.payoff(1, Player::Two) == number(rt, -2)
        && game.payoff(2, Player::Two) == number(rt, -1)
}

#[test]
fn seven_entries_make_a_game(rt: HostRuntime) {
    let game = small_game(&rt, rt.alloc());
    assert!(rt; game.tree().len() == 7);
    assert!(rt; has_texts(&game));
    assert!(rt; has_nodes(&game));
    assert!(rt; has_player_set(&game));
    assert!(rt; has_coin(&game));
    assert!(rt; has_outcomes(&rt, &game));
    drop(game);
}

/// The root's set with other actions.
fn other_root(rt: &impl Abort, alloc: Global) -> Record {
    let mut other = root(rt, alloc);
    other.actions = actions(rt, alloc, b"\"left\"", b"\"up\"", number(rt, 0));
    other
}

/// A new set that has no action.
fn empty(rt: &impl Abort, alloc: Global) -> Record {
    let none = Some(Actions::new(alloc));
    entry(
        EntryKind::Chance,
        text(rt, alloc, b"\"\""),
        0,
        1,
        None,
        none,
    )
}

/// Pushes entries of sets, each with a fault, and then two leaves.
fn refuse_sets(rt: &impl Abort, alloc: Global, maker: &mut GameMaker) {
    let player = personal(rt, alloc, 3, 5);
    refuses(rt, maker, player, FileFault::PlayerNumber { node: 2 });
    let undefined = personal(rt, alloc, 2, 5);
    refuses(rt, maker, undefined, FileFault::SetUndefined { node: 2 });
    let other = other_root(rt, alloc);
    refuses(rt, maker, other, FileFault::SetMismatch { node: 2 });
    refuses(
        rt,
        maker,
        empty(rt, alloc),
        FileFault::ActionCount { node: 2 },
    );
    takes(rt, maker, leaf(rt, alloc, 0, None, None));
    takes(rt, maker, leaf(rt, alloc, 0, None, None));
}

#[test]
fn a_fault_of_a_set_leaves_the_maker_as_it_was(rt: HostRuntime) {
    let alloc = rt.alloc();
    let mut maker = maker(&rt, alloc);
    takes(&rt, &mut maker, root(&rt, alloc));
    refuse_sets(&rt, alloc, &mut maker);
    let game = finished(&rt, maker);
    assert!(rt; game.tree().len() == 3 && game.set_count(Kind::Two) == 0);
    drop(game);
}

/// Pushes entries of outcomes, each with a fault, and then two leaves.
fn refuse_outcomes(rt: &impl Abort, alloc: Global, maker: &mut GameMaker) {
    let undefined = leaf(rt, alloc, 4, None, None);
    refuses(
        rt,
        maker,
        undefined,
        FileFault::OutcomeUndefined { node: 2 },
    );
    let ones = payoffs(rt, alloc, one_over(1), one_over(1));
    let paid = leaf(rt, alloc, 0, None, ones);
    refuses(rt, maker, paid, FileFault::OutcomeMismatch { node: 2 });
    let unpaid = leaf(rt, alloc, 4, None, Some(Payoffs::new(alloc)));
    refuses(rt, maker, unpaid, FileFault::PayoffCount { node: 2 });
    takes(rt, maker, leaf(rt, alloc, 0, None, None));
    takes(rt, maker, leaf(rt, alloc, 0, None, None));
}

#[test]
fn a_fault_of_an_outcome_leaves_the_maker_as_it_was(rt: HostRuntime) {
    let alloc = rt.alloc();
    let mut maker = maker(&rt, alloc);
    takes(&rt, &mut maker, root(&rt, alloc));
    refuse_outcomes(&rt, alloc, &mut maker);
    let game = finished(&rt, maker);
    assert!(rt; game.outcome_count() == 0);
    drop(game);
}

/// The text of a file that is one text token, where it stands.
fn seen<'a>(rt: &impl Abort, file: &'a [u8]) -> TextView<'a> {
    let token = Tokens::new(file).next().ok().expect(rt, "a token");
    assert!(rt; token.kind == Token::Text);
    TextView::of(&file[token.start + 1..token.end - 1])
}

/// Chance's set 4, by views.
fn seen_coin<'a>(
    rt: &impl Abort,
    set_name: &'a [u8],
    actions: &'a ActionViews<'a>,
) -> EntryView<'a> {
    EntryView {
        file: b"",
        kind: EntryKind::Chance,
        name: seen(rt, b"\"\""),
        player: 0,
        set: 4,
        set_name: Some(seen(rt, set_name)),
        actions: Some(EntryActions::Viewed(actions)),
        outcome: 0,
        outcome_name: None,
        payoffs: None,
    }
}

/// The same set, with texts that are kept.
fn kept_coin(rt: &impl Abort, alloc: Global, set_name: &[u8], action: &[u8]) -> Record {
    let mut actions = Actions::new(alloc);
    let name = text(rt, alloc, action);
    let chance = number(rt, 1);
    actions.push(Action { name, chance }).expect(rt, "memory");
    let set_name = Some(text(rt, alloc, set_name));
    let name = text(rt, alloc, b"\"\"");
    entry(EntryKind::Chance, name, 0, 4, set_name, Some(actions))
}

/// Pushes an entry by views where one is wanted.
fn push_seen(rt: &impl Abort, maker: &mut GameMaker, entry: &EntryView<'_>) -> Result<(), Refused> {
    assert!(rt; !maker.is_complete());
    assert!(rt; !maker.is_spent());
    assert!(rt; entry.outcome <= 1 << 62);
    assert!(rt; entry.set >= 1 && entry.set <= 1 << 62);
    maker.push_entry(entry)
}

/// Mentions chance's set 4 by views.
fn mention(
    rt: &impl Abort,
    maker: &mut GameMaker,
    set_name: &[u8],
    actions: &ActionViews<'_>,
) -> Result<(), Refused> {
    let entry = seen_coin(rt, set_name, actions);
    push_seen(rt, maker, &entry)
}

fn has_quoted_names(game: &Game) -> bool {
    game.set_count(Kind::Chance) == 1
        && is_named(game.set_name(Kind::Chance, 1), b"a \"fair\" coin")
        && game.action_count(Kind::Chance, 1) == 1
        && game.action_name(Kind::Chance, 1, 1) == b"its \"edge\"".as_slice()
}

const FAIR: &[u8] = b"\"a \\\"fair\\\" coin\"";

const CENT: &[u8] = b"\"a \\\"fair\\\" cent\"";

const EDGE: &[u8] = b"\"its \\\"edge\\\"\"";

/// Pushes chance's set 4 by views and by texts that are kept, and each of its names changed.
fn mention_in_turn(
    rt: &impl Abort,
    alloc: Global,
    maker: &mut GameMaker,
    actions: &ActionViews<'_>,
) {
    let fault = FileFault::SetMismatch { node: 3 };
    assert!(rt; mention(rt, maker, FAIR, actions).is_ok());
    takes(rt, maker, kept_coin(rt, alloc, FAIR, EDGE));
    assert!(rt; is_fault(mention(rt, maker, CENT, actions).err(), fault));
    let other = kept_coin(rt, alloc, FAIR, b"\"its edge\"");
    refuses(rt, maker, other, fault);
    takes(rt, maker, leaf(rt, alloc, 0, None, None));
}

#[test]
fn names_with_quotation_marks_are_kept_and_compared(rt: HostRuntime) {
    let alloc = rt.alloc();
    let mut actions = ActionViews::new(alloc);
    let name = seen(&rt, EDGE);
    let chance = number(&rt, 1);
    actions
        .push(ActionView { name, chance })
        .expect(&rt, "memory");
    let mut maker = maker(&rt, alloc);
    mention_in_turn(&rt, alloc, &mut maker, &actions);
    let game = finished(&rt, maker);
    assert!(rt; has_quoted_names(&game));
    drop(game);
}
