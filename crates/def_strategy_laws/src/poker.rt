//! Laws of `def_poker`: one-card poker: which cards are left, who wins and what the title says; and that the game has
//! no fault.

ghost use Rattle.def_poker.specs.Cards.{HigherCardWins, OthersRise, TitlesNameCards};
ghost use Rattle.def_poker.specs.Faultless.{PokerHasNoFault};

/// With 2 to 64 cards one-card poker has no fault.
pub fn poker_has_no_fault()
    ensures { PokerHasNoFault }
{}

/// The other cards are all but one, each once, in rising order.
pub fn others_rise()
    ensures { OthersRise }
{}

/// Of two cards the higher one wins.
pub fn higher_card_wins()
    ensures { HigherCardWins }
{}

/// The title says how many cards there are.
pub fn titles_name_cards()
    ensures { TitlesNameCards }
{}
