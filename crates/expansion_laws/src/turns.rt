//! The turns of an expansion.

ghost use Rattle.expansion_laws.specs.Turns.{ExpandsInFull, MoreTurns, EndsWithNothing, TakesTheFirst, ExpandsTheList};

/// No turn is wanting: a list that is given more of them is replaced alike.
pub fn further_turns_change_nothing()
    ensures { MoreTurns }
{}

/// So an expansion is what any larger number of turns gives.
pub fn no_expansion_lacks_turns()
    ensures { ExpandsInFull }
{}

/// Without a count of turns: an empty list gives nothing and costs nothing.
pub fn expansion_ends_with_nothing()
    ensures { EndsWithNothing }
{}

/// Without a count of turns: what becomes of a list is settled by its first token, while the cost is within the limit.
pub fn expansion_takes_the_first()
    ensures { TakesTheFirst }
{}

/// An expansion is that of its list of tokens, with no count of turns.
pub fn expansion_is_that_of_the_list()
    ensures { ExpandsTheList }
{}
