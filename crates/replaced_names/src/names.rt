ghost use Rattle.replaced_names.specs.Names.{NamesStay};

/// Where the text of each identifier is well-formed UTF-8 in the tokens and in what all macros are defined as, it is so in
/// the tokens with every macro replaced.
pub fn names_stay()
    ensures { NamesStay }
{}
