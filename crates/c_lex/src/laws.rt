//! What holds of every text.

ghost use Rattle.c_lex.specs.Laws.{OneList, OneFault, NotBoth, EachText, RangesRise, EveryByte, Spellings, NoOtherSpellings};

/// A text has one list of tokens or one first fault, and not both. The tokens' ranges rise and
/// don't overlap; what lies between them is white space and comments alone. Each punctuator,
/// keyword and reserved word is read from its spelling and from no other.
pub fn laws()
    ensures one_list { OneList }
    ensures one_fault { OneFault }
    ensures not_both { NotBoth }
    ensures each_text { EachText }
    ensures ranges { RangesRise }
    ensures every_byte { EveryByte }
    ensures spellings { Spellings }
    ensures no_other { NoOtherSpellings }
{}
