// Facts that follow from the definitions: kinds by number, which defaults are open to choice, and worked pairs of bytes in and bytes sent.
#![tactic(auto)]

ghost use Rattle.facts.specs.Columns.{Columns};
ghost use Rattle.facts.specs.Defaults.{OpenByLongNames};
ghost use Rattle.facts.specs.Kinds.{KindsByNumber};

// Which kinds are texts and which count nodes; and the two layers by those numbers.
pub fn kinds_stand()
    ensures { KindsByNumber }
{}

// A default is open to choice exactly when every reference name of 252 bytes and more is in it, and the whole keeps its limit.
pub fn defaults_stand()
    ensures { OpenByLongNames }
{}

// Eight containers as they come in, what each tells, and what is sent for those rows.
pub fn columns_stand()
    ensures { Columns }
{}
