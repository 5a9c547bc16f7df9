ghost use Rattle.offset_tree.specs.Laws.{DigitsLaw, MoreBlocksLaw, ThousandRow};

/// What holds of the bounds on searches and insertions, as theorems over the definitions. Nothing runs.
pub fn laws()
    ensures digits { DigitsLaw }
    ensures more_blocks { MoreBlocksLaw }
{}

/// A worked row of the bounds, which the definitions compute. Nothing runs.
pub fn worked_rows()
    ensures thousand { ThousandRow }
{}
