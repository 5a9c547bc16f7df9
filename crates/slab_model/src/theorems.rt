ghost use Rattle.slab_model.specs.Laws.{FreshLaw, GrantSoundLaw, ReturnSoundLaw, GrantLaw, NewBlockLaw, NoGrantLaw, ReturnLaw, BlocksLaw, LowestLaw, PagesLaw, GrantPagesLaw, ReturnPagesLaw, RoundTripLaw, FitsLaw, RequestsLaw, ReturnCountsLaw, ReturnUsedLaw};
ghost use Rattle.slab_model.specs.Rows.{ZonesRow, NodesRow, SmallRow, LargeRow, RunsRow, MergeRow};

/// What holds of every slab, as theorems over the definitions. Nothing runs.
pub fn laws()
    ensures fresh { FreshLaw }
    ensures grant_sound { GrantSoundLaw }
    ensures return_sound { ReturnSoundLaw }
    ensures grants { GrantLaw }
    ensures new_block { NewBlockLaw }
    ensures no_grant { NoGrantLaw }
    ensures returns { ReturnLaw }
    ensures blocks { BlocksLaw }
    ensures lowest { LowestLaw }
    ensures pages { PagesLaw }
    ensures grant_pages { GrantPagesLaw }
    ensures return_pages { ReturnPagesLaw }
    ensures round_trip { RoundTripLaw }
    ensures fits { FitsLaw }
    ensures requests { RequestsLaw }
    ensures return_counts { ReturnCountsLaw }
    ensures return_used { ReturnUsedLaw }
{}

/// Worked rows, which the definitions compute. Nothing runs.
pub fn worked_rows()
    ensures zones { ZonesRow }
    ensures nodes { NodesRow }
    ensures small { SmallRow }
    ensures large { LargeRow }
    ensures runs { RunsRow }
    ensures merge { MergeRow }
{}
