//! What holds of the texts that are shown.
ghost use Rattle.zonereplay.specs.OneShown.{OneShown, SomeShown, OnePlain, OneWorker, OneSummary, OneMade};

/// A replay by one worker has exactly one text and one summary, as theorems; what `plain` writes follows from what its two
/// files hold, `replay` on one worker does what `plain` does, and what `made` writes follows from its seed and its number of
/// lines. Nothing runs.
pub fn laws()
    ensures one_shown { OneShown }
    ensures some_shown { SomeShown }
    ensures one_plain { OnePlain }
    ensures one_worker { OneWorker }
    ensures one_summary { OneSummary }
    ensures one_made { OneMade }
{
    replay_share::theorems::laws();
}
