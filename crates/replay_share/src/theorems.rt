//! What holds of every replay.
ghost use Rattle.replay_share.specs.OneReplay.{AloneIsReplay, OneReplay, SomeReplay};

/// A replay by one worker has exactly one outcome, as theorems: by the configuration and the lines of the log alone, each
/// line has one decision and each zone one history. What the share of the only worker comes to over journals is such a
/// replay. Nothing runs.
pub fn laws()
    ensures one_replay { OneReplay }
    ensures some_replay { SomeReplay }
    ensures alone { AloneIsReplay }
{
    peer_zone::theorems::laws();
}
