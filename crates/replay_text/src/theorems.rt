ghost use Rattle.std.specs.Prelude.{◌≡◌, ◌++◌, List, ℕ};
ghost use Rattle.zone_config.specs.declared.data.Config.{Config};
ghost use Rattle.decision_text.specs.TailText.{BeginsNoWord};
ghost use Rattle.replay_share.specs.Logs.{ZoneLog};
ghost use Rattle.replay_share.specs.Replay.{Decided};
ghost use Rattle.replay_text.specs.Images.{AreImages, replay_text_with_words};
ghost use Rattle.replay_text.specs.Telling.{TextTellsItsHistories, TextWithWordsTellsItsHistories};

/// The text of a replay with words tells the words of each zone, as a theorem: of the same decisions and histories, two equal
/// texts have the same images, and the same text behind them, which doesn't begin with `w`. Nothing runs.
pub fn replay_tells_its_words()
    ensures { (config : Config) (decided : List Decided) (logs : List ZoneLog) (images others : List (List ℕ)) (first second : List ℕ)
        → AreImages config.zones logs images → AreImages config.zones logs others → BeginsNoWord first → BeginsNoWord second
        → replay_text_with_words config decided logs images ++ first ≡ replay_text_with_words config decided logs others ++ second
        → (images ≡ others) × (first ≡ second) }
{}

/// The text of a replay tells each zone's history, as a theorem: of as many lines in the same zones, two equal texts have the
/// same histories, call by call with its worker and its answer, the same line of each decision, and the same text behind
/// them. With words they have the same words too, where no word follows. The numbers are those of the program's types: of 64
/// bits, and keys of bytes. Nothing runs.
pub fn text_tells_its_histories()
    ensures plain { TextTellsItsHistories }
    ensures with_words { TextWithWordsTellsItsHistories }
{}
