ghost use Rattle.std.specs.Prelude.{◌≡◌, ◌<◌, ◌^◌, ◌++◌, List, ℕ, Some, length};
ghost use Rattle.std.specs.List.{All};
ghost use Rattle.zone_outside.specs.Coded.{decoded};
ghost use Rattle.decision_text.specs.Coding.{coded};
ghost use Rattle.decision_text.specs.TailText.{AreWords, BeginsNoWord, image_text};
ghost use Rattle.decision_text.specs.Telling.{DecisionLineIsOneLine, ReqLineTellsItsCall, ConnLineTellsItsCall, PeerLineTellsItsCall};

/// A name that was printed reads back as coded text, as a theorem. Nothing runs.
pub fn coded_reads_back()
    ensures { (name : List ℕ) → All (λ b. b < 256) name → decoded (coded name) ≡ Some name }
{}

/// The text of a zone's words tells each of them, as a theorem: two lists of words of 64 bits with one text are equal.
/// Nothing runs.
pub fn image_tells_its_words()
    ensures { (name words others : List ℕ) → AreWords words → AreWords others → length words < 2 ^ 64 → length others < 2 ^ 64
        → image_text name words ≡ image_text name others → words ≡ others }
{}

/// The same where more text follows, as another zone's history or a report, which never begins with `w`: two equal texts
/// have the same words, and the same text behind them. Nothing runs.
pub fn image_tells_its_words_before_more()
    ensures { (name words others first second : List ℕ) → AreWords words → AreWords others → length words < 2 ^ 64 → length others < 2 ^ 64
        → BeginsNoWord first → BeginsNoWord second
        → image_text name words ++ first ≡ image_text name others ++ second → (words ≡ others) × (first ≡ second) }
{}

/// The line of a call in a zone's history tells the call, its place, its worker and its answer, whatever follows it, as a
/// theorem, for each kind of zone: of numbers of 64 bits and keys of bytes, two equal texts that begin with such lines have
/// the same call there, and the same text behind it. Nothing runs.
pub fn line_tells_its_call()
    ensures req { ReqLineTellsItsCall }
    ensures conn { ConnLineTellsItsCall }
    ensures peer { PeerLineTellsItsCall }
{}

/// The line of a decision ends where the next line begins, as a theorem: two equal texts that begin with the lines of two
/// decisions have the same line there, and the same text behind it. The decisions themselves may differ: servers of one
/// address print alike, and so do the zone `-` and none. Nothing runs.
pub fn decision_line_is_one_line()
    ensures { DecisionLineIsOneLine }
{}
