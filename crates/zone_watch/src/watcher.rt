ghost use Rattle.std.specs.Prelude.{◌≡◌, IfOk};
ghost use Rattle.zone_watch.specs.Watched.{Watched, sees, answers, report_of};

use crate::stay::Stay;
use request_script::Notice;
use std::alloc::Global;
use zone_outside::{NoMemory, Text};

/// What is shown the notices of a replay and reports of them in the end. It keeps counts, by a rule that never changes: how
/// a notice changes them, what is answered to it, and what is reported of them.
pub trait Watcher: Drop {
    /// The rule and the counts.
    ghost watched: { Self → Watched };

    /// Takes in a notice, and answers whether it wants the next one too. It takes no memory.
    fn see(&mut self, notice: &Notice) -> Stay
        ensures seen { watched self.new ≡ sees (watched self.old) notice.now }
        ensures answered { result ≡ answers (watched self.old) notice.now };

    /// The text that it has to tell of its counts. `NoMemory`: there was none for the text.
    fn report(&self, alloc: Global) -> Result<Text, NoMemory>
        ensures { IfOk result (λ text. text ≡ report_of (watched self.now)) };
}
