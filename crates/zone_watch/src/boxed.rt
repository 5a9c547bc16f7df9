use crate::stay::Stay;
use crate::watcher::Watcher;
use request_script::Notice;
use std::alloc::Global;
use zone_outside::{NoMemory, Text};

/// A boxed watcher is the one in its box.
impl Watcher for Box<dyn Watcher> {
    ghost watched = { λ b. (Watcher-box b).watched b.value };

    fn see(&mut self, notice: &Notice) -> Stay {
        (**self).see(notice)
    }

    fn report(&self, alloc: Global) -> Result<Text, NoMemory> {
        (**self).report(alloc)
    }
}
