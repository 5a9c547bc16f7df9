//! Queues of blocks by byte offset: nginx's `ngx_queue_t`, whose links are words of the blocks.
#![tactic(auto)]

mod calls;
mod joint;
mod queue;

pub use queue::Queue;
