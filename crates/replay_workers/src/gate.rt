use std::sync::Wait;

/// What is told of each call that a worker makes to a zone. It may let the worker wait.
pub trait Gate {
    /// A worker is about to make its call of this number, counted from 1. The count stays at 2^32 - 1.
    fn before<R: Wait>(&self, rt: &R, worker: u32, call: u32);

    /// The call was answered.
    fn after<R: Wait>(&self, rt: &R, worker: u32, call: u32);
}

/// A gate that stands open.
#[derive(Clone, Copy, Debug)]
pub struct OpenGate;

impl Gate for OpenGate {
    fn before<R: Wait>(&self, _rt: &R, _worker: u32, _call: u32) {}

    fn after<R: Wait>(&self, _rt: &R, _worker: u32, _call: u32) {}
}
