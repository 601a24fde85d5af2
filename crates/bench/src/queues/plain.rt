//! The plain queues of `crossbeam_queue`: a reference is either end.
use crate::queues::ends::{Puts, Takes};
use crate::queues::sender::nth;
use crossbeam_queue::{ArrayQueue, SegQueue};
use mb_msg::Envelope;
use std::sync::Wait;

impl Puts for &SegQueue<Envelope> {
    #[inline(always)]
    fn put<R: Wait>(&mut self, rt: &R, number: u64) -> bool {
        self.push(rt, nth(number)).is_ok()
    }
}

impl Takes for &SegQueue<Envelope> {
    #[inline(always)]
    fn take<R: Wait>(&mut self, rt: &R) -> bool {
        self.pop(rt).is_some()
    }
}

impl Puts for &ArrayQueue<Envelope> {
    #[inline(always)]
    fn put<R: Wait>(&mut self, rt: &R, number: u64) -> bool {
        self.push(rt, nth(number)).is_ok()
    }
}

impl Takes for &ArrayQueue<Envelope> {
    #[inline(always)]
    fn take<R: Wait>(&mut self, rt: &R) -> bool {
        self.pop(rt).is_some()
    }
}
