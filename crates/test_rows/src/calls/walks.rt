//! The iterators that lend for writing, and the drains, by steps from both ends.
use crate::hashers::Hashing;
use crate::items::{Goes, Item, Shown, Step, Walk, Word, go, write, write_pair};
use hashlink_map::{DrainOf, Drainable, IterMut, ValuesMut};
use hashlink_set::Drain as SetDrain;

impl Walk for IterMut<'_, Item, Item, Hashing> {
    fn step(&mut self, step: Step) -> Word {
        let came = match step.goes {
            Goes::Left => Word::Nothing,
            Goes::Next => write_pair(self.next(), step.written),
            Goes::Back => write_pair(self.next_back(), step.written),
            Goes::Value => write(self.next_value(), step.written),
            Goes::ValueBack => write(self.next_value_back(), step.written),
            Goes::Peek => self.peek().shown(),
        };
        let left = self.len();
        step.said(came, left, (left, Some(left)))
    }
}

impl Walk for ValuesMut<'_, Item, Item, Hashing> {
    fn step(&mut self, step: Step) -> Word {
        let came = match step.goes {
            Goes::Left => Word::Nothing,
            Goes::Back => write(self.next_back(), step.written),
            _ => write(self.next(), step.written),
        };
        let left = self.len();
        step.said(came, left, (left, Some(left)))
    }
}

impl<C: Drainable<Item, Item>> Walk for DrainOf<'_, C, Item, Item> {
    fn step(&mut self, step: Step) -> Word {
        let came = go(self, step.goes);
        let hint = self.size_hint();
        step.said(came, hint.0, hint)
    }
}

impl Walk for SetDrain<'_, Item, Hashing> {
    fn step(&mut self, step: Step) -> Word {
        let came = go(self, step.goes);
        step.said(came, self.len(), self.size_hint())
    }
}
