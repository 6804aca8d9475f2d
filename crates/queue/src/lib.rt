// A queue, first in, first out, over slots that the caller lends.
#![tactic(auto)]

pub mod examples;

ghost use Rattle.std.specs.Prelude.{◌≡◌, ◌+◌, ◌%◌, ◌<◌, ◌≤◌, [], Some, length, slice_get, slice_set, MatchOption};

/// A queue, first in, first out, in a ring over slots that the caller lends: a `VecDeque` would need a heap.
/// `len` entries wait, from slot `head` on, and past the last slot from the first one on.
/// No more wait than there are slots, and the head is one of them, if there is any.
#[derive(Drop)]
pub struct Queue<'a, T> {
    slots: &'a mut [T],
    head: usize,
    len: usize,
    ghost fits: { len ≤ length slots.now },
    ghost inside: { 0 < length slots.now → head < length slots.now },
}

impl<'a, T: Copy> Queue<'a, T> {
    ghost use Rattle.queue.specs.Queue.{waits, capacity, Enqueued, EnqueuedIf, Dequeued};

    /// A queue in which nothing waits, over all the slots. What they hold does not matter.
    pub fn new(slots: &'a mut [T]) -> Queue<'a, T>
        ensures empty { waits result ≡ [] }
        ensures room { capacity result ≡ length slots.old }
    {
        Queue {
            slots,
            head: 0,
            len: 0,
        }
    }

    /// Has the entry wait last. Where as many wait as there are slots, gives it back and changes nothing.
    #[tactic(auto, using(crate::proofs::Rings::waiting_more, crate::proofs::Rings::length_waiting, std::proofs::lemmas::Grind::common_steps))]
    pub fn enqueue(&mut self, entry: T) -> Result<(), T>
        ensures { Enqueued self.old self.new entry result }
    {
        let Some(last) = self.next_slot() else {
            return Err(entry);
        };
        store(self.slots, last, entry);
        self.len += 1;
        Ok(())
    }

    /// Has the entry wait last if it is wanted and fewer wait than there are slots, and answers whether it waits now; else the same
    /// entries wait as before. It writes the slot either way, so that a test that comes out at random costs no branch.
    #[tactic(auto, using(crate::proofs::Rings::waiting_more, crate::proofs::Rings::waiting_same, crate::proofs::Rings::length_waiting, std::proofs::lemmas::Grind::common_steps))]
    pub fn enqueue_if(&mut self, entry: T, wanted: bool) -> bool
        ensures { EnqueuedIf self.old self.new entry wanted result }
    {
        let Some(free) = self.next_slot() else {
            return false;
        };
        store(self.slots, free, entry);
        self.len += usize::from(wanted);
        wanted
    }

    /// Serves the entry that has waited longest. Where nothing waits, answers None and changes nothing.
    pub fn dequeue(&mut self) -> Option<T>
        ensures { Dequeued self.old self.new result }
    {
        if self.len == 0 {
            return None;
        }
        let entry = self.first();
        self.head = self.past_head(1);
        self.len -= 1;
        Some(entry)
    }

    // The entry at the head.
    fn first(&self) -> T
        requires { self.now.head < capacity self.now }
        ensures { slice_get self.now.slots.now self.now.head ≡ Some result }
    {
        taken(self.slots, self.head)
    }

    // The slot for the next entry that waits: the one behind the last. None where as many wait as there are slots.
    fn next_slot(&self) -> Option<usize>
        ensures { MatchOption result (self.now.len ≡ capacity self.now) (λ at. (self.now.len < capacity self.now) × (at ≡ (self.now.head + self.now.len) % capacity self.now)) }
    {
        let len = self.len;
        if len >= self.slots.len() {
            return None;
        }
        Some(self.past_head(len))
    }

    // The slot `steps` past the head, round the end of the ring; no sum overflows, however many slots there are.
    fn past_head(&self, steps: usize) -> usize
        requires some { 0 < capacity self.now }
        requires once { steps ≤ capacity self.now }
        ensures { result ≡ (self.now.head + steps) % capacity self.now }
    {
        let left = self.slots.len() - self.head;
        if steps < left {
            self.head + steps
        } else {
            steps - left
        }
    }
}

// Writes an entry into a slot.
fn store<T: Copy>(slots: &mut [T], at: usize, entry: T)
    requires { at < length slots.old }
    ensures { slots.new ≡ slice_set slots.old at entry }
{
    slots[at] = entry;
}

// The entry in a slot.
fn taken<T: Copy>(slots: &[T], at: usize) -> T
    requires { at < length slots.now }
    ensures { slice_get slots.now at ≡ Some result }
{
    slots[at]
}

#[cfg(test)]
mod tests {
    use super::Queue;
    use std::process::Abort;

    #[derive(Clone, Copy, PartialEq, Debug)]
    struct Entry {
        cell: u16,
        side: u8,
    }

    // Sends four entries through three slots: what comes out, where the fourth has no room until one is served.
    fn turned<T: Copy>(rt: &impl Abort, slots: &mut [T; 3], entries: [T; 4]) -> [Option<T>; 5] {
        let mut queue = Queue::new(slots);
        assert!(rt;
            queue.enqueue(entries[0]).is_ok()
                && queue.enqueue(entries[1]).is_ok()
                && queue.enqueue(entries[2]).is_ok()
        );
        assert!(rt; queue.enqueue(entries[3]).is_err());
        assert!(rt; !queue.enqueue_if(entries[3], true));
        let first = queue.dequeue();
        assert!(rt; !queue.enqueue_if(entries[0], false) && queue.enqueue_if(entries[3], true));
        [
            first,
            queue.dequeue(),
            queue.dequeue(),
            queue.dequeue(),
            queue.dequeue(),
        ]
    }

    #[test]
    fn numbers(rt: HostRuntime) {
        assert_eq!(rt;
            turned(&rt, &mut [0u16; 3], [1, 2, 3, 4]),
            [Some(1), Some(2), Some(3), Some(4), None]
        );
    }

    #[test]
    fn records(rt: HostRuntime) {
        let [a, b, c, d] = [
            Entry { cell: 1, side: 4 },
            Entry { cell: 1, side: 3 },
            Entry { cell: 2, side: 2 },
            Entry { cell: 2, side: 1 },
        ];
        assert_eq!(rt;
            turned(&rt, &mut [a; 3], [a, b, c, d]),
            [Some(a), Some(b), Some(c), Some(d), None]
        );
    }
}
