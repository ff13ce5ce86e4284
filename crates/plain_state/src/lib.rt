// The state of a decision of the plain engine, by value: the contexts, and the CPU that decides with its lists in any order.
#![tactic(auto)]

ghost use Rattle.std.specs.Prelude.{◌≡◌, true, false, map, ◌<◌, ◌≤◌};
ghost use Rattle.columns.specs.Common.{All, keep};
ghost use Rattle.entries.specs.declared.Entry.{Entry};
ghost use Rattle.model.specs.State.{at, put_context, push_local};
ghost use Rattle.plain_model.specs.State.{insert_entry, insert_timer, insert_newest_timer, remove_key};
ghost use Rattle.plain_state.specs.States.{timer_of, stands_beside, state_in, queue_put, timers_put, Sound, Became, Tracks};
ghost use Rattle.plain_lists.specs.Lists.{entries_of, Sized, Stands};

use context::Context;
use entries::{Entry, Key, Timer};
use percpu::PercpuBlock;
use plain_lists::{FixedVec, Queue};

// Contexts by their numbers.
pub type Names = FixedVec<u64, 64>;

// A timer stands in its queue as an entry: its wake is the deadline, its context the id.
#[derive(Clone, Copy)]
pub struct Cpu {
    pub block: PercpuBlock,
    pub queue: Queue,
    pub timers: Queue,
    pub local: Names,
    pub ipi: Names,
    pub remainder: u64,
}

#[derive(Clone, Copy)]
pub struct State {
    pub contexts: [Context; 64],
    pub cpu: Cpu,
    // An insertion found no room: a flag as in the definitions and no error, as the plain engine has no early exits.
    pub no_room: bool,
}

// A timer as an entry of its queue.
pub fn timer_entry(t: Timer) -> Entry
    ensures { (timer_of result ≡ t) × (result.key.rem_slice ≡ 0) }
{
    let key = Key {
        vd: t.wake,
        rem_slice: 0,
        ctxt_id: t.context_ref,
    };
    Entry {
        key,
        vtime: 0,
        weight: 0,
        context_ref: t.context_ref,
    }
}

// And back.
pub fn timer_of(e: Entry) -> Timer
    ensures { result ≡ timer_of e }
{
    Timer {
        wake: e.key.vd,
        context_ref: e.key.ctxt_id,
    }
}

// The timers without every other of t's context.
fn without_superseded(q: Queue, t: Timer) -> Queue
    requires { Sized q }
    ensures { Stands result (keep (stands_beside t) (entries_of q)) }
{
    q.retain_sized(|e| !t.supersedes(timer_of(*e)))
}

impl State {
    pub fn context(self, n: usize, x: usize) -> Context
        requires sound { Sound n self }
        requires x_lt_n { x < n }
        ensures { result ≡ at (state_in n self) x }
    {
        self.contexts[x]
    }

    pub fn put_context(mut self, n: usize, x: usize, q: Context) -> State
        requires sound { Sound n self }
        requires x_lt_n { x < n }
        ensures { Became n result (put_context x q (state_in n self)) }
    {
        self.contexts[x] = q;
        self
    }

    fn without_room(mut self, n: usize) -> State
        requires { Sound n self }
        ensures { (Sound n result) × (result.no_room ≡ true) }
    {
        self.no_room = true;
        self
    }

    // The state with another queue, whose length is published.
    fn with_queue(mut self, n: usize, q: Queue) -> State
        requires sound { Sound n self }
        requires sized { Sized q }
        ensures { Became n result (queue_put (entries_of q) q.len false (state_in n self)) }
    {
        self.cpu.block.queue_len = numbers::word(q.len);
        self.cpu.queue = q;
        self
    }

    // An entry behind the others, in place of the one of its key.
    pub fn insert_entry(self, n: usize, e: Entry) -> State
        requires { Sound n self }
        ensures { Tracks n result (insert_entry e (state_in n self)) }
    {
        match self.cpu.queue.put_in_sized(e) {
            Some(q) => self.with_queue(n, q),
            None => self.without_room(n),
        }
    }

    // A key out of the queue.
    pub fn remove_key(self, n: usize, k: Key) -> State
        requires { Sound n self }
        ensures { Became n result (remove_key k (state_in n self)) }
    {
        let q = self.cpu.queue.leave_out(k);
        self.with_queue(n, q)
    }

    // The state with other timers.
    fn with_timers(mut self, n: usize, q: Queue) -> State
        requires sound { Sound n self }
        requires sized { (Sized q) × (All (λ (e : Entry). e.key.rem_slice ≡ 0) (entries_of q)) }
        ensures { Became n result (timers_put (map timer_of (entries_of q)) false (state_in n self)) }
    {
        self.cpu.timers = q;
        self
    }

    // A timer behind the others, in place of its equal.
    pub fn insert_timer(self, n: usize, t: Timer) -> State
        requires { Sound n self }
        ensures { Tracks n result (insert_timer t (state_in n self)) }
    {
        let e = timer_entry(t);
        match self.cpu.timers.put_in_sized(e) {
            Some(q) => self.with_timers(n, q),
            None => self.without_room(n),
        }
    }

    // A timer that is put in, not back: every other of its context leaves first.
    pub fn insert_newest_timer(self, n: usize, t: Timer) -> State
        requires { Sound n self }
        ensures { Tracks n result (insert_newest_timer t (state_in n self)) }
    {
        let q = without_superseded(self.cpu.timers, t);
        self.with_timers(n, q).insert_timer(n, t)
    }

    // A name behind the others of the local list.
    pub fn push_local(mut self, n: usize, x: u64) -> State
        requires { Sound n self }
        ensures { Tracks n result (push_local x (state_in n self)) }
    {
        if self.cpu.local.len == 64 {
            return self.without_room(n);
        }
        self.cpu.local = self.cpu.local.push(x);
        self
    }
}
