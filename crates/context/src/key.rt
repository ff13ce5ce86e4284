// A context's key in a run queue, and its entry there (`ContextQueueKey` and `ContextQueueValue`, context/mod.rs).
ghost use Rattle.std.specs.Prelude.{◌≡◌};
ghost use Rattle.context.specs.Key.{queue_key, without_key, with_new_key, entry_of};

use crate::Context;
use entries::{Entry, Key};

impl Context {
    // The key that the record has.
    pub fn queue_key(self) -> Key
        ensures { result ≡ queue_key self }
    {
        Key {
            vd: self.queue_key_vd,
            rem_slice: self.queue_key_rem_slice,
            ctxt_id: self.debug_id,
        }
    }

    pub fn without_key(mut self) -> Context
        ensures { result ≡ without_key self }
    {
        self.has_queue_key = false;
        self.queue_key_vd = 0;
        self.queue_key_rem_slice = 0;
        self
    }

    // With the key that its deadline and slice give.
    pub fn with_new_key(mut self) -> Context
        ensures { result ≡ with_new_key self }
    {
        self.has_queue_key = true;
        self.queue_key_vd = self.vd;
        self.queue_key_rem_slice = self.rem_slice;
        self
    }

    // The entry of context x, whose record this is.
    pub fn entry(self, x: u64, weight: u64) -> Entry
        ensures { result ≡ entry_of x weight self }
    {
        Entry {
            key: Key {
                vd: self.vd,
                rem_slice: self.rem_slice,
                ctxt_id: self.debug_id,
            },
            vtime: self.vtime,
            weight,
            context_ref: x,
        }
    }
}
