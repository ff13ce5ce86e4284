// Items in their order, in a fixed number of places: the library has no allocator.
ghost use Rattle.std.specs.Prelude.{◌≡◌, [], ◌∷◌, ◌++◌, Bool, suc, true, ◌<◌, ◌≤◌, if◌then◌else◌, ⊤};
ghost use Rattle.std.specs.Fn.{FnReturnsAt};
ghost use Rattle.columns.specs.Common.{keep};

use std::alloc::AllocError;

// A value may count more items than there are places: then the items of all places are its items. What ends in `_sized`
// asks that it doesn't (Sized), and compares no count with N: the engine calls these.
#[derive(Copy)]
pub struct FixedVec<T, const N: usize> {
    pub items: [T; N],
    pub len: usize,
}

impl<T: Copy, const N: usize> Clone for FixedVec<T, N> {
    ghost is_clone = { λ v w. v ≡ w };

    ghost is_infallible = { λ _. ⊤ };

    fn clone(&self) -> Result<Self, AllocError> {
        Ok(*self)
    }
}

impl<T: Copy, const N: usize> FixedVec<T, N> {
    ghost use Rattle.plain_lists.specs.Lists.{items_of, Sized, Stands};

    pub fn as_slice(&self) -> &[T]
        ensures { result.now ≡ items_of self.now }
    {
        if self.len <= N {
            self.as_slice_sized()
        } else {
            &self.items
        }
    }

    pub fn as_slice_sized(&self) -> &[T]
        requires { Sized self.now }
        ensures { result.now ≡ items_of self.now }
    {
        &self.items[..self.len]
    }

    // The same items, and no more counted than there are places.
    pub fn clamped(mut self) -> Self
        ensures stands { Stands result (items_of self) }
        ensures len_le_len { result.len ≤ self.len }
    {
        self.len = self.len.min(N);
        self
    }

    // No item.
    pub fn cleared(mut self) -> Self
        ensures stands { Stands result [] }
        ensures len_value { result.len ≡ 0 }
    {
        self.len = 0;
        self
    }

    // An item behind the others.
    pub fn push(mut self, x: T) -> Self
        requires { self.len < N }
        ensures stands { Stands result (items_of self ++ (x ∷ [])) }
        ensures len_value { result.len ≡ suc self.len }
    {
        self.add_if(true, x);
        self
    }

    // An item behind the others, if it is so.
    pub fn push_if(self, b: bool, x: T) -> Self
        requires { b ≡ true → self.len < N }
        ensures stands { Stands result (if b then items_of self ++ (x ∷ []) else items_of self) }
        ensures len_bound { result.len ≤ suc self.len }
    {
        self.clamped().push_if_sized(b, x)
    }

    pub fn push_if_sized(mut self, b: bool, x: T) -> Self
        requires sized { Sized self }
        requires len_bound { b ≡ true → self.len < N }
        ensures stands { Stands result (if b then items_of self ++ (x ∷ []) else items_of self) }
        ensures len_bound_2 { result.len ≤ suc self.len }
    {
        self.add_if(b, x);
        self
    }

    // The same in place: a value that a loop hands on is copied at each turn.
    pub fn add_if(&mut self, b: bool, x: T)
        requires sized { Sized self.old }
        requires len_bound { b ≡ true → self.old.len < N }
        ensures stands { Stands self.new (if b then items_of self.old ++ (x ∷ []) else items_of self.old) }
        ensures len_value { self.new.len ≡ (if b then suc self.old.len else self.old.len) }
        ensures len_bound_2 { self.new.len ≤ suc self.old.len }
    {
        if b {
            self.items[self.len] = x;
            self.len += 1;
        }
    }

    // The items that pass a test.
    pub fn retain<F: Fn(&T) -> bool>(self, f: F) -> Self
        requires { F.IsAlwaysCallable f }
        ensures stands { (test : T → Bool) → ((x : T) (b : Bool) → FnReturnsAt F.Fn f x b → b ≡ test x) → Stands result (keep test (items_of self)) }
        ensures sized { Sized result }
        ensures len_le_len { result.len ≤ self.len }
    {
        self.clamped().retain_sized(f)
    }

    pub fn retain_sized<F: Fn(&T) -> bool>(self, f: F) -> Self
        requires sized { Sized self }
        requires callable { F.IsAlwaysCallable f }
        ensures stands { (test : T → Bool) → ((x : T) (b : Bool) → FnReturnsAt F.Fn f x b → b ≡ test x) → Stands result (keep test (items_of self)) }
        ensures sized_2 { Sized result }
        ensures len_le_len { result.len ≤ self.len }
    {
        let mut out = self.cleared();
        for x in self.as_slice_sized() {
            out.add_if(f(x), *x);
        }
        out
    }
}
