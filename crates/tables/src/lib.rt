// A table: an array with a count, of which the first items count. It is what a list is in fixed memory.
#![tactic(auto)]

ghost use Rattle.std.specs.Prelude.{◌≡◌, length, ltb, take};
ghost use Rattle.tables.specs.Tables.{empty, pushed_if, last_of, popped};

// The first count items.
#[derive(Clone, Copy)]
pub struct Table<T, const N: usize> {
    pub items: [T; N],
    pub count: usize,
}

impl<T: Copy, const N: usize> Table<T, N> {
    // No items; each place of the array holds `none`.
    pub fn empty(none: T) -> Self
        ensures { result ≡ empty N none }
    {
        Table {
            items: [none; N],
            count: 0,
        }
    }

    // The items: the whole array where the count is past it.
    pub fn as_slice(&self) -> &[T]
        ensures items { result.now ≡ take self.now.count self.now.items }
        ensures long { length self.now.items ≡ N }
    {
        if N < self.count {
            return &self.items;
        }
        &self.items[..self.count]
    }

    // One item more, unless the array is full. Whether there was room.
    pub fn push(&mut self, item: T) -> bool
        ensures room { result ≡ ltb self.old.count N }
        ensures table { self.new ≡ pushed_if result self.old item }
        ensures long { length self.old.items ≡ N }
    {
        if N <= self.count {
            return false;
        }
        self.items[self.count] = item;
        self.count += 1;
        true
    }

    // The last item is taken away and handed out, if there is one; its place keeps it.
    pub fn pop(&mut self) -> Option<T>
        ensures item { result ≡ last_of self.old }
        ensures table { self.new ≡ popped self.old }
        ensures long { length self.old.items ≡ N }
    {
        let last = self.as_slice().last().copied();
        self.count = self.as_slice().len().saturating_sub(1);
        last
    }
}
