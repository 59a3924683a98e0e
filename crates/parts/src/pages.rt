// The keys of a page and their marks, of which the first `count` places are in use. In order: tests of the keys that a page begins with; then the marks of a page
// that begins, tests of marks, and a key that is read. Each test goes from the last place to the first, as its definition has it.
ghost use Rattle.std.specs.Prelude.{◌≡◌, ◌≤◌, List, ℕ};
ghost use Rattle.codec.specs.Lists.{has};
ghost use Rattle.protocol.specs.Needs.{distinct, awaited, all_read};
ghost use Rattle.protocol.specs.Serve.{unread, mark_read};
ghost use Rattle.parts.specs.Pages.{keys_on, keys_from, marks_on, with_keys};

use crate::{Keys, Marks};

impl Keys {
    // Whether one of the keys from place `from` on is k.
    fn holds(self, from: usize, k: u8) -> bool
        requires { (from ≤ self.count) × (self.count ≤ 8) }
        ensures { result ≡ has (keys_from self from) k }
    {
        let count = self.count as usize;
        let mut any = false;
        for i in (from..count).rev() {
            any |= self.keys[i] == k;
        }
        any
    }

    // Whether no key stands twice (R46).
    pub fn distinct(self) -> bool
        requires { self.count ≤ 8 }
        ensures { result ≡ distinct (keys_on self) }
    {
        let count = self.count as usize;
        let mut all = true;
        for i in (0..count).rev() {
            all &= !self.holds(i + 1, self.keys[i]);
        }
        all
    }
}

impl Marks {
    // The marks of a page that begins: no key is read.
    pub fn unread(page: Keys) -> Marks
        requires { page.count ≤ 8 }
        ensures { marks_on result ≡ unread (keys_on page) }
    {
        Marks {
            page,
            read: [false; 8],
        }
    }

    // Whether key k is on the page and not read yet.
    pub fn awaited(self, k: u8) -> bool
        requires { self.page.count ≤ 8 }
        ensures { result ≡ awaited k (marks_on self) }
    {
        let count = self.page.count as usize;
        let mut any = false;
        for i in (0..count).rev() {
            any |= (self.page.keys[i] == k) & !self.read[i];
        }
        any
    }

    // Whether every key of the page is read, whichever they are.
    pub fn all_read(self) -> bool
        requires { self.page.count ≤ 8 }
        ensures { (keys : List ℕ) → result ≡ all_read (marks_on (with_keys keys self)) }
    {
        let count = self.page.count as usize;
        let mut all = true;
        for i in (0..count).rev() {
            all &= self.read[i];
        }
        all
    }

    // The marks once key k is read.
    pub fn with_read(self, k: u8) -> Marks
        requires { self.page.count ≤ 8 }
        ensures { marks_on result ≡ mark_read k (marks_on self) }
    {
        let page = self.page;
        let count = page.count as usize;
        let mut read = self.read;
        for i in 0..count {
            read[i] = self.read[i] | (page.keys[i] == k);
        }
        Marks { page, read }
    }
}
