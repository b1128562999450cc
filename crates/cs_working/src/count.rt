//! How many documents a working dataset has.
ghost use Rattle.std.specs.Prelude.{◌≡◌, ◌+◌, ◌≤◌, length};
ghost use Rattle.cs_view.specs.Dataset.{stands};
ghost use Rattle.cs_shelf.specs.View.{documents};
ghost use Rattle.cs_working.specs.Working.{base, working};

use crate::working::Working;
use cs_value::Txt;

impl<'d> Working<'d> {
    // Whether the store has a document of the id.
    fn is_in_store(&self, id: &Txt) -> bool
        ensures { result ≡ stands id.now (base self.now) }
    {
        self.stored(id).is_some()
    }

    // How many of the touched ids have a document in the store.
    fn touched_in_store(&self) -> u32
        ensures count { length (working self.now) + result
            ≡ length (base self.now) + length (documents self.now.put) }
        ensures within { result ≤ length (base self.now) }
    {
        let _len = self.touched.len();
        let mut count = 0;
        for id in self.touched.iter() {
            if self.is_in_store(id) {
                count += 1;
            }
        }
        count
    }

    // How many documents there are.
    pub(crate) fn count(&self) -> u32
        ensures { result ≡ length (working self.now) }
    {
        let untouched = self.store.docs().len() - self.touched_in_store();
        untouched + self.put.count() as u32
    }
}
